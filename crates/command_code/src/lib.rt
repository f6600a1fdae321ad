// A command read, what it orders, and the bytes before a reply's data.
#![tactic(auto)]

ghost use Rattle.std.specs.Prelude.{◌≡◌};
ghost use Rattle.command.specs.Kinds.{has_data};
ghost use Rattle.command.specs.Requests.{request_of, lent_to, call_order, batch_order, tool_order, order_of, batch_events, batch_pages, holds_events};
ghost use Rattle.command.specs.Replies.{reply_head, values_head};

use answer::Sense;
use calls::{IN, OUT, READ, WRITE};
use command::{BATCH, GIVE_RECORD, LENT_MOST, Order, READ_STATUS, Request, SERVES, TAKE_RECORD};
use status::Status;

// A batch's data begin with the count of its events' bytes.
const COUNT_SIZE: usize = 2;

// The 8 bytes of a command; byte 5, the port, isn't read.
pub fn request_of(bytes: [u8; 8]) -> Request
    ensures { result ≡ request_of bytes }
{
    Request {
        kind: bytes[0],
        nexus: bytes[1],
        argument: wire_code::word(bytes[2], bytes[3]) as u16,
        protocol: bytes[4],
        length: wire_code::word(bytes[6], bytes[7]) as u16,
    }
}

// Data follow a command of that kind.
pub fn has_data(kind: u8) -> bool
    ensures { result ≡ has_data kind }
{
    matches!(kind, OUT | BATCH | READ_STATUS | TAKE_RECORD)
}

// The buffer that is lent to a call: only IN has one.
fn lent_to(request: Request) -> u16
    ensures { result ≡ lent_to request }
{
    if request.kind == IN {
        request.length
    } else {
        0
    }
}

// A call of the drive's, where its buffer isn't too large and a write's argument is a flag.
#[tactic(auto, unfolding(command::specs::Requests::call_order))]
fn call_order(request: Request) -> Order
    ensures { result ≡ call_order request }
{
    let lent = lent_to(request);
    let flag_known = request.kind != WRITE || request.argument <= 1;
    if lent <= LENT_MOST && flag_known {
        let asked = calls_code::asked_of(
            request.kind,
            request.nexus,
            request.argument,
            request.protocol,
        );
        return Order::Ask(asked, lent);
    }
    Order::Unknown
}

// A batch, where its buffer isn't too large.
fn batch_order(request: Request) -> Order
    ensures { result ≡ batch_order request }
{
    if request.argument <= LENT_MOST {
        Order::Batch(request.argument)
    } else {
        Order::Unknown
    }
}

// A kind that is no call of the drive's.
#[tactic(auto, unfolding(command::specs::Requests::tool_order))]
fn tool_order(request: Request) -> Order
    ensures { result ≡ tool_order request }
{
    match request.kind {
        BATCH => batch_order(request),
        SERVES => Order::Serves(request.argument),
        READ_STATUS => Order::ReadStatus,
        TAKE_RECORD => Order::TakeRecord,
        GIVE_RECORD => Order::GiveRecord,
        _ => Order::Unknown,
    }
}

// What a command orders.
#[tactic(auto, unfolding(command::specs::Requests::order_of))]
pub fn order_of(request: Request) -> Order
    ensures { result ≡ order_of request }
{
    if request.kind <= READ {
        call_order(request)
    } else {
        tool_order(request)
    }
}

// A batch's data hold the events that they say.
pub fn holds_events(bytes: &[u8]) -> bool
    ensures { result ≡ holds_events bytes.now }
{
    COUNT_SIZE + wire_code::word_at(bytes, 0) <= bytes.len()
}

// The events of a batch's data.
pub fn batch_events(bytes: &[u8]) -> &[u8]
    ensures { result.now ≡ batch_events bytes.now }
{
    wire_code::part(bytes, COUNT_SIZE, wire_code::word_at(bytes, 0))
}

// Its page bytes.
pub fn batch_pages(bytes: &[u8]) -> &[u8]
    ensures { result.now ≡ batch_pages bytes.now }
{
    wire_code::part(
        bytes,
        COUNT_SIZE + wire_code::word_at(bytes, 0),
        bytes.len(),
    )
}

// A reply's bytes before its data: number, sense, the count of data.
pub fn reply_head(number: u8, sense: Sense, length: u16) -> [u8; 6]
    ensures { result ≡ reply_head number sense length }
{
    let count = wire_code::two(length);
    [number, sense.key, sense.asc, sense.ascq, count[0], count[1]]
}

// A status page's values before its key-associated data.
pub fn values_head(status: Status) -> [u8; 11]
    ensures { result ≡ values_head status }
{
    let number = wire_code::four(status.number);
    [
        status.nexus_scope,
        status.set_scope,
        status.encryption,
        status.decryption,
        status.index,
        number[0],
        number[1],
        number[2],
        number[3],
        status.ceems,
        status.rdmd as u8,
    ]
}
