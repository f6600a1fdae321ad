// The drive of this model on docs/CONSOLE.md's stream: a command obeyed, and its reply.
#![tactic(auto)]

ghost use Rattle.std.specs.Prelude.{◌≤◌, length};
ghost use Rattle.device_16.specs.Model.{worded};
ghost use Rattle.command.specs.Requests.{lent_most, lent_size};
ghost use Rattle.command.specs.Replies.{in_reply, asked_reply, batch_reply, obeyed};
ghost use Rattle.reply_16.specs.Giving.{in_from, reply_most, Given};
ghost use Rattle.stream_16.specs.Stream.{batch_from, part_from, lent_part, served};

use answer::Sense;
use calls::Asked;
use command::{Order, Request};
use device_16::Record;
use drive::Command;
use reply_16::{HEAD_SIZE, IN_FROM, REPLY_MOST, Reply};

// SECURITY PROTOCOL IN. The lent buffer is a part of the reply's own.
fn give_in(r: Record, command: Command, size: usize, buffer: &mut [u8]) -> Reply
    requires { (reply_most ≤ length buffer.old) × (size ≤ lent_most) }
    ensures { Given (in_reply (worded r) command (part_from in_from size buffer.old)) buffer.old result buffer.new }
{
    let outcome = drive_16::security_in(r, command, &mut buffer[IN_FROM..IN_FROM + size]);
    let full = wire_code::two((outcome.length % 65536) as u16);
    wire_code::put(buffer, HEAD_SIZE, &full);
    reply_16::reply_with(outcome.after, outcome.answer, 2 + size)
}

// A call of the drive's. IN lends a part of the reply's buffer.
fn ask(r: Record, asked: Asked, size: usize, page: &[u8], buffer: &mut [u8]) -> Reply
    requires { (reply_most ≤ length buffer.old) × (size ≤ lent_most) }
    ensures { Given (asked_reply (worded r) asked page.now (part_from in_from size buffer.old)) buffer.old result buffer.new }
{
    match asked {
        Asked::PowerOn => reply_16::plain(drive_16::power_on()),
        Asked::In(command) => give_in(r, command, size, buffer),
        Asked::Out(command) => reply_16::give_out(r, command, page, buffer),
        Asked::Write(n, supported) => reply_16::give_write(r, n, supported, buffer),
        Asked::Read(n, block) => reply_16::give_read(r, n, block, buffer),
        Asked::UnitReset => reply_16::plain(drive_16::unit_reset(r)),
        Asked::Happen(event) => reply_16::plain(drive_16::happen(r, event)),
    }
}

// Several events in one call. The lent buffer is a part of the reply's own, and all of its data.
fn give_batch(r: Record, bytes: &[u8], size: usize, buffer: &mut [u8]) -> Reply
    requires { (reply_most ≤ length buffer.old) × (size ≤ lent_most) }
    ensures { Given (batch_reply (worded r) bytes.now (part_from batch_from size buffer.old)) buffer.old result buffer.new }
{
    if !command_code::holds_events(bytes) {
        return reply_16::unknown(r);
    }
    let ran = batch_16::batch(
        r,
        command_code::batch_events(bytes),
        command_code::batch_pages(bytes),
        &mut buffer[HEAD_SIZE..HEAD_SIZE + size],
    );
    Reply {
        after: ran.after,
        number: recording_code::verdict_number(ran.verdict),
        sense: Sense::NONE,
        length: size,
    }
}

// An order, where the buffer has room for every reply.
fn follow(r: Record, order: Order, page: &[u8], buffer: &mut [u8]) -> Reply
    requires { (reply_most ≤ length buffer.old) × (lent_size order ≤ lent_most) }
    ensures { Given (obeyed (worded r) order page.now (lent_part order buffer.old)) buffer.old result buffer.new }
{
    match order {
        Order::Unknown => reply_16::unknown(r),
        Order::Ask(asked, size) => ask(r, asked, size as usize, page, buffer),
        Order::Batch(size) => give_batch(r, page, size as usize, buffer),
        Order::Serves(place) => reply_16::give_served(r, place, buffer),
        Order::ReadStatus => reply_16::give_status(r, page, buffer),
        Order::TakeRecord => reply_16::take_record(r, page),
        Order::GiveRecord => reply_16::give_record(r, buffer),
    }
}

// A command with its data, and its reply: the data bytes are stored in the buffer from HEAD_SIZE on. IN and a batch lend a part of it. A
// buffer shorter than REPLY_MOST serves no command.
pub fn obey(r: Record, request: Request, page: &[u8], buffer: &mut [u8]) -> Reply
    ensures { Given (served (worded r) request page.now buffer.old) buffer.old result buffer.new }
{
    if buffer.len() < REPLY_MOST {
        return reply_16::unknown(r);
    }
    follow(r, command_code::order_of(request), page, buffer)
}
