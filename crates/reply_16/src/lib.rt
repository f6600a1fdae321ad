// Replies of docs/CONSOLE.md on this model: number, sense and record as a value, the data in a lent buffer after the head.
#![tactic(auto)]

ghost use Rattle.std.specs.Prelude.{◌≡◌, ◌+◌, ◌≤◌, length};
ghost use Rattle.device_16.specs.Model.{worded};
ghost use Rattle.command.specs.Replies.{reply_head_size, answered, when_done, pointer, unknown_reply, out_reply, write_reply, read_reply, serves_reply, status_reply, take_reply, give_reply};
ghost use Rattle.reply_16.specs.Giving.{reply_most, reply_of, reply_with, Given};

use answer::{Answer, Sense};
use command::{LENT_MOST, UNKNOWN};
use device_16::Record;
use drive::{Block, Command};
use drive_16::Outcome;
use record_16::RECORD_SIZE;
use record_code::KADS_SIZE;

pub const HEAD_SIZE: usize = 6;

// Where IN's lent buffer stands in the reply's, after the page's full length; a batch's stands at HEAD_SIZE.
pub const IN_FROM: usize = HEAD_SIZE + 2;

// Room for every reply: IN's with the largest lent buffer, and the record's, whichever is longer in this model.
pub const REPLY_MOST: usize = IN_FROM + LENT_MOST as usize + RECORD_SIZE;

// The values of a status page before its key-associated data.
const VALUES_SIZE: usize = 11;

// The record after the command stands first: after a byte and its padding the compiler copies it twice more. length counts the data bytes,
// which are in the lent buffer from HEAD_SIZE on.
#[derive(Clone, Copy)]
pub struct Reply {
    pub after: Record,
    pub number: u8,
    pub sense: Sense,
    pub length: usize,
}

// The reply with an answer and so many bytes of data.
pub fn reply_with(after: Record, answer: Answer, length: usize) -> Reply
    ensures { result ≡ reply_with after answer length }
{
    let row = answer_code::row_of(answer);
    Reply {
        after,
        number: row.number,
        sense: row.sense,
        length,
    }
}

// The reply to a call that gives its answer alone.
pub fn plain(outcome: Outcome) -> Reply
    ensures { result ≡ reply_with outcome.after outcome.answer 0 }
{
    reply_with(outcome.after, outcome.answer, 0)
}

// The reply to an unknown command.
pub fn unknown(r: Record) -> Reply
    ensures { result ≡ reply_of (unknown_reply (worded r)) }
{
    Reply {
        after: r,
        number: UNKNOWN,
        sense: Sense::NONE,
        length: 0,
    }
}

// The reply with an answer whose data, where it is 0, are these bytes.
fn give(r: Record, answer: Answer, bytes: &[u8], buffer: &mut [u8]) -> Reply
    requires { reply_head_size + length bytes.now ≤ reply_most }
    ensures { Given (answered answer (when_done answer bytes.now) (worded r)) buffer.old result buffer.new }
{
    if !answer_code::is_done(answer) {
        return reply_with(r, answer, 0);
    }
    wire_code::put(buffer, HEAD_SIZE, bytes);
    reply_with(r, answer, bytes.len())
}

// The reply to a page: where it is answered 8, the number of the faulty byte.
fn point(r: Record, answer: Answer, buffer: &mut [u8]) -> Reply
    ensures { Given (answered answer (pointer answer) (worded r)) buffer.old result buffer.new }
{
    let Answer::FieldWrong(byte) = answer else {
        return reply_with(r, answer, 0);
    };
    wire_code::put(buffer, HEAD_SIZE, &wire_code::two(byte));
    reply_with(r, answer, 2)
}

// SECURITY PROTOCOL OUT.
pub fn give_out(r: Record, command: Command, page: &[u8], buffer: &mut [u8]) -> Reply
    ensures { Given (out_reply (worded r) command page.now) buffer.old result buffer.new }
{
    let outcome = drive_16::security_out(r, command, page);
    point(outcome.after, outcome.answer, buffer)
}

// The write decision.
pub fn give_write(r: Record, n: u8, supported: bool, buffer: &mut [u8]) -> Reply
    ensures { Given (write_reply (worded r) n supported) buffer.old result buffer.new }
{
    let outcome = drive_16::write(r, n, supported);
    let bytes = [
        drive_code::value_of(outcome.decision),
        (outcome.place % 256) as u8,
        outcome.index,
    ];
    give(outcome.after, outcome.answer, &bytes, buffer)
}

// The read decision.
pub fn give_read(r: Record, n: u8, block: Block, buffer: &mut [u8]) -> Reply
    ensures { Given (read_reply (worded r) n block) buffer.old result buffer.new }
{
    let outcome = drive_16::read(r, n, block);
    let bytes = [
        drive_code::read_value_of(outcome.decision),
        (outcome.place % 256) as u8,
    ];
    give(outcome.after, outcome.answer, &bytes, buffer)
}

// The question which nexuses select a place: the place's word.
pub fn give_served(r: Record, place: u16, buffer: &mut [u8]) -> Reply
    ensures { Given (serves_reply (worded r) place) buffer.old result buffer.new }
{
    match drive_16::serves(r, place) {
        Ok(word) => give(r, Answer::Done, &wire_code::eight(word), buffer),
        Err(refusal) => reply_with(r, refusal.answer, 0),
    }
}

// The status reader.
pub fn give_status(r: Record, page: &[u8], buffer: &mut [u8]) -> Reply
    ensures { Given (status_reply (worded r) page.now) buffer.old result buffer.new }
{
    match status_code::read_status(page) {
        Ok(status) => {
            let head = command_code::values_head(status);
            let rest = record_code::kads_bytes(status.kads);
            wire_code::put(buffer, HEAD_SIZE, &head);
            wire_code::put(buffer, HEAD_SIZE + VALUES_SIZE, &rest);
            reply_with(r, Answer::Done, VALUES_SIZE + KADS_SIZE)
        }
        Err(refusal) => point(r, refusal.answer, buffer),
    }
}

// A device record taken.
pub fn take_record(r: Record, bytes: &[u8]) -> Reply
    ensures { result ≡ reply_of (take_reply (worded r) bytes.now) }
{
    match record_16::load(bytes) {
        Ok(taken) => reply_with(taken, Answer::Done, 0),
        Err(_) => reply_with(r, Answer::NotWellFormed, 0),
    }
}

// The device record given.
pub fn give_record(r: Record, buffer: &mut [u8]) -> Reply
    ensures { Given (give_reply (worded r)) buffer.old result buffer.new }
{
    let bytes = record_16::record_bytes(r);
    give(r, Answer::Done, &bytes, buffer)
}
