// Document 02, request 8: a reason told in two lines, as docs/REASONS.md has them.
#![tactic(auto)]

ghost use Rattle.std.specs.Prelude.{◌≡◌, ◌≤◌, ◌++◌};
ghost use Rattle.answer.specs.Answers.{number_of};
ghost use Rattle.text.specs.Making.{lines_most};
ghost use Rattle.text_code.specs.Telling.{and_text, told_lines};
ghost use Rattle.sentence.specs.Telling.{position_of, kind_words, has_nexus, event_words, deed_words, touch_words, block_words, allowed_words, unsupported_words, sentence_by, first_line, second_line, reason_text, write_text};

use answer::Answer;
use text_code::Lines;
use why::{Deed, Reason};

// The name of a kind, by its number.
fn kind_name(kind: u8) -> &'static [u8]
    ensures { result.now ≡ kind_words kind }
{
    match kind {
        0 => b"power-on",
        1 => b"SECURITY PROTOCOL IN",
        2 => b"SECURITY PROTOCOL OUT",
        3 => b"write",
        4 => b"logical unit reset",
        5 => b"demount",
        6 => b"nexus reservation loss",
        7 => b"device reservation loss",
        8 => b"preempt",
        9 => b"microcode",
        10 => b"vendor release",
        11 => b"read",
        _ => b"unknown",
    }
}

fn has_nexus(kind: u8) -> bool
    ensures { result ≡ has_nexus kind }
{
    (kind == 1) | (kind == 2) | (kind == 3) | (kind == 6) | (kind == 8) | (kind == 11)
}

// Puts an event's position, kind and nexus.
fn put_event(lines: &mut Lines, position: usize, kind: u8, nexus: u8)
    ensures { lines.new ≡ and_text lines.old (event_words position kind nexus) }
{
    lines.put_words(b"event ");
    lines.put_number(position as u64);
    lines.put_words(b" (");
    lines.put_words(kind_name(kind));
    if has_nexus(kind) {
        lines.put_words(b", nexus ");
        lines.put_number(nexus as u64);
    }
    lines.put_words(b")");
}

// What it did.
fn deed_name(deed: Deed) -> &'static [u8]
    ensures { result.now ≡ deed_words deed }
{
    match deed {
        Deed::Untouched => b"left the set",
        Deed::Established => b"established a set",
        Deed::Replaced => b"replaced the set",
        Deed::Evicted => b"evicted the set",
        Deed::Released => b"released the set",
    }
}

// Puts the event that is the reason, and what it did.
fn put_touch(lines: &mut Lines, reason: Reason)
    ensures { lines.new ≡ and_text lines.old (touch_words reason) }
{
    let touch = reason.cause.touch;
    put_event(lines, touch.at.unwrap_or(0), reason.kind, reason.nexus);
    lines.put_words(b" ");
    lines.put_words(deed_name(touch.deed));
    lines.put_words(b" in place ");
    lines.put_number(touch.place as u64);
    lines.put_words(b", which this nexus used");
}

// How a block goes down.
fn block_name(mode: u8) -> &'static [u8]
    ensures { result.now ≡ block_words mode }
{
    match mode {
        0 => b"clear",
        1 => b"external",
        _ => b"encrypted",
    }
}

fn put_allowed(lines: &mut Lines, mode: u8, place: usize)
    ensures { lines.new ≡ and_text lines.old (allowed_words mode place) }
{
    lines.put_words(b"nothing stops this write: its block goes down ");
    lines.put_words(block_name(mode));
    lines.put_words(b" under the set in place ");
    lines.put_number(place as u64);
}

fn put_unsupported(lines: &mut Lines, mode: u8, place: usize)
    ensures { lines.new ≡ and_text lines.old (unsupported_words mode place) }
{
    lines.put_words(b"the set in place ");
    lines.put_number(place as u64);
    lines.put_words(b" has encryption mode ");
    lines.put_number(mode as u64);
    lines.put_words(b" (ENCRYPT), and the volume doesn't support it");
}

// Puts how the event stops the write, then the event.
fn put_stopped(lines: &mut Lines, how: &[u8], reason: Reason)
    ensures { lines.new ≡ and_text lines.old (how.now ++ touch_words reason) }
{
    lines.put_words(how);
    put_touch(lines, reason);
}

// Puts what the second line says.
fn put_sentence(lines: &mut Lines, reason: Reason)
    ensures { lines.new ≡ and_text lines.old (sentence_by (number_of reason.cause.answer) reason) }
{
    let cause = reason.cause;
    match cause.answer {
        Answer::Done => put_allowed(lines, cause.mode, cause.touch.place),
        Answer::NotWellFormed => lines.put_words(b"the device record is not well formed"),
        Answer::NexusAbove => lines.put_words(b"the drive has no nexus of that number"),
        Answer::ChangedByAnotherNexus | Answer::ChangedByVendorEvent => {
            put_stopped(lines, b"a unit attention is pending: ", reason)
        }
        Answer::KeyInstanceChanged => put_stopped(lines, b"the nexus is locked: ", reason),
        Answer::ParametersNotUsable => put_unsupported(lines, cause.mode, cause.touch.place),
        _ => lines.put_words(b"the answer is not a write's"),
    }
}

// Puts the first line: the answer's number, and for 11 the kind and position.
fn put_first(lines: &mut Lines, answer: Answer, kind: u8, position: usize)
    ensures { lines.new ≡ and_text lines.old (first_line (number_of answer) kind position) }
{
    lines.put_number(answer_code::row_of(answer).number as u64);
    if let Answer::KeyInstanceChanged = answer {
        lines.put_words(b" ");
        lines.put_number(kind as u64);
        lines.put_words(b" ");
        lines.put_number(position as u64);
    }
    lines.put_words(b"\n");
}

// Puts the second line.
fn put_second(lines: &mut Lines, reason: Reason)
    ensures { lines.new ≡ and_text lines.old (second_line (number_of reason.cause.answer) reason) }
{
    put_sentence(lines, reason);
    lines.put_words(b"\n");
}

// The two lines of a reason.
pub fn tell(reason: Reason) -> Lines
    ensures { (result ≡ told_lines (reason_text reason)) × (result.length ≤ lines_most) }
{
    let cause = reason.cause;
    let mut lines = Lines::NONE;
    put_first(
        &mut lines,
        cause.answer,
        reason.kind,
        cause.touch.at.unwrap_or(0),
    );
    put_second(&mut lines, reason);
    lines
}

// A write of a recording, by its position and what is said of it.
pub fn tell_write(position: usize, reason: Reason) -> Lines
    ensures { (result ≡ told_lines (write_text position reason)) × (result.length ≤ lines_most) }
{
    let mut lines = Lines::NONE;
    lines.put_number(position as u64);
    lines.put_words(b" ");
    put_second(&mut lines, reason);
    lines
}
