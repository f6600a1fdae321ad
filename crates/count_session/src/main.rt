// Plays a recording in one of four ways, for counting its instructions (bench/run). Input: the way, then the recording. 0 reads its
// events alone, 1 makes each call by itself, 2 replays it, 3 sends it in batches of 64. Output: the record at the end.
#![tactic(auto)]

use batch::EVENTS_MOST;
use calls::Asked;
use device_16::Record;
use recording::ENTRY_SIZE;
use session::{ANSWER_SIZE, ANSWERS_MOST};
use std::io::Write;

// Room for the way and the recording.
const INPUT_ROOM: usize = 65536;

// The bytes of the events of a full batch.
const BATCH_SIZE: usize = ENTRY_SIZE * EVENTS_MOST;

// One call, with its check 1.
fn call(r: Record, asked: Asked, page: &[u8]) -> Record {
    match asked {
        Asked::PowerOn => drive_16::power_on().after,
        Asked::In(command) => drive_16::security_in(r, command, &mut []).after,
        Asked::Out(command) => drive_16::security_out(r, command, page).after,
        Asked::Write(n, supported) => drive_16::write(r, n, supported).after,
        Asked::Read(n, block) => drive_16::read(r, n, block).after,
        Asked::UnitReset => drive_16::unit_reset(r).after,
        Asked::Happen(event) => drive_16::happen(r, event).after,
    }
}

// Reads the events alone. What is read is used, so that it isn't left out.
fn read_alone(events: &[u8], pages: &[u8]) -> u8 {
    let mut seen: u8 = 0;
    for event in events.chunks_exact(ENTRY_SIZE) {
        let e = recording_code::entry_of(event);
        let page = recording_code::page_of(e, pages);
        let power = calls_code::is_power_on(recording_code::asked_of(e));
        seen = seen ^ wire_code::byte_at(page, 0) ^ (power as u8);
    }
    seen
}

// Makes each call by itself.
fn one_by_one(start: Record, events: &[u8], pages: &[u8]) -> Record {
    let mut r = start;
    for event in events.chunks_exact(ENTRY_SIZE) {
        let e = recording_code::entry_of(event);
        let page = recording_code::page_of(e, pages);
        r = call(r, recording_code::asked_of(e), page);
    }
    r
}

// Sends one batch.
fn send(r: Record, events: &[u8], pages: &[u8]) -> Record {
    let mut answers = [0u8; ANSWER_SIZE * EVENTS_MOST];
    batch_16::batch(r, events, pages, &mut answers).after
}

// Sends the events in batches of 64, the last of what is left, each with all page bytes.
fn in_batches(start: Record, events: &[u8], pages: &[u8]) -> Record {
    let mut r = start;
    for batch in events.chunks(BATCH_SIZE) {
        r = send(r, batch, pages);
    }
    r
}

// What reading alone sees goes to standard error.
fn play<W: Write>(seen_to: &mut W, way: u8, file: &[u8]) -> Record {
    let start = words_16::power_on();
    let events = recording_code::events_of(file);
    let pages = recording_code::pages_of(file);
    match way {
        1 => one_by_one(start, events, pages),
        2 => session_16::replay(file, &mut [0u8; ANSWERS_MOST]).after,
        3 => in_batches(start, events, pages),
        _ => {
            let _ = seen_to.write_all(&[read_alone(events, pages)]);
            start
        }
    }
}

// A read or a write that fails is passed over.
fn main(rt: HostRuntime) {
    let mut input = [0u8; INPUT_ROOM];
    let length = pipe::read_full(&mut rt.stdin(), &mut input).unwrap_or(0);
    let Some((way, file)) = input[..length].split_first() else {
        return;
    };
    let after = play(&mut rt.stderr(), *way, file);
    let _ = rt.stdout().write_all(&record_16::record_bytes(after));
}
