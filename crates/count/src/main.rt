// Makes one kind of call many times over, for counting its instructions (bench/run). Input: the kind, the turns divided by ten, and
// the nexus that calls.
#![tactic(auto)]

use device_16::Record;
use drive::{Block, Command};
use places::Event;
use sizes_16::PLACES;
use std::io::{Read, Write};

fn page_k() -> [u8; 52] {
    let mut p = [0u8; 52];
    p[1] = 0x10;
    p[3] = 0x30;
    p[4] = 0x21;
    p[5] = 0x44;
    p[6] = 2;
    p[7] = 2;
    p[8] = 1;
    p[19] = 0x20;
    p[20] = 7;
    p
}

fn command(nexus: u8, code: u16) -> Command {
    Command {
        nexus,
        protocol: 0x20,
        code,
    }
}

// The record after so many turns of a step.
fn repeat<F: Fn(Record) -> Record>(start: Record, turns: u32, step: F) -> Record
    requires { F.IsAlwaysCallable step }
{
    let mut d = start;
    for _ in 0..turns {
        d = step(d);
    }
    d
}

// A loop of its own: as a step of repeat this call takes one more copy of the record. So do those of locals and events.
fn outs(start: Record, n: u8, turns: u32) -> Record {
    let mut d = start;
    let page = page_k();
    for _ in 0..turns {
        d = drive_16::security_out(d, command(n, 0x10), &page).after;
    }
    d
}

// Page K with or without the lock.
fn local_page(lock: bool) -> [u8; 52] {
    let mut p = page_k();
    p[4] = if lock { 0x21 } else { 0x20 };
    p
}

// Places taken by the nexuses from the first to before the end, with or without the lock.
fn taken(start: Record, first: u8, end: u8, lock: bool) -> Record {
    let mut d = start;
    let page = local_page(lock);
    for n in first..end {
        d = drive_16::security_out(d, command(n, 0x10), &page).after;
    }
    d
}

// LOCAL pages of nexus 15, which has no place, each from the same record but for the counter.
fn locals(start: Record, turns: u32) -> Record {
    let page = local_page(false);
    let mut d = start;
    for _ in 0..turns {
        let next = drive_16::security_out(d, command(15, 0x10), &page).after;
        d = start;
        d.device.counter = next.device.counter;
    }
    d
}

// The places taken before those pages, place 1 by nexus 3, place 2 by nexus 4 ..: all, without the lock; all, the last alone without
// it; all but the last, with it; all, with it.
fn places_taken(d: Record, kind: u8) -> Record {
    let last = PLACES as u8 + 1;
    match kind {
        6 => taken(d, 3, last + 1, false),
        7 => taken(taken(d, 3, last, true), last, last + 1, false),
        8 => taken(d, 3, last, true),
        _ => taken(d, 3, last + 1, true),
    }
}

fn events(start: Record, turns: u32, event: Event) -> Record {
    let mut d = start;
    for _ in 0..turns {
        d = drive_16::happen(d, event).after;
    }
    d
}

fn run(d: Record, kind: u8, n: u8, turns: u32) -> Record {
    match kind {
        0 => repeat(d, turns, |r| drive_16::write(r, n, true).after),
        1 => repeat(
            d,
            turns,
            |r| drive_16::security_in(r, command(n, 0x20), &mut [0u8; 64]).after,
        ),
        2 => outs(d, n, turns),
        3 => events(d, turns, Event::Demount),
        4 => events(d, turns, Event::Microcode),
        5 => repeat(
            d,
            turns,
            |r| drive_16::read(r, n, Block { kind: 1, key: 0 }).after,
        ),
        _ => locals(places_taken(d, kind), turns),
    }
}

fn turns_of(b: u8) -> u32 {
    b as u32 * 10
}

// A read or a write that fails is passed over.
fn main(rt: HostRuntime) {
    let mut input = [0u8; 3];
    let _ = rt.stdin().read(&mut input);
    let on = drive_16::power_on().after;
    let start = drive_16::security_out(on, command(3, 0x10), &page_k()).after;
    let d = run(start, input[0], input[2], turns_of(input[1]));
    let _ = rt.stdout().write_all(&[(d.device.counter % 256) as u8]);
}
