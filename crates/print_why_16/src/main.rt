// print_why EVENTS NEXUS SUPPORT: a recording on standard input. On standard output the two lines of the reason (docs/REASONS.md) for a
// write after that many events. With --writes a line for each refused write of the recording, its position and what is said of it; with
// --every the reasons after 0 events, 1, and so on, of each nexus and one above, for both volumes. A refusal is a line on standard error,
// and nothing is on standard output. Here is what is read and written; what a reason is is why_16's, and its text sentence_code's.
#![tactic(auto)]

use pipe::{FILE_ROOM, Failure, WORD_ROOM};
use recording::Verdict;
use sizes_16::NEXUSES;
use std::io::{Read, Write};
use std::process::ExitCode;
use std::rt::Env;
use text_code::Lines;

fn usage(rt: &impl Eprint) -> Result<(), Failure> {
    pipe::say(
        rt,
        "usage: print_why_16 EVENTS NEXUS SUPPORT | --writes | --every < RECORDING",
    )
}

fn number_at(rt: &impl Env, position: usize) -> Option<u64> {
    let mut word = [0u8; WORD_ROOM];
    text_code::read_decimal(pipe::argument(rt, position, &mut word)?)
}

fn refuse(rt: &impl Eprint, verdict: Verdict) -> Result<(), Failure> {
    match verdict {
        Verdict::RecordingWrong => pipe::say(
            rt,
            "22 the recording is wrong, and no reason is given",
        ),
        _ => pipe::say(
            rt,
            "19 the recording has fewer events, and no reason is given",
        ),
    }
}

fn write_lines<W: Write>(output: &mut W, lines: Lines) -> Result<(), Failure> {
    pipe::write_first(output, &lines.bytes, lines.length)
}

// One reason, or the refusal.
fn print<W: Write>(
    rt: &impl Eprint,
    output: &mut W,
    file: &[u8],
    events: usize,
    nexus: u8,
    supported: bool,
) -> Result<(), Failure> {
    let reason = why_16::why(file, events, nexus, supported);
    match reason.verdict {
        Verdict::Done => write_lines(output, sentence_code::tell(reason)),
        verdict => refuse(rt, verdict),
    }
}

// A write of the recording, if the event at the position is one that is refused.
fn print_write<W: Write>(output: &mut W, file: &[u8], position: usize) -> Result<(), Failure> {
    let e = why_code::event_at(recording_code::events_of(file), Some(position));
    if e.kind != calls::WRITE {
        return Ok(());
    }
    let reason = why_16::why(file, position, e.nexus, e.argument == 1);
    if answer_code::is_done(reason.cause.answer) {
        return Ok(());
    }
    write_lines(output, sentence_code::tell_write(position, reason))
}

// The refused writes of a recording.
fn print_writes<W: Write>(rt: &impl Eprint, output: &mut W, file: &[u8]) -> Result<(), Failure> {
    if !recording_code::is_sound_file(file) {
        return refuse(rt, Verdict::RecordingWrong);
    }
    let header = recording_code::header_of(file);
    for position in 0..header.event_count {
        print_write(output, file, position)?;
    }
    Ok(())
}

// The reasons of every nexus after so many events.
fn print_nexuses<W: Write>(
    rt: &impl Eprint,
    output: &mut W,
    file: &[u8],
    events: usize,
) -> Result<(), Failure> {
    for nexus in 0..=NEXUSES as u8 {
        print(rt, output, file, events, nexus, false)?;
        print(rt, output, file, events, nexus, true)?;
    }
    Ok(())
}

// Those after 0 events, 1, and so on; a recording that is taken has them all.
fn print_every<W: Write>(rt: &impl Eprint, output: &mut W, file: &[u8]) -> Result<(), Failure> {
    if !recording_code::is_sound_file(file) {
        return refuse(rt, Verdict::RecordingWrong);
    }
    let header = recording_code::header_of(file);
    for events in 0..=header.event_count {
        print_nexuses(rt, output, file, events)?;
    }
    Ok(())
}

// By the numbers. A nexus above 255 is no more known than that one.
fn print_by<W: Write>(
    rt: &(impl Env + Eprint),
    output: &mut W,
    file: &[u8],
) -> Result<(), Failure> {
    let (Some(events), Some(nexus), Some(support @ 0..=1)) = (
        number_at(rt, 1),
        number_at(rt, 2),
        number_at(rt, 3),
    ) else {
        return usage(rt);
    };
    let nexus = u8::try_from(nexus).unwrap_or(u8::MAX);
    print(rt, output, file, events as usize, nexus, support == 1)
}

fn run<R: Read, W: Write>(
    rt: &(impl Env + Eprint),
    input: &mut R,
    output: &mut W,
) -> Result<(), Failure> {
    let mut room = [0u8; FILE_ROOM];
    let file = pipe::read_file(input, &mut room)?;
    let mut word = [0u8; WORD_ROOM];
    match pipe::argument(rt, 1, &mut word) {
        Some(b"--every") => print_every(rt, output, file),
        Some(b"--writes") => print_writes(rt, output, file),
        _ => print_by(rt, output, file),
    }
}

fn main(rt: HostRuntime) -> ExitCode {
    let outcome = run(&rt, &mut rt.stdin(), &mut rt.stdout());
    pipe::end(&rt, outcome)
}
