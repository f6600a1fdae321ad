// replay: a recording on standard input. On standard output four bytes an event, or, with the argument --record, the device record at
// the end. A refusal is a line on standard error, and nothing is on standard output. Here is what is read and written; what a recording
// gives is session_16's.
#![tactic(auto)]

use pipe::{FILE_ROOM, Failure, WORD_ROOM};
use recording::Verdict;
use session::{ANSWER_SIZE, ANSWERS_MOST};
use std::io::{Read, Write};
use std::process::ExitCode;
use std::rt::Env;

// The argument --record is given.
fn wants_record(rt: &impl Env) -> bool {
    let mut word = [0u8; WORD_ROOM];
    pipe::argument(rt, 1, &mut word) == Some(b"--record")
}

// Replays a file, and writes what is wanted of it.
fn give<W: Write>(rt: &(impl Env + Eprint), output: &mut W, file: &[u8]) -> Result<(), Failure> {
    let mut answers = [0u8; ANSWERS_MOST];
    let ran = session_16::replay(file, &mut answers);
    match ran.verdict {
        Verdict::Done => {}
        _ => return pipe::say(rt, "22 the recording is wrong, and none of it is replayed"),
    }
    if wants_record(rt) {
        return pipe::write_out(output, &record_16::record_bytes(ran.after));
    }
    let header = recording_code::header_of(file);
    pipe::write_first(output, &answers, ANSWER_SIZE * header.event_count)
}

fn run<R: Read, W: Write>(
    rt: &(impl Env + Eprint),
    input: &mut R,
    output: &mut W,
) -> Result<(), Failure> {
    let mut room = [0u8; FILE_ROOM];
    give(rt, output, pipe::read_file(input, &mut room)?)
}

fn main(rt: HostRuntime) -> ExitCode {
    let outcome = run(&rt, &mut rt.stdin(), &mut rt.stdout());
    pipe::end(&rt, outcome)
}
