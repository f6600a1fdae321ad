// print_claim RATE: a recording on standard input. On standard output the claim's text, at a rate in pence. A refusal is a line on standard
// error, and nothing is on standard output. Here is what is read and written; what a claim says, to the character, is claim_16's.
#![tactic(auto)]

use claim_16::TEXT_MOST;
use pipe::{FILE_ROOM, Failure, WORD_ROOM};
use recording::Verdict;
use std::io::{Read, Write};
use std::process::ExitCode;
use std::rt::Env;

// Claims a file at a rate.
fn print<W: Write>(
    rt: &impl Eprint,
    output: &mut W,
    file: &[u8],
    rate: u64,
) -> Result<(), Failure> {
    let mut text = [0u8; TEXT_MOST];
    match claim_16::claim(file, rate, &mut text) {
        Ok(length) => pipe::write_first(output, &text, length),
        Err(Verdict::RecordingWrong) => pipe::say(
            rt,
            "22 the recording is wrong, and none of it is claimed",
        ),
        Err(_) => pipe::say(
            rt,
            "23 the rate is above 1000000 pence, and nothing is claimed",
        ),
    }
}

// Claims what is read. A function of its own: behind the test of the argument the file's room would be cleared twice.
fn claim<R: Read, W: Write>(
    rt: &impl Eprint,
    input: &mut R,
    output: &mut W,
    rate: u64,
) -> Result<(), Failure> {
    let mut room = [0u8; FILE_ROOM];
    print(rt, output, pipe::read_file(input, &mut room)?, rate)
}

fn run<R: Read, W: Write>(
    rt: &(impl Env + Eprint),
    input: &mut R,
    output: &mut W,
) -> Result<(), Failure> {
    let mut word = [0u8; WORD_ROOM];
    let Some(rate) = pipe::argument(rt, 1, &mut word).and_then(text_code::read_decimal) else {
        return pipe::say(rt, "usage: print_claim_16 RATE < RECORDING");
    };
    claim(rt, input, output, rate)
}

fn main(rt: HostRuntime) -> ExitCode {
    let outcome = run(&rt, &mut rt.stdin(), &mut rt.stdout());
    pipe::end(&rt, outcome)
}
