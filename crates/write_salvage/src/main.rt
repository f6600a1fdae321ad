// write_salvage: a damaged recording on standard input. On standard output the new file or, with the argument --report, the five lines of
// the report. A refusal is a line on standard error, and nothing is on standard output. Here is what is read and written; what is kept, and
// the report to the character, is salvage_code's.
#![tactic(auto)]

use pipe::{FILE_ROOM, Failure, WORD_ROOM};
use recording::Verdict;
use salvage::FILE_MOST;
use std::io::Write;
use std::process::ExitCode;
use std::rt::Env;

// The argument --report is given.
fn wants_report(rt: &impl Env) -> bool {
    let mut word = [0u8; WORD_ROOM];
    pipe::argument(rt, 1, &mut word) == Some(b"--report")
}

// Salvages a file, and writes what is wanted of it.
fn give<W: Write>(rt: &(impl Env + Eprint), output: &mut W, file: &[u8]) -> Result<(), Failure> {
    let mut new = [0u8; FILE_MOST];
    let salvaged = salvage_code::salvage(file, &mut new);
    match salvaged.verdict {
        Verdict::Done => {}
        _ => return pipe::say(
            rt,
            "21 the recording can't be salvaged, and nothing is written",
        ),
    }
    if wants_report(rt) {
        let report = salvage_code::tell(salvaged);
        return pipe::write_first(output, &report.bytes, report.length);
    }
    pipe::write_first(output, &new, salvaged.new.total)
}

fn main(rt: HostRuntime) -> ExitCode {
    let mut room = [0u8; FILE_ROOM];
    let outcome = pipe::read_file(&mut rt.stdin(), &mut room).and_then(|file| give(
        &rt,
        &mut rt.stdout(),
        file,
    ));
    pipe::end(&rt, outcome)
}
