// pipe: what the programs share of reading standard input and arguments, of writing, and of telling on standard error what failed. Nothing
// is allocated.
#![tactic(auto)]

ghost use Rattle.std.specs.Prelude.{◌≡◌, ◌≤◌, ◌<◌, IfErr, IfOk, IfSome, MatchResult, OnOk, length, take};
ghost use Rattle.std.specs.Io.KnownBytes.{Appends, Consumes, IsAtEnd, Keeps};
ghost use Rattle.std.specs.Process.{exit_status};
ghost use Rattle.pipe.specs.Endings.{Ends, EndsWriting, IsInput, IsMessage, IsOutput};

use std::fmt::InlineText;
use std::io::{Error, ErrorKind, Read, Write};
use std::process::ExitCode;
use std::rt::Env;

// Room for a file: one so long is refused, since its total can't be its length.
pub const FILE_ROOM: usize = 65536;

// Room for an argument: a longer one is none.
pub const WORD_ROOM: usize = 4096;

// What a program could not do: read standard input, write standard output, or say on standard error why it refuses.
#[derive(Clone, Copy)]
pub enum Failure {
    Input(Error),
    Output(Error),
    Message(Error),
}

// The status of a process that SIGPIPE ends, as a shell tells it.
const NO_READER: u8 = 141;

// Reads until the buffer is full or the input ends, and tells how many bytes it put at the buffer's start: the library's read_exact tells no
// count where the input ends before.
pub fn read_full<R: Read>(input: &mut R, buffer: &mut [u8]) -> Result<usize, Error>
    ensures within { IfOk result (λ n. n ≤ length buffer.new) }
    ensures bytes { IfOk result (λ n. Consumes (R.remaining input.old) (R.remaining input.new) (take n buffer.new)) }
    ensures end { IfOk result (λ n. n < length buffer.new → IsAtEnd (R.remaining input.new)) }
{
    let mut done = 0;
    while done < buffer.len() {
        let count = input.read(&mut buffer[done..])?;
        if count == 0 {
            break;
        }
        done += count;
    }
    Ok(done)
}

// The bytes of a file, in the buffer that they are read to: as many as the input holds and the buffer takes. One byte more is asked for, so
// that an input which fails behind them is told.
pub fn read_file<'a, R: Read>(input: &mut R, buffer: &'a mut [u8]) -> Result<&'a [u8], Failure>
    ensures within { IfOk result (λ file. length file.now ≤ length buffer.old) }
    ensures bytes { IfOk result (λ file. IfSome (R.remaining input.old) (λ bytes. file.now ≡ take (length buffer.old) bytes)) }
    ensures failure { IfErr result IsInput }
{
    let length = read_full(input, buffer).map_err(Failure::Input)?;
    let mut more = [0u8; 1];
    input.read(&mut more).map_err(Failure::Input)?;
    Ok(&buffer[..length])
}

// An argument that the buffer has room for.
pub fn argument<'a>(rt: &impl Env, position: usize, buffer: &'a mut [u8]) -> Option<&'a [u8]>
    ensures { IfSome result (λ word. length word.now ≤ length buffer.old) }
{
    let length = rt.arg(position, buffer).ok()?;
    Some(&buffer[..length])
}

// Writes bytes to standard output.
pub fn write_out<W: Write>(output: &mut W, bytes: &[u8]) -> Result<(), Failure>
    ensures bytes { OnOk result (Appends (W.contents output.old) (W.contents output.new) bytes.now) }
    ensures failure { IfErr result IsOutput }
{
    output.write_all(bytes).map_err(Failure::Output)
}

// Writes the first bytes of a buffer; nothing, if it hasn't so many.
pub fn write_first<W: Write>(output: &mut W, buffer: &[u8], count: usize) -> Result<(), Failure>
    ensures bytes { OnOk result (count ≤ length buffer.now → Appends (W.contents output.old) (W.contents output.new) (take count buffer.now)) }
    ensures nothing { length buffer.now < count → Keeps (W.contents output.old) (W.contents output.new) }
    ensures failure { IfErr result IsOutput }
{
    match buffer.get(..count) {
        Some(bytes) => write_out(output, bytes),
        None => Ok(()),
    }
}

// Says a line on standard error.
pub fn say(rt: &impl Eprint, line: &str) -> Result<(), Failure>
    ensures { IfErr result IsMessage }
{
    eprintln!(rt; "{line}").map_err(Failure::Message)
}

// How a program ends. What failed is said in a line, as "standard output: No space left on device", and the status is 0; where nobody reads
// any more what it writes it ends without a word, with the status of one that the system's signal ended. A Display could tell the words,
// and not the status.
pub fn end(rt: &impl Eprint, outcome: Result<(), Failure>) -> ExitCode
    ensures { MatchResult outcome (λ _. exit_status result ≡ 0) (λ failure. Ends failure result) }
{
    match outcome {
        Ok(()) => ExitCode::SUCCESS,
        Err(Failure::Input(error)) => {
            tell(rt, "standard input", error);
            ExitCode::SUCCESS
        }
        Err(Failure::Output(error)) => {
            if error.kind() != ErrorKind::BrokenPipe {
                tell(rt, "standard output", error);
            }
            status_of(error)
        }
        Err(Failure::Message(error)) => status_of(error),
    }
}

// The same, without a word.
pub fn status_of(error: Error) -> ExitCode
    ensures { EndsWriting error result }
{
    if error.kind() == ErrorKind::BrokenPipe {
        ExitCode::from(NO_READER)
    } else {
        ExitCode::SUCCESS
    }
}

// The system's words for an error, without its number.
fn tell(rt: &impl Eprint, what: &str, error: Error) {
    let text = InlineText::<128>::of(error);
    let all = text.as_str();
    let words = all
        .split_once(" (os error ")
        .map_or(all, |(before, _)| before);
    let _ = eprintln!(rt; "{what}: {words}");
}

#[cfg(test)]
mod tests {
    use super::*;
    use std::cell::Cell;
    use std::fmt::Display;
    use std::io;

    // Gives at most three bytes a read, and fails once it has given so many.
    #[derive(Drop)]
    struct Pieces {
        reads_left: usize,
    }

    impl Read for Pieces {
        fn read(&mut self, buf: &mut [u8]) -> io::Result<usize> {
            if self.reads_left == 0 {
                return Err(Error::from(ErrorKind::TimedOut));
            }
            self.reads_left -= 1;
            let count = buf.len().min(3);
            for i in 0..count {
                buf[i] = 7;
            }
            Ok(count)
        }
    }

    // Keeps the line that was said last.
    #[derive(Drop)]
    struct Listener {
        line: Cell<InlineText<128>>,
    }

    impl Eprint for Listener {
        fn eprint<D: Display + Drop>(&self, value: D) -> io::Result<()> {
            self.line.set(InlineText::of(value));
            Ok(())
        }

        fn eprintln<D: Display + Drop>(&self, value: D) -> io::Result<()> {
            self.line.set(InlineText::of(value));
            Ok(())
        }
    }

    #[test]
    fn reads_in_pieces(rt: HostRuntime) -> io::Result<()> {
        let mut buffer = [0u8; 8];
        assert_eq!(rt; read_full(&mut Pieces { reads_left: 3 }, &mut buffer)?, 8);
        assert_eq!(rt; buffer, [7; 8]);
        assert!(rt; read_full(&mut Pieces { reads_left: 2 }, &mut buffer).is_err());
        let mut input = b"abcde".as_slice();
        assert_eq!(rt; read_full(&mut input, &mut buffer)?, 5);
        assert_eq!(rt; buffer, [97, 98, 99, 100, 101, 7, 7, 7]);
        Ok(())
    }

    #[test]
    fn reads_a_file(rt: HostRuntime) {
        let mut buffer = [0u8; 4];
        let mut input = b"abc".as_slice();
        assert!(rt; read_file(&mut input, &mut buffer).is_ok_and(|file| file == b"abc".as_slice()));
        let mut long = b"abcdef".as_slice();
        assert!(rt; read_file(&mut long, &mut buffer).is_ok_and(|file| file == b"abcd".as_slice()));
        assert_eq!(rt; long, b"f".as_slice());
        let cut = read_file(&mut Pieces { reads_left: 2 }, &mut buffer);
        assert!(rt; matches!(cut, Err(Failure::Input(_))));
    }

    #[test]
    fn tells_what_failed(rt: HostRuntime) {
        let listener = Listener {
            line: Cell::new(InlineText::new()),
        };
        let full = Error::from_raw_os_error(28);
        let closed = Error::from_raw_os_error(9);
        let no_reader = Error::from_raw_os_error(32);
        assert_eq!(rt;
            end(&listener, Err(Failure::Output(full))),
            ExitCode::SUCCESS
        );
        assert_eq!(rt;
            listener.line.get().as_str(),
            "standard output: No space left on device"
        );
        assert_eq!(rt;
            end(&listener, Err(Failure::Input(closed))),
            ExitCode::SUCCESS
        );
        assert_eq!(rt;
            listener.line.get().as_str(),
            "standard input: Bad file descriptor"
        );
        assert_eq!(rt;
            end(&listener, Err(Failure::Output(no_reader))),
            ExitCode::from(141)
        );
        assert_eq!(rt; end(&listener, Ok(())), ExitCode::SUCCESS);
        assert_eq!(rt;
            listener.line.get().as_str(),
            "standard input: Bad file descriptor"
        );
    }
}
