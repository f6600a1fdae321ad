// The drive on a pipe: commands on standard input, replies on standard output, as docs/CONSOLE.md tells. Here is what is read and
// written; what a command is answered is stream_16's.
#![tactic(auto)]

ghost use Rattle.std.specs.Prelude.{◌+◌, ◌≤◌};
ghost use Rattle.command.specs.Replies.{reply_head_size};
ghost use Rattle.reply_16.specs.Giving.{reply_most};

use command::Request;
use device_16::Record;
use reply_16::{HEAD_SIZE, REPLY_MOST, Reply};
use std::io;
use std::io::{Read, Write};
use std::process::ExitCode;

const COMMAND_SIZE: usize = 8;

// Room for a command's data, whose length is a number of two bytes.
const DATA_MOST: usize = 65536;

// Writes a reply whose data are in the buffer, by one write where the output takes it whole.
fn send<W: Write>(output: &mut W, buffer: &mut [u8; REPLY_MOST], reply: Reply) -> io::Result<()>
    requires { reply_head_size + reply.length ≤ reply_most }
{
    let length = reply.length;
    let sense = reply.sense;
    let head = command_code::reply_head(reply.number, sense, length as u16);
    wire_code::put(buffer, 0, &head);
    output.write_all(&buffer[..HEAD_SIZE + length])
}

// Answers a command, and gives the record after it. The reply's buffer is filled with A5h, for IN to lend.
fn answer<W: Write>(
    output: &mut W,
    r: Record,
    request: Request,
    data: &[u8],
) -> io::Result<Record> {
    let mut buffer = [0xA5u8; REPLY_MOST];
    let reply = stream_16::obey(r, request, data, &mut buffer);
    let after = reply.after;
    send(output, &mut buffer, reply)?;
    Ok(after)
}

// Fills a buffer from the input, and tells whether it could. A failed read counts as the end of the input.
fn fills<R: Read>(input: &mut R, buffer: &mut [u8]) -> bool {
    let wanted = buffer.len();
    pipe::read_full(input, buffer).is_ok_and(|count| count == wanted)
}

// Reads a command's data and answers it; none where the input ends, and a part of the data is ignored.
fn take_data<R: Read, W: Write>(
    input: &mut R,
    output: &mut W,
    r: Record,
    request: Request,
) -> io::Result<Option<Record>> {
    let mut room = [0u8; DATA_MOST];
    let data = &mut room[..request.length as usize];
    if !fills(input, data) {
        return Ok(None);
    }
    answer(output, r, request, data).map(Some)
}

// Reads a command and answers it; none where the input ends, and a part of a command is ignored.
fn take_command<R: Read, W: Write>(
    input: &mut R,
    output: &mut W,
    r: Record,
) -> io::Result<Option<Record>> {
    let mut bytes = [0u8; COMMAND_SIZE];
    if !fills(input, &mut bytes) {
        return Ok(None);
    }
    let request = command_code::request_of(bytes);
    if command_code::has_data(request.kind) {
        return take_data(input, output, r, request);
    }
    answer(output, r, request, &[]).map(Some)
}

// A proved loop has to end, and nothing says that the input does: so the commands are counted, up to a number that no run reaches.
fn main(rt: HostRuntime) -> ExitCode {
    let mut input = rt.stdin();
    let mut output = rt.stdout();
    let mut r = words_16::power_on();
    for _ in 0..u64::MAX {
        match take_command(&mut input, &mut output, r) {
            Ok(Some(after)) => r = after,
            Ok(None) => return ExitCode::SUCCESS,
            Err(error) => return pipe::status_of(error),
        }
    }
    ExitCode::SUCCESS
}
