// A recorded session run on the drive of this model.
#![tactic(auto)]

ghost use Rattle.std.specs.Prelude.{◌≡◌};
ghost use Rattle.std.proofs.lemmas.List.Edits.{sets};
ghost use Rattle.wire.specs.Buffers.{shown};
ghost use Rattle.device_16.specs.Model.{worded, record_of};
ghost use Rattle.drive.specs.Records.{after_all};
ghost use Rattle.recording.specs.Entries.{calls};
ghost use Rattle.recording.specs.Files.{file_verdict, calls_of};
ghost use Rattle.session.specs.Answers.{four_of};
ghost use Rattle.session.specs.Records.{answer_bytes_of};
ghost use Rattle.session_16.specs.Sessions.{start, Gives};

use answer::Answer;
use device_16::Record;
use recording::{ENTRY_SIZE, Verdict};
use session::ANSWER_SIZE;
use sizes_16::NEXUSES;

// What a session gives: its verdict, and beside each the record at the end: power-on's of a file that is refused, a refused batch's as it was.
#[derive(Clone, Copy)]
pub struct Ran {
    pub after: Record,
    pub verdict: Verdict,
}

// Answer number and sense.
fn four_of(answer: Answer) -> [u8; ANSWER_SIZE]
    ensures { result ≡ four_of answer }
{
    let row = answer_code::row_of(answer);
    let sense = row.sense;
    [row.number, sense.key, sense.asc, sense.ascq]
}

// An answer's four bytes, from an index of the buffer on.
fn store(out: &mut [u8], at: usize, answer: Answer)
    ensures { out.new ≡ sets out.old at (four_of answer) }
{
    wire_code::put(out, at, &four_of(answer));
}

// The events in order, from any record: check 1 is made once. The lent buffer gets the answers, as many of their bytes as it holds, and
// bytes beyond stay. A call that leaves the record as it is makes no new one.
pub fn run(r: Record, events: &[u8], pages: &[u8], out: &mut [u8]) -> Record
    ensures { (result ≡ record_of (after_all (worded r) (calls events.now pages.now))) × (out.new ≡ shown (answer_bytes_of (worded r) (calls events.now pages.now)) out.old) }
{
    let mut after = r;
    let mut formed = words_16::formed(r);
    for (i, event) in events.chunks_exact(ENTRY_SIZE).enumerate() {
        let e = recording_code::entry_of(event);
        let asked = recording_code::asked_of(e);
        let sight = calls_16::look(after.device, calls_code::sender_number(asked));
        let quiet = calls_code::quietly(formed, NEXUSES, sight.nexus, sight.set, asked);
        if quiet.quiet {
            store(out, ANSWER_SIZE * i, quiet.answer);
        } else {
            let outcome = calls_16::perform(
                after,
                formed,
                asked,
                recording_code::page_of(e, pages),
            );
            store(out, ANSWER_SIZE * i, outcome.answer);
            after = outcome.after;
            formed = formed | calls_code::is_power_on(asked);
        }
    }
    after
}

// A recorded file, from power-on. One that isn't sound is refused whole.
pub fn replay(file: &[u8], out: &mut [u8]) -> Ran
    ensures { Gives (file_verdict file.now) start (calls_of file.now) out.old result out.new }
{
    let start = words_16::power_on();
    if !recording_code::is_sound_file(file) {
        return Ran {
            after: start,
            verdict: Verdict::RecordingWrong,
        };
    }
    let after = run(
        start,
        recording_code::events_of(file),
        recording_code::pages_of(file),
        out,
    );
    Ran {
        after,
        verdict: Verdict::Done,
    }
}
