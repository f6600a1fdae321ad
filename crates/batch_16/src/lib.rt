// Several events in one call, on the drive of this model.
#![tactic(auto)]

ghost use Rattle.device_16.specs.Model.{worded};
ghost use Rattle.batch_16.specs.Batches.{Batched};

use device_16::Record;
use recording::Verdict;
use session_16::Ran;

// Up to 64 events in order, from any record: check 1 is made once. The lent buffer gets four bytes an answer, and bytes beyond stay. A batch
// that asks too much, or isn't sound, is refused before any event runs.
pub fn batch(r: Record, events: &[u8], pages: &[u8], out: &mut [u8]) -> Ran
    ensures { Batched (worded r) events.now pages.now out.old result out.new }
{
    let verdict = batch_code::verdict_of(events, pages, out.len());
    let after = match verdict {
        Verdict::Done => session_16::run(r, events, pages, out),
        _ => r,
    };
    Ran { after, verdict }
}
