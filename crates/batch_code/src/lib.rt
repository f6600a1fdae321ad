// The verdict of a batch.
#![tactic(auto)]

ghost use Rattle.std.specs.Prelude.{◌≡◌};
ghost use Rattle.batch.specs.Batches.{is_too_much, sound_batch, batch_verdict};

use batch::EVENTS_MOST;
use recording::{ENTRY_SIZE, Verdict};
use session::ANSWER_SIZE;

// More than 64 events, or a buffer too short for all answers. A part event left over is no event.
fn is_too_much(events: &[u8], room: usize) -> bool
    ensures { result ≡ is_too_much events.now room }
{
    let count = events.len() / ENTRY_SIZE;
    (EVENTS_MOST < count) | (room < ANSWER_SIZE * count)
}

// No part event left over, no wrong field, and no page past the page bytes.
fn is_sound_batch(events: &[u8], pages: &[u8]) -> bool
    ensures { result ≡ sound_batch events.now pages.now }
{
    (events.len() % ENTRY_SIZE == 0)
        & (recording_code::sound_run(events, pages.len()) == events.len() / ENTRY_SIZE)
}

// The verdict of events and page bytes, with a buffer of so many bytes for the answers. 18 comes first.
pub fn verdict_of(events: &[u8], pages: &[u8], room: usize) -> Verdict
    ensures { result ≡ batch_verdict events.now pages.now room }
{
    if is_too_much(events, room) {
        return Verdict::BatchNotTaken;
    }
    if is_sound_batch(events, pages) {
        return Verdict::Done;
    }
    Verdict::RecordingWrong
}
