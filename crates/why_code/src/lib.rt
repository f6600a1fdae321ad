// What a call did to the set in a place, and which touch answers a write.
#![tactic(auto)]

ghost use Rattle.std.specs.Prelude.{◌≡◌};
ghost use Rattle.why.specs.Touches.{deed_of, standing};
ghost use Rattle.why.specs.Causes.{touch_for, mode_for};
ghost use Rattle.why.specs.Reasons.{event_at};
ghost use Rattle.why.specs.Watching.{first_noted};

use device::Set;
use parameters::LOCAL;
use recording::{ENTRY_SIZE, Entry};
use why::{Deed, Touch, Watch};

// Of a place that a call acted on.
pub fn deed_of(old: Set, new: Set) -> Deed
    ensures { result ≡ deed_of old new }
{
    if new.scope == 0 {
        return Deed::Released;
    }
    if old.scope == 0 {
        return Deed::Established;
    }
    if (new.scope == LOCAL) & (old.owner != new.owner) {
        return Deed::Evicted;
    }
    Deed::Replaced
}

// The first touch stays; any other is the first if there was none.
pub fn note_first(first: Touch, hit: bool, touch: Touch) -> Touch
    ensures { result ≡ first_noted first hit touch }
{
    if hit & first.at.is_none() {
        touch
    } else {
        first
    }
}

// The touch that is why a write is answered so, or the set in use; by the number, of which every byte is taken (`touch_for`).
pub fn touch_for(number: u8, watch: Watch, place: usize) -> Touch
    ensures { result ≡ touch_for number watch.first watch.another watch.vendor (standing place) }
{
    match number {
        11 => watch.first,
        3 => watch.another,
        4 => watch.vendor,
        0 | 12 => Touch {
            at: None,
            place,
            deed: Deed::Untouched,
        },
        _ => Touch::NONE,
    }
}

// The mode of the set in use, where the answer of that number is by it; every byte is taken (`mode_for`).
pub fn mode_for(number: u8, mode: u8) -> u8
    ensures { result ≡ mode_for number mode }
{
    match number {
        0 | 12 => mode,
        _ => 0,
    }
}

// The event at a position, as it is recorded.
pub fn event_at(events: &[u8], at: Option<usize>) -> Entry
    ensures { result ≡ event_at events.now at }
{
    match at {
        Some(i) => event_from(events, i),
        None => recording_code::entry_of(b""),
    }
}

// What is past the end reads as 0.
fn event_from(events: &[u8], i: usize) -> Entry
    ensures { result ≡ event_at events.now (Some i) }
{
    if events.len() / ENTRY_SIZE < i {
        return recording_code::entry_of(b"");
    }
    recording_code::entry_of(wire_code::part(events, ENTRY_SIZE * i, ENTRY_SIZE))
}
