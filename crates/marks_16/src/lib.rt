// Marks in the record of this model: a nexus's marks changed, nexuses told, the logical unit reset.
#![tactic(auto)]

ghost use Rattle.std.specs.Prelude.{◌≡◌, map, get_or};
ghost use Rattle.arrays.specs.Arrays.{map_from};
ghost use Rattle.device.specs.Record.{new_nexus};
ghost use Rattle.device.specs.Words.{keeping};
ghost use Rattle.words.specs.Changes.{changed_word};
ghost use Rattle.marks.specs.Marks.{remarked, changes, alerted};
ghost use Rattle.marks.specs.Parts.{told_in, actor_bit, told_by};
ghost use Rattle.marks.specs.Reset.{unmarked, cleared};
ghost use Rattle.sizes_16.specs.Sizes.{nexus_count, place_count};
ghost use Rattle.device_16.specs.Model.{state, device, worded, record_of};

use answer::Change;
use device::{Nexus, Set};
use device_16::{Device, Record};
use sizes_16::{NEXUSES, PLACES};

// The record with a change in a nexus's marks; past the last nexus, as it was.
pub fn change_marks(d: Device, n: u8, change: Change) -> Device
    ensures { result ≡ device (changes (state d) n change) }
{
    let at = n as usize;
    let mut nexuses = d.nexuses;
    if at < NEXUSES {
        nexuses[at] = marks_code::remark(nexuses[at], change);
    }
    Device { nexuses, ..d }
}

// The same of a record with words, which stay. A change that leaves the marks makes no new record.
pub fn change_marks_in(r: Record, n: u8, change: Change) -> Record
    ensures { result ≡ record_of (keeping r.words (changes (state r.device) n change)) }
{
    let nexus = device_16::nexus_at(r.device, n as usize);
    if marks_code::keeps_marks(nexus.marks, change) {
        return r;
    }
    Record {
        device: change_marks(r.device, n, change),
        ..r
    }
}

// The nexuses for whom something changes, from numbers and words before and after.
fn changed_word(
    old: [Set; PLACES],
    new: [Set; PLACES],
    had: [u64; PLACES],
    has: [u64; PLACES],
) -> u64
    ensures { result ≡ changed_word place_count old new had has }
{
    let mut word: u64 = 0;
    // Four arrays in step: an index is plainer than pairs of pairs.
    for place in 0..PLACES {
        let was = old[place];
        let set = new[place];
        let changed = words_code::changed_at(had[place], has[place], was.number != set.number);
        word = word | changed;
    }
    word
}

// The bit of the acting nexus.
fn actor_bit(actor: Option<u8>) -> u64
    ensures { result ≡ actor_bit nexus_count actor }
{
    match actor {
        None => 0,
        Some(m) => {
            if (m as usize) < NEXUSES {
                1u64 << (m as usize)
            } else {
                0
            }
        }
    }
}

// A flag for each nexus that has its bit in the word, was registered before and isn't the acting one. It ends with the last bit.
fn alert_by(
    old: [Nexus; NEXUSES],
    new: [Nexus; NEXUSES],
    actor: Option<u8>,
    word: u64,
) -> [Nexus; NEXUSES]
    ensures { result ≡ map_from (λ n. remarked (alerted actor (told_in (get_or old n new_nexus) n actor word))) 0 new }
{
    let mut out = new;
    let mut rest = word;
    // Two arrays in step, one of them written: an index is plainer.
    for n in 0..NEXUSES {
        if rest == 0 {
            return out;
        }
        if (rest % 2 == 1) & marks_code::is_asked(old[n], actor, n) {
            out[n] = marks_code::alert(out[n], actor, true);
        }
        rest = rest / 2;
    }
    out
}

// After a page or event the record gets its words anew, and each nexus that is concerned a flag, from the words.
pub fn tell(before: Record, after: Device, actor: Option<u8>) -> Record
    ensures { result ≡ record_of (told_by actor (worded before) (state after)) }
{
    let words = words_16::words_of(after);
    let word = changed_word(before.device.sets, after.sets, before.words, words);
    if (word == 0) | (word == actor_bit(actor)) {
        return Record {
            device: after,
            words,
        };
    }
    let nexuses = alert_by(before.device.nexuses, after.nexuses, actor, word);
    Record {
        device: Device { nexuses, ..after },
        words,
    }
}

// The nexuses after a reset, by value, for callers that hold the record.
fn cleared(nexuses: [Nexus; NEXUSES]) -> [Nexus; NEXUSES]
    ensures { result ≡ map unmarked nexuses }
{
    let mut out = nexuses;
    marks_code::clear_marks(&mut out);
    out
}

// Logical unit reset clears registered marks and pending flags only.
pub fn clear(r: Record) -> Record
    ensures { result ≡ record_of (keeping r.words (cleared (state r.device))) }
{
    Record {
        device: Device {
            nexuses: cleared(r.device.nexuses),
            ..r.device
        },
        ..r
    }
}
