// The words of this model's record, and check 1.
#![tactic(auto)]

ghost use Rattle.std.specs.Prelude.{◌≡◌, ◌-◌, ◌^◌};
ghost use Rattle.arrays.specs.Arrays.{word_of};
ghost use Rattle.device.specs.Record.{power_on};
ghost use Rattle.device.specs.Words.{words, with_words, formed};
ghost use Rattle.words.specs.Placing.{is_local};
ghost use Rattle.words.specs.Fitting.{held_by, scopes_fit, selections_fit};
ghost use Rattle.sizes_16.specs.Sizes.{nexus_count, place_count};
ghost use Rattle.device_16.specs.Model.{state, worded, record_of};

use device::{Nexus, Set};
use device_16::{Device, Record};
use parameters::{LOCAL, PUBLIC};
use sizes_16::{EVERY_NEXUS, NEXUSES, PLACES};
use words::Held;

// The LOCAL nexuses.
fn locals_of(nexuses: [Nexus; NEXUSES]) -> u64
    ensures { result ≡ word_of is_local nexuses }
{
    let mut locals: u64 = 0;
    for (n, nexus) in nexuses.iter().enumerate() {
        if nexus.scope == LOCAL {
            locals = locals | (1u64 << n);
        }
    }
    locals
}

// The words as the scopes say: each place has its set's owner, if that is LOCAL and has no place before; place 0 has all others.
pub fn words_of(d: Device) -> [u64; PLACES]
    ensures { result ≡ words (state d) }
{
    let sets = d.sets;
    let nexuses = d.nexuses;
    let locals = locals_of(nexuses);
    let mut words = [0u64; PLACES];
    let mut rest = locals;
    // Two arrays in step, one of them written: an index is plainer.
    for place in 0..PLACES {
        let set = sets[place];
        let own = rest & words_code::local_bit(set, NEXUSES);
        words[place] = own;
        rest = rest ^ own;
    }
    words[0] = words[0] | (EVERY_NEXUS ^ locals ^ rest);
    words
}

// The record of a device.
pub fn with_words(d: Device) -> Record
    ensures { result ≡ record_of (with_words (state d)) }
{
    Record {
        device: d,
        words: words_of(d),
    }
}

// At power-on every nexus selects place 0.
pub fn power_on() -> Record
    ensures { result ≡ record_of (with_words (power_on nexus_count place_count)) }
{
    with_words(device_16::power_on())
}

// What the places hold: each has its owner's bit for its word, and an owner of its own.
fn held_by(sets: [Set; PLACES], words: [u64; PLACES]) -> Held
    ensures { result ≡ held_by sets words place_count }
{
    let mut held = Held::NOTHING;
    for (place, set) in sets.iter().enumerate() {
        held = words_code::hold(held, *set, place, words[place]);
    }
    held
}

// The nexuses fit, and those that are LOCAL are the owners.
fn scopes_fit(nexuses: [Nexus; NEXUSES], owners: u64, first: Set) -> bool
    ensures { result ≡ scopes_fit first owners nexuses }
{
    let mut locals: u64 = 0;
    for (n, nexus) in nexuses.iter().enumerate() {
        if nexus.scope != PUBLIC {
            if !words_code::nexus_fits(*nexus, n, first) {
                return false;
            }
            if nexus.scope == LOCAL {
                locals = locals | (1u64 << n);
            }
        }
    }
    locals == owners
}

// The words and the scopes fit the places: who owns no place has its bit in word 0.
fn selections_fit(sets: [Set; PLACES], nexuses: [Nexus; NEXUSES], words: [u64; PLACES]) -> bool
    ensures { result ≡ selections_fit (2 ^ nexus_count - 1) sets nexuses words }
{
    let held = held_by(sets, words);
    let owners = held.word;
    if !(held.fits & (words[0] == EVERY_NEXUS ^ owners)) {
        return false;
    }
    scopes_fit(nexuses, owners, sets[0])
}

// Check 1: the record is well formed. The loops stand here, over an array of this function's own: a function that is handed an array and
// indexes it copies it first.
pub fn formed(r: Record) -> bool
    ensures { result ≡ formed (worded r) }
{
    let sets = r.device.sets;
    for set in &sets {
        if !device_code::empty_is_zero(*set) {
            return false;
        }
    }
    for (place, set) in sets.iter().enumerate() {
        if !device_code::used_fits(*set, place, NEXUSES) {
            return false;
        }
    }
    selections_fit(sets, r.device.nexuses, r.words)
}
