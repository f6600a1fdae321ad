// Words of the nexuses that select a place: what is done with one set, one word or one bit.
#![tactic(auto)]

ghost use Rattle.std.specs.Prelude.{◌≡◌};
ghost use Rattle.std.specs.Int.Bits.{bit_or, bit_xor};
ghost use Rattle.arrays.specs.Base.{when◌then◌else◌};
ghost use Rattle.words.specs.Placing.{local_bit};
ghost use Rattle.words.specs.Fitting.{owner_bit, held_with, nexus_fits};

use device::{Nexus, Set};
use parameters::{ALL, LOCAL, PUBLIC};
use words::Held;

// The bit of the nexus that owns a LOCAL set, where there are that many.
pub fn local_bit(set: Set, nexuses: usize) -> u64
    ensures { result ≡ local_bit nexuses set }
{
    if (set.scope == LOCAL) & ((set.owner as usize) < nexuses) {
        return 1u64 << ((set.owner % 64) as usize);
    }
    0
}

// The bit of a place's owner, in check 1, which has seen that the scope of a used place other than 0 is 1; place 0 has none.
fn owner_bit(set: Set, place: usize) -> u64
    ensures { result ≡ owner_bit place set }
{
    if place == 0 {
        return 0;
    }
    (set.scope as u64) << ((set.owner % 64) as usize)
}

// One place more: its word is its owner's bit, which no place before has.
pub fn hold(held: Held, set: Set, place: usize, word: u64) -> Held
    ensures { result ≡ held_with place set word held }
{
    let owner = owner_bit(set, place);
    Held {
        word: held.word | owner,
        fits: held.fits & ((place == 0) | (word == owner)) & (held.word & owner == 0),
    }
}

// A nexus is PUBLIC, LOCAL, or ALL and the owner of place 0.
pub fn nexus_fits(nexus: Nexus, n: usize, first: Set) -> bool
    ensures { result ≡ nexus_fits first n nexus }
{
    (nexus.scope == PUBLIC)
        | ((nexus.scope == LOCAL)
            | ((nexus.scope == ALL) & (first.scope != 0) & (first.owner as usize == n)))
}

// For whom something changes at a place: with another number for those that used it and those that use it, else for those that come or go.
pub fn changed_at(had: u64, has: u64, renumbered: bool) -> u64
    ensures { result ≡ when renumbered then bit_or had has else bit_xor had has }
{
    if renumbered { had | has } else { had ^ has }
}
