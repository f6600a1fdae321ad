// Establishing, releasing, selecting: what a page or an event does to the places.
#![tactic(auto)]

ghost use Rattle.std.specs.Prelude.{◌≡◌};
ghost use Rattle.arrays.specs.Base.{when◌then◌else◌};
ghost use Rattle.parameters.specs.Codes.{public_scope};
ghost use Rattle.device.specs.Updates.{with_scope};
ghost use Rattle.places.specs.Actions.{drawn, due, free_at, evicting_at, is_no_room, needs_place, nexus_after, appended, released_by};
ghost use Rattle.places.specs.Words.{lowest_bit, room_by};

use device::{Nexus, Set};
use page::Page;
use parameters::{KEY_SIZE, LOCAL, PUBLIC, SUPPLEMENTAL_MOST, Supplemental};
use places::{Event, LocalWords, Room};

// The next number: one counter, 32 bits, that wraps.
pub fn draw(counter: u32) -> u32
    ensures { result ≡ drawn counter }
{
    std::num::wrapping_add_u32(counter, 1)
}

// A nexus whose set the place held becomes PUBLIC.
pub fn free(nexus: Nexus, held: bool) -> Nexus
    ensures { result ≡ when held then with_scope public_scope nexus else nexus }
{
    if held {
        return Nexus {
            scope: PUBLIC,
            ..nexus
        };
    }
    nexus
}

fn free_at(found: Option<usize>, other: Room) -> Room
    ensures { result ≡ free_at found other }
{
    match found {
        Some(place) => Room::Free(place),
        None => other,
    }
}

fn evicting_at(found: Option<usize>) -> Room
    ensures { result ≡ evicting_at found }
{
    match found {
        Some(place) => Room::Evicting(place),
        None => Room::NoRoom,
    }
}

// The place of a word's lowest set bit.
fn lowest_bit(word: u32) -> Option<usize>
    ensures { result ≡ lowest_bit word }
{
    if word == 0 {
        return None;
    }
    Some(u32::trailing_zeros(word) as usize)
}

// The place of a LOCAL set by the words: the lowest empty one, else the lowest whose owner has lock 0, which is first released.
pub fn room_by(words: LocalWords) -> Room
    ensures { result ≡ room_by words }
{
    free_at(
        lowest_bit(words.empty),
        evicting_at(lowest_bit(words.unlocked)),
    )
}

pub fn is_no_room(room: Room) -> bool
    ensures { result ≡ is_no_room room }
{
    matches!(room, Room::NoRoom)
}

// A page that needs a place for its LOCAL set.
pub fn needs_place(page: Page) -> bool
    ensures { result ≡ needs_place page }
{
    !page.supplemental & (page.scope == LOCAL)
}

// A number that is saved where a flag says so, else the one that stays.
fn number_if(saves: bool, number: u32, stays: u32) -> u32
    ensures { result ≡ when saves then number else stays }
{
    if saves { number } else { stays }
}

// The sender after its page: scope, lock, the numbers saved.
pub fn nexus_after(nexus: Nexus, page: Page, number: u32) -> Nexus
    ensures { result ≡ nexus_after page number nexus }
{
    Nexus {
        scope: page.scope,
        lock: page.lock,
        saved: number_if(page.lock, number, nexus.saved),
        last_local: number_if(page.scope == LOCAL, number, nexus.last_local),
        ..nexus
    }
}

// One supplemental key more, where there is room for it.
pub fn append(keys: Supplemental, key: [u8; 32]) -> Supplemental
    ensures { result ≡ appended key keys }
{
    if SUPPLEMENTAL_MOST <= keys.count {
        return keys;
    }
    let at = keys.count as usize * KEY_SIZE;
    let mut bytes = keys.keys;
    wire_code::put(&mut bytes, at, &key);
    Supplemental {
        count: keys.count + 1,
        keys: bytes,
    }
}

// Whether an event releases the set of a place.
fn is_released(event: Event, place: usize, set: Set) -> bool
    ensures { result ≡ released_by event place set }
{
    match event {
        Event::Demount => set.fields.ckod,
        Event::NexusLoss(n) => (set.scope == LOCAL) & (set.owner == n) & set.fields.ckorl,
        Event::DeviceLoss => (place == 0) & set.fields.ckorl,
        Event::Preempt(_) => set.fields.ckorp,
        Event::Microcode => true,
        Event::VendorRelease(named) => place == named as usize,
    }
}

// A place is due where it is used and the event releases its set.
pub fn is_due(event: Event, place: usize, set: Set) -> bool
    ensures { result ≡ due (released_by event) place set }
{
    (set.scope != 0) & is_released(event, place, set)
}
