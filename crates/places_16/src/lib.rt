// Establishing, releasing, selecting: what a page or an event does to the places.
#![tactic(auto)]

ghost use Rattle.std.specs.Prelude.{◌<◌, ◌≡◌};
ghost use Rattle.arrays.specs.Arrays.{map_from, each};
ghost use Rattle.sizes_16.specs.Sizes.{place_count};
ghost use Rattle.device_16.specs.Model.{state, device};
ghost use Rattle.places_16.specs.Taking.{room_asked, actions_in, taken_in};
ghost use Rattle.places.specs.Actions.{shared_actions, release, establish, freed, act, acts, spared, releases, own_place, release_own, room, establish_in, sender_after, supplemented, released_by, release_step};
ghost use Rattle.places.specs.Words.{local_words};

use device::{Nexus, Set};
use device_16::Device;
use page::Page;
use parameters::{ALL, Fields, LOCAL};
use places::{Event, LocalWords, Room};
use sizes_16::{NEXUSES, PLACES};

// By index: of iter_mut with enumerate the library doesn't promise what is written.
fn free_all(d: Device, place: usize) -> [Nexus; NEXUSES]
    ensures { result ≡ map_from (freed (state d) place) 0 d.nexuses }
{
    let sets = d.sets;
    let mut out = d.nexuses;
    for n in 0..NEXUSES {
        let nexus = out[n];
        out[n] = places_code::free(nexus, device_16::place_of(nexus, n, sets) == place);
    }
    out
}

// One action: a place takes new contents under a newly drawn number, and whoever used what it held becomes PUBLIC.
fn act(d: Device, place: usize, contents: Set) -> Device
    ensures { result ≡ device (act (state d) (record { place = place; contents = contents })) }
{
    let number = places_code::draw(d.counter);
    let mut out = Device {
        counter: number,
        nexuses: free_all(d, place),
        ..d
    };
    if place < PLACES {
        out.sets[place] = Set { number, ..contents };
    }
    out
}

fn release(d: Device, place: usize) -> Device
    ensures { result ≡ device (act (state d) (release place)) }
{
    act(d, place, Set::DEFAULT)
}

fn establish(d: Device, place: usize, owner: u8, scope: u8, fields: Fields) -> Device
    ensures { result ≡ device (act (state d) (establish place owner scope fields)) }
{
    act(d, place, Set::established(owner, scope, 0, fields))
}

// The nexus's own LOCAL place, if any.
pub fn own_place(d: Device, n: u8) -> Option<usize>
    ensures { result ≡ own_place (state d) n }
{
    let nexus = device_16::nexus_at(d, n as usize);
    if nexus.scope != LOCAL {
        return None;
    }
    device_16::owned_place(d.sets, n as usize)
}

fn release_own(d: Device, n: u8) -> Device
    ensures { result ≡ device (acts (state d) (release_own (state d) n)) }
{
    match own_place(d, n) {
        Some(place) => release(d, place),
        None => d,
    }
}

// The words of the places for LOCAL sets, both in one pass down to place 1: place 0 has no bit but its place in the words. The arrays are
// this function's own, since one that is handed an array and indexes it copies it first.
fn local_words(d: Device) -> LocalWords
    ensures { result ≡ local_words (state d) }
{
    let sets = d.sets;
    let nexuses = d.nexuses;
    let mut empty: u32 = 0;
    let mut unlocked: u32 = 0;
    for place in (1..PLACES).rev() {
        let set = sets[place];
        let owner = set.owner as usize;
        let locked = if owner < NEXUSES {
            nexuses[owner].lock
        } else {
            false
        };
        empty = 2 * empty + (set.scope == 0) as u32;
        unlocked = 2 * unlocked + !locked as u32;
    }
    LocalWords {
        empty: 2 * empty,
        unlocked: 2 * unlocked,
    }
}

// The place of a LOCAL page: its present place, else the lowest empty one, else the lowest whose owner has lock 0.
pub fn room_for(d: Device, n: u8) -> Room
    ensures { result ≡ room (state d) n }
{
    match own_place(d, n) {
        Some(place) => Room::Free(place),
        None => places_code::room_by(local_words(d)),
    }
}

// The same for a page that needs a place; for any other, none.
pub fn room_asked(d: Device, n: u8, page: Page) -> Room
    ensures { result ≡ room_asked (state d) n page }
{
    if places_code::needs_place(page) {
        return room_for(d, n);
    }
    Room::NoRoom
}

// A LOCAL set established in its place.
fn establish_in(d: Device, n: u8, fields: Fields, room: Room) -> Device
    ensures { result ≡ device (acts (state d) (establish_in room n fields)) }
{
    match room {
        Room::Free(place) => establish(d, place, n, LOCAL, fields),
        Room::Evicting(place) => establish(release(d, place), place, n, LOCAL, fields),
        Room::NoRoom => d,
    }
}

// What an accepted page that is PUBLIC or ALL does to the places.
fn act_shared(d: Device, n: u8, page: Page) -> Device
    ensures { result ≡ device (acts (state d) (shared_actions (state d) n page)) }
{
    let released = release_own(d, n);
    if page.scope != ALL {
        return released;
    }
    establish(released, 0, n, ALL, page.fields)
}

// The sender after its page, in place.
fn sender_after(d: Device, n: u8, page: Page) -> Device
    ensures { result ≡ device (sender_after (state d) n page) }
{
    let at = n as usize;
    if NEXUSES <= at {
        return d;
    }
    let mut nexuses = d.nexuses;
    let nexus = nexuses[at];
    let scoped = Nexus {
        scope: page.scope,
        ..nexus
    };
    let place = device_16::place_of(scoped, at, d.sets);
    let numbers = device_16::numbers(d.sets);
    nexuses[at] = places_code::nexus_after(nexus, page, numbers[place]);
    Device { nexuses, ..d }
}

fn supplement(d: Device, n: u8, page: Page) -> Device
    ensures { result ≡ device (supplemented (state d) n page) }
{
    let place = device_16::selected(d, n as usize);
    let set = d.sets[place];
    let mut out = d;
    out.sets[place] = Set {
        supplemental: places_code::append(set.supplemental, page.fields.key),
        ..set
    };
    out
}

// What an accepted page that isn't supplemental does to the places, where a LOCAL set's place is known.
fn act_page(d: Device, n: u8, page: Page, room: Room) -> Device
    ensures { result ≡ device (acts (state d) (actions_in (state d) n page room)) }
{
    if page.scope == LOCAL {
        return establish_in(d, n, page.fields, room);
    }
    act_shared(d, n, page)
}

// An accepted page taken, where a LOCAL set's place is known: its actions, then what it leaves the sender or its set with.
pub fn take_page(d: Device, n: u8, page: Page, room: Room) -> Device
    ensures { result ≡ device (taken_in (state d) n page room) }
{
    if page.supplemental {
        return supplement(d, n, page);
    }
    sender_after(act_page(d, n, page, room), n, page)
}

// No place is due.
pub fn none_due(sets: [Set; PLACES], event: Event) -> bool
    ensures { result ≡ each (spared (released_by event)) sets }
{
    let mut none = true;
    for (place, set) in sets.iter().enumerate() {
        none = none & !places_code::is_due(event, place, *set);
    }
    none
}

fn release_step(d: Device, event: Event, place: usize) -> Device
    requires { place < place_count }
    ensures { result ≡ device (release_step (released_by event) place (state d)) }
{
    if places_code::is_due(event, place, d.sets[place]) {
        return release(d, place);
    }
    d
}

// What an event releases, places in rising order.
pub fn release_by(d: Device, event: Event) -> Device
    ensures { result ≡ device (acts (state d) (releases (released_by event) d.sets)) }
{
    let mut out = d;
    // A release changes the sets that a borrow would hold: each step reads its place anew.
    for place in 0..PLACES {
        out = release_step(out, event, place);
    }
    out
}
