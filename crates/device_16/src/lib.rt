// The device record of this model: sets in places, nexuses, the running counter.
#![tactic(auto)]

ghost use Rattle.std.specs.Prelude.{◌≡◌, ◌<◌, get_or};
ghost use Rattle.sizes_16.specs.Sizes.{nexus_count, place_count};
ghost use Rattle.device_16.specs.Model.{state, device, numbers_of};
ghost use Rattle.device.specs.Record.{new_nexus, power_on, nexus_at};
ghost use Rattle.device.specs.Selecting.{owned_place, place_of, selected, selected_set};

use device::{Nexus, Set};
use parameters::LOCAL;
use sizes_16::{NEXUSES, PLACES};

#[derive(Clone, Copy)]
pub struct Device {
    pub counter: u32,
    pub sets: [Set; PLACES],
    pub nexuses: [Nexus; NEXUSES],
}

// The device, and beside each place the word whose bit n says that nexus n selects this place.
#[derive(Clone, Copy)]
pub struct Record {
    pub device: Device,
    pub words: [u64; PLACES],
}

// Power-on gives all zeros.
pub fn power_on() -> Device
    ensures { result ≡ device (power_on nexus_count place_count) }
{
    Device {
        counter: 0,
        sets: [Set::DEFAULT; PLACES],
        nexuses: [Nexus::NEW; NEXUSES],
    }
}

// The lowest place whose LOCAL set the nexus owns.
pub fn owned_place(sets: [Set; PLACES], n: usize) -> Option<usize>
    ensures { result ≡ owned_place sets n }
{
    sets.iter().position(|set| device_code::is_owned(*set, n))
}

// A nexus; past the last one, as power-on gives it.
pub fn nexus_of(nexuses: [Nexus; NEXUSES], n: usize) -> Nexus
    ensures { result ≡ get_or nexuses n new_nexus }
{
    if n < NEXUSES { nexuses[n] } else { Nexus::NEW }
}

pub fn nexus_at(d: Device, n: usize) -> Nexus
    ensures { result ≡ nexus_at (state d) n }
{
    nexus_of(d.nexuses, n)
}

// The place whose set a nexus uses: a LOCAL nexus its own, PUBLIC and ALL nexuses place 0.
pub fn place_of(nexus: Nexus, n: usize, sets: [Set; PLACES]) -> usize
    ensures { (result ≡ place_of nexus n sets) × (result < place_count) }
{
    if nexus.scope != LOCAL {
        return 0;
    }
    owned_place(sets, n).unwrap_or(0)
}

// The same of a nexus of the record.
pub fn selected(d: Device, n: usize) -> usize
    ensures { (result ≡ selected (state d) n) × (result < place_count) }
{
    place_of(nexus_at(d, n), n, d.sets)
}

// The numbers of the sets: few bytes, which may be indexed without a copy of the sets.
pub fn numbers(sets: [Set; PLACES]) -> [u32; PLACES]
    ensures { result ≡ numbers_of sets }
{
    let mut out = [0u32; PLACES];
    // The library states an array's `map` by its calls, one for each element; this loop's invariant states the numbers themselves.
    for place in 0..PLACES {
        let set = sets[place];
        out[place] = set.number;
    }
    out
}

// The set that a nexus uses.
pub fn selected_set(d: Device, n: usize) -> Set
    ensures { result ≡ selected_set (state d) n }
{
    let place = selected(d, n);
    d.sets[place]
}
