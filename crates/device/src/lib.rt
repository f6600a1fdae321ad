// The device record: sets in places, nexuses, the running counter.
#![tactic(auto)]

ghost use Rattle.std.specs.Prelude.{◌≡◌};
ghost use Rattle.device.specs.Record.{established};

use parameters::{Fields, Supplemental};

// The set of parameters in a place. Scope 0 is an empty place; its instance number stays.
#[derive(Clone, Copy)]
pub struct Set {
    pub owner: u8,
    pub scope: u8,
    pub number: u32,
    pub fields: Fields,
    pub supplemental: Supplemental,
}

impl Set {
    // The default set: what an empty place 0 is.
    pub const DEFAULT: Set = Set {
        owner: 0,
        scope: 0,
        number: 0,
        fields: Fields::NONE,
        supplemental: Supplemental::NONE,
    };

    // A set made from a page's fields, with no supplemental key.
    pub fn established(owner: u8, scope: u8, number: u32, fields: Fields) -> Set
        ensures { result ≡ established owner scope number fields }
    {
        Set {
            owner,
            scope,
            number,
            fields,
            supplemental: Supplemental::NONE,
        }
    }
}

// The registered mark, and the two pending unit attention flags: changed by another nexus, by a vendor event.
#[derive(Clone, Copy)]
pub struct Marks {
    pub registered: bool,
    pub another: bool,
    pub vendor: bool,
}

// saved is the instance number saved at lock, last_local that of the nexus's last LOCAL set.
#[derive(Clone, Copy)]
pub struct Nexus {
    pub scope: u8,
    pub lock: bool,
    pub saved: u32,
    pub last_local: u32,
    pub marks: Marks,
}

impl Nexus {
    pub const NEW: Nexus = Nexus {
        scope: 0,
        lock: false,
        saved: 0,
        last_local: 0,
        marks: Marks {
            registered: false,
            another: false,
            vendor: false,
        },
    };
}
