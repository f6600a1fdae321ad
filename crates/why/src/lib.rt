// Document 02, request 8: why a nexus's next write is stopped.
#![tactic(auto)]

use answer::Answer;
use recording::Verdict;

// What a call did to the set in a place.
#[derive(Clone, Copy)]
pub enum Deed {
    Untouched,
    Established,
    Replaced,
    Evicted,
    Released,
}

// A call that touched a set: its position, the place, and what it did there.
#[derive(Clone, Copy)]
pub struct Touch {
    pub at: Option<usize>,
    pub place: usize,
    pub deed: Deed,
}

impl Touch {
    pub const NONE: Touch = Touch {
        at: None,
        place: 0,
        deed: Deed::Untouched,
    };
}

// A session read for one nexus: the place whose set its latest page left it using, the first later call that touched that set, and the
// latest calls that raised its two flags.
#[derive(Clone, Copy)]
pub struct Watch {
    pub left: usize,
    pub first: Touch,
    pub another: Touch,
    pub vendor: Touch,
}

impl Watch {
    pub const NONE: Watch = Watch {
        left: 0,
        first: Touch::NONE,
        another: Touch::NONE,
        vendor: Touch::NONE,
    };
}

// How a write is answered, also where nothing stops it (so it is no Result), the touch that is the reason (with no position, the set in
// use), and that set's encryption mode.
#[derive(Clone, Copy)]
pub struct Cause {
    pub answer: Answer,
    pub touch: Touch,
    pub mode: u8,
}

// The same of a recording, with the kind and the nexus that it has at the touch's position. Not a Result: `TrueReason` speaks of the verdict
// and of these together.
#[derive(Clone, Copy)]
pub struct Reason {
    pub verdict: Verdict,
    pub cause: Cause,
    pub kind: u8,
    pub nexus: u8,
}
