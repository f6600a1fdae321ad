// The sizes of this model.
#![tactic(auto)]

pub const NEXUSES: usize = 16;

pub const PLACES: usize = 5;

// A word with the bit of every nexus.
pub const EVERY_NEXUS: u64 = 0xFFFF;
