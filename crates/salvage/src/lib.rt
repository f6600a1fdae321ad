// Document 02, request 12: a damaged recording salvaged.
#![tactic(auto)]

use recording::{Header, Verdict};

// The most bytes of a file.
pub const FILE_MOST: usize = 65535;

// What is reported: the old and the new numbers of the header, and how many events were dropped. Not a Result: document 01 has it that every
// number of a refused report is zero, and `reported` says so.
#[derive(Clone, Copy)]
pub struct Salvaged {
    pub verdict: Verdict,
    pub old: Header,
    pub new: Header,
    pub dropped: usize,
}

impl Salvaged {
    // Of a file that can't be salvaged.
    pub const REFUSED: Salvaged = Salvaged {
        verdict: Verdict::NotSalvageable,
        old: Header::NONE,
        new: Header::NONE,
        dropped: 0,
    };
}
