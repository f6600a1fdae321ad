// Document 02, request 11: what a recorded session claims.
#![tactic(auto)]

// How many writes went down encrypted, external and clear, and how many were refused.
#[derive(Clone, Copy)]
pub struct Row {
    pub encrypted: u64,
    pub external: u64,
    pub clear: u64,
    pub refused: u64,
}

impl Row {
    // A constant, not `Default`: an array of rows is made of it.
    pub const NONE: Row = Row {
        encrypted: 0,
        external: 0,
        clear: 0,
        refused: 0,
    };
}

// The highest rate, in pence.
pub const RATE_MOST: u64 = 1000000;
