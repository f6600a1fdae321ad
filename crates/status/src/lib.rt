// What the response pages hold, and what reading a status page gives: see specs/ and proofs/. This crate has no function.
#![tactic(auto)]

use kad::Kads;

// The status page's byte 4.
#[derive(Clone, Copy)]
pub struct StatusByte4 {
    pub nexus_scope: u8,
    pub zeros: u8,
    pub set_scope: u8,
}

// The status page's byte 12.
#[derive(Clone, Copy)]
pub struct StatusByte12 {
    pub zeros: u8,
    pub ceems: u8,
    pub rdmd: bool,
}

// What the status page tells.
#[derive(Clone, Copy)]
pub struct Status {
    pub nexus_scope: u8,
    pub set_scope: u8,
    pub encryption: u8,
    pub decryption: u8,
    pub index: u8,
    pub number: u32,
    pub ceems: u8,
    pub rdmd: bool,
    pub kads: Kads,
}

impl Status {
    pub const NONE: Status = Status {
        nexus_scope: 0,
        set_scope: 0,
        encryption: 0,
        decryption: 0,
        index: 0,
        number: 0,
        ceems: 0,
        rdmd: false,
        kads: Kads::NONE,
    };
}
