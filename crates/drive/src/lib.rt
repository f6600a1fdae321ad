// The calls of document 01, as far as they go by one nexus, one set, one page or one event: the checks, and what is decided.
#![tactic(auto)]

// What a security command says of itself.
#[derive(Clone, Copy)]
pub struct Command {
    pub nexus: u8,
    pub protocol: u8,
    pub code: u16,
}

// What becomes of a block that is written.
#[derive(Clone, Copy)]
pub enum Decision {
    Refused,
    Clear,
    External,
    Encrypted,
}

// Document 02, request 1. Block kinds: plain, encrypted under algorithm 1, encrypted otherwise. Numbers, since a block may report any byte:
// check 14 refuses the others.
pub const PLAIN_KIND: u8 = 0;

pub const ENCRYPTED_KIND: u8 = 1;

pub const OTHER_KIND: u8 = 2;

// No key opened the block. 0 is the main key, 1 to 4 are supplemental keys.
pub const NO_KEY: u8 = 255;

// What the cipher engine reports of a block that is read.
#[derive(Clone, Copy)]
pub struct Block {
    pub kind: u8,
    pub key: u8,
}

// What becomes of it: Withheld where the read is refused.
#[derive(Clone, Copy)]
pub enum ReadDecision {
    Withheld,
    Plain,
    Raw,
    Decrypted,
}
