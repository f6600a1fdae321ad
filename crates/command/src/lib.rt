// A command of docs/CONSOLE.md: what its 8 bytes tell, and what it orders.
#![tactic(auto)]

use calls::Asked;

// The kinds that are no calls of the drive's; those of calls are in crate calls.
pub const BATCH: u8 = 12;

pub const SERVES: u8 = 13;

pub const READ_STATUS: u8 = 253;

pub const TAKE_RECORD: u8 = 254;

pub const GIVE_RECORD: u8 = 255;

// The largest buffer that IN or a batch lends.
pub const LENT_MOST: u16 = 4096;

// The number of the reply to an unknown command.
pub const UNKNOWN: u8 = 255;

// The 8 bytes of a command.
#[derive(Clone, Copy)]
pub struct Request {
    pub kind: u8,
    pub nexus: u8,
    pub argument: u16,
    pub protocol: u8,
    pub length: u16,
}

// What a command orders. Ask holds a call of the drive's and the size of the buffer that is lent to IN, Batch that of its own, Serves the place.
#[derive(Clone, Copy)]
pub enum Order {
    Unknown,
    Ask(Asked, u16),
    Batch(u16),
    Serves(u16),
    ReadStatus,
    TakeRecord,
    GiveRecord,
}
