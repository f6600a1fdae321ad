// Any call of the drive as data: what a command of the stream or an event of a recording asks for.
#![tactic(auto)]

use answer::{Answer, Change};
use drive::{Block, Command};
use places::Event;

// The kinds: those of document 02, request 3, which are the stream's too. 0 is power-on's. Numbers, since an event's or a command's kind may be
// any byte; what one asks is an Asked.
pub const IN: u8 = 1;

pub const OUT: u8 = 2;

pub const WRITE: u8 = 3;

pub const UNIT_RESET: u8 = 4;

pub const DEMOUNT: u8 = 5;

pub const NEXUS_LOSS: u8 = 6;

pub const DEVICE_LOSS: u8 = 7;

pub const PREEMPT: u8 = 8;

pub const MICROCODE: u8 = 9;

pub const VENDOR_RELEASE: u8 = 10;

pub const READ: u8 = 11;

// A call. The page of an OUT stands beside it.
#[derive(Clone, Copy)]
pub enum Asked {
    PowerOn,
    In(Command),
    Out(Command),
    Write(u8, bool),
    Read(u8, Block),
    UnitReset,
    Happen(Event),
}

// Of IN, a write or a read, by its sender and the set that it uses alone: whether it leaves the record as it is, its answer, and what it
// changes of its sender's marks. The answer and the change are known where it isn't quiet, too.
#[derive(Clone, Copy)]
pub struct Quiet {
    pub quiet: bool,
    pub answer: Answer,
    pub change: Change,
}

impl Quiet {
    // What is known of any call but IN, a write or a read.
    pub const NOT: Quiet = Quiet {
        quiet: false,
        answer: Answer::Done,
        change: Change::Unchanged,
    };

    // One of these, of a record that isn't well formed.
    pub const UNFORMED: Quiet = Quiet {
        quiet: true,
        answer: Answer::NotWellFormed,
        change: Change::Unchanged,
    };
}
