// The Set Data Encryption page: its bytes 4 and 5, what it gives, and what its check answers.
#![tactic(auto)]

use parameters::Fields;

// The Set page's byte 4.
#[derive(Clone, Copy)]
pub struct SetByte4 {
    pub scope: u8,
    pub reserved: u8,
    pub lock: bool,
}

// The Set page's byte 5.
#[derive(Clone, Copy)]
pub struct SetByte5 {
    pub ceem: u8,
    pub rdmc: u8,
    pub sdk: bool,
    pub ckod: bool,
    pub ckorp: bool,
    pub ckorl: bool,
}

// An accepted page. One that is PUBLIC has no fields, a supplemental one its key alone.
#[derive(Clone, Copy)]
pub struct Page {
    pub scope: u8,
    pub lock: bool,
    pub supplemental: bool,
    pub fields: Fields,
}

impl Page {
    pub const NONE: Page = Page {
        scope: 0,
        lock: false,
        supplemental: false,
        fields: Fields::NONE,
    };
}
