// What a set is made of: the fields that a page gives it, and supplemental keys.
#![tactic(auto)]

use kad::Kads;

// Codes, not enums: a device record's bytes may hold any number here, and `field_codes` and `set_codes` say which records are formed.
pub const PUBLIC: u8 = 0;

pub const LOCAL: u8 = 1;

pub const ALL: u8 = 2;

// Encryption modes, of which DISABLE is a decryption mode too.
pub const DISABLE: u8 = 0;

pub const EXTERNAL: u8 = 1;

pub const ENCRYPT: u8 = 2;

// Decryption modes.
pub const RAW: u8 = 1;

pub const DECRYPT: u8 = 2;

pub const MIXED: u8 = 3;

// The one algorithm.
pub const ALGORITHM: u8 = 1;

pub const KEY_SIZE: usize = 32;

pub const SUPPLEMENTAL_MOST: u8 = 4;

pub const SUPPLEMENTAL_SIZE: usize = 128;

// What a page says of a set.
#[derive(Clone, Copy)]
pub struct Fields {
    pub encryption: u8,
    pub decryption: u8,
    pub index: u8,
    pub ceem: u8,
    pub rdmd: bool,
    pub ckod: bool,
    pub ckorp: bool,
    pub ckorl: bool,
    pub key: [u8; KEY_SIZE],
    pub kads: Kads,
}

impl Fields {
    pub const NONE: Fields = Fields {
        encryption: 0,
        decryption: 0,
        index: 0,
        ceem: 0,
        rdmd: false,
        ckod: false,
        ckorp: false,
        ckorl: false,
        key: [0; KEY_SIZE],
        kads: Kads::NONE,
    };
}

// Up to four supplemental keys of 32 bytes, one after another; bytes past the count, which stands beside since memory is fixed, are zero.
#[derive(Clone, Copy)]
pub struct Supplemental {
    pub count: u8,
    pub keys: [u8; SUPPLEMENTAL_SIZE],
}

impl Supplemental {
    pub const NONE: Supplemental = Supplemental {
        count: 0,
        keys: [0; SUPPLEMENTAL_SIZE],
    };
}
