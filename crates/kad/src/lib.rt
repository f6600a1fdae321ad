// Key-associated data: read from a list of descriptors, and written as one.
#![tactic(auto)]

// Up to N bytes; those past the length, which stands beside since memory is fixed, are zero.
#[derive(Clone, Copy)]
pub struct Kad<const N: usize> {
    pub length: u8,
    pub bytes: [u8; N],
}

#[derive(Clone, Copy)]
pub struct Kads {
    pub ukad: Kad<32>,
    pub akad: Kad<12>,
}

impl Kads {
    pub const NONE: Kads = Kads {
        ukad: Kad {
            length: 0,
            bytes: [0; 32],
        },
        akad: Kad {
            length: 0,
            bytes: [0; 12],
        },
    };
}

// How many bytes of a list stand before its first fault, all of them where there is none, and the data.
// Not a Result: `read_kads` gives the data before a fault too.
#[derive(Clone, Copy)]
pub struct Listed {
    pub good: usize,
    pub kads: Kads,
}

// The descriptors' bytes, zeros after them, and their count: by value, since memory is fixed.
#[derive(Clone, Copy)]
pub struct Written {
    pub length: usize,
    pub bytes: [u8; 52],
}
