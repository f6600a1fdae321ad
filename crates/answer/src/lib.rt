// Every answer of document 01, "Answer numbers", and of document 02: its number, its sense bytes, what a refusal changes in the record and, of 8, the
// faulty byte.
#![tactic(auto)]

// Done is one of them, as document 01's table has row 0: a check that may find no fault gives a Result<(), Answer>.
#[derive(Clone, Copy)]
pub enum Answer {
    Done,
    NotWellFormed,
    NexusAbove,
    ChangedByAnotherNexus,
    ChangedByVendorEvent,
    ProtocolNotSupported,
    PageNotSupported,
    PageLengthWrong,
    // Document 02, request 6: with the number of the faulty byte.
    FieldWrong(u16),
    FifthSupplementalKey,
    NoPlaceForLocal,
    KeyInstanceChanged,
    ParametersNotUsable,
    PlaceAbove,
    BlockNotKnown,
    UnableToDecrypt,
    NotEncrypted,
    KeyIncorrect,
}

// Sense key, additional sense code and its qualifier; zeros where an answer has none: NONE, a constant, since rows of the table are.
#[derive(Clone, Copy)]
pub struct Sense {
    pub key: u8,
    pub asc: u8,
    pub ascq: u8,
}

impl Sense {
    pub const NONE: Sense = Sense {
        key: 0,
        asc: 0,
        ascq: 0,
    };
}

// What a call that is refused carries beside its record: the answer, and its sense bytes.
#[derive(Clone, Copy)]
pub struct Refusal {
    pub answer: Answer,
    pub sense: Sense,
}

// The column "Record change": what a refusal changes, in the marks of the nexus that sent the call.
#[derive(Clone, Copy)]
pub enum Change {
    Unchanged,
    AnotherCleared,
    VendorCleared,
    Registered,
}

// A row of the table.
#[derive(Clone, Copy)]
pub struct Row {
    pub number: u8,
    pub sense: Sense,
    pub change: Change,
    pub faulty_byte: u16,
}

// Document 01's table, and the rows that document 02 adds: number; sense key, ASC and ASCQ (zeros where there is none); record change; the faulty byte, which answer 8
// alone has, and which its row takes from the answer.
impl Row {
    pub const DONE: Row = Row {
        number: 0,
        sense: Sense::NONE,
        change: Change::Unchanged,
        faulty_byte: 0,
    };

    pub const NOT_WELL_FORMED: Row = Row {
        number: 1,
        sense: Sense::NONE,
        change: Change::Unchanged,
        faulty_byte: 0,
    };

    pub const NEXUS_ABOVE: Row = Row {
        number: 2,
        sense: Sense::NONE,
        change: Change::Unchanged,
        faulty_byte: 0,
    };

    pub const CHANGED_BY_ANOTHER_NEXUS: Row = Row {
        number: 3,
        sense: Sense {
            key: 6,
            asc: 0x2A,
            ascq: 0x11,
        },
        change: Change::AnotherCleared,
        faulty_byte: 0,
    };

    pub const CHANGED_BY_VENDOR_EVENT: Row = Row {
        number: 4,
        sense: Sense {
            key: 6,
            asc: 0x2A,
            ascq: 0x12,
        },
        change: Change::VendorCleared,
        faulty_byte: 0,
    };

    pub const PROTOCOL_NOT_SUPPORTED: Row = Row {
        number: 5,
        sense: Sense {
            key: 5,
            asc: 0x24,
            ascq: 0,
        },
        change: Change::Unchanged,
        faulty_byte: 0,
    };

    pub const PAGE_NOT_SUPPORTED: Row = Row {
        number: 6,
        sense: Sense {
            key: 5,
            asc: 0x24,
            ascq: 0,
        },
        change: Change::Registered,
        faulty_byte: 0,
    };

    pub const PAGE_LENGTH_WRONG: Row = Row {
        number: 7,
        sense: Sense {
            key: 5,
            asc: 0x1A,
            ascq: 0,
        },
        change: Change::Registered,
        faulty_byte: 0,
    };

    pub const FIELD_WRONG: Row = Row {
        number: 8,
        sense: Sense {
            key: 5,
            asc: 0x26,
            ascq: 0,
        },
        change: Change::Registered,
        faulty_byte: 0,
    };

    pub const FIFTH_SUPPLEMENTAL_KEY: Row = Row {
        number: 9,
        sense: Sense {
            key: 5,
            asc: 0x55,
            ascq: 0x08,
        },
        change: Change::Registered,
        faulty_byte: 0,
    };

    pub const NO_PLACE_FOR_LOCAL: Row = Row {
        number: 10,
        sense: Sense {
            key: 5,
            asc: 0x55,
            ascq: 0x03,
        },
        change: Change::Registered,
        faulty_byte: 0,
    };

    pub const KEY_INSTANCE_CHANGED: Row = Row {
        number: 11,
        sense: Sense {
            key: 7,
            asc: 0x2A,
            ascq: 0x13,
        },
        change: Change::Unchanged,
        faulty_byte: 0,
    };

    pub const PARAMETERS_NOT_USABLE: Row = Row {
        number: 12,
        sense: Sense {
            key: 7,
            asc: 0x74,
            ascq: 0x07,
        },
        change: Change::Unchanged,
        faulty_byte: 0,
    };

    pub const PLACE_ABOVE: Row = Row {
        number: 13,
        sense: Sense::NONE,
        change: Change::Unchanged,
        faulty_byte: 0,
    };

    // Document 02, request 1.
    pub const BLOCK_NOT_KNOWN: Row = Row {
        number: 14,
        sense: Sense::NONE,
        change: Change::Unchanged,
        faulty_byte: 0,
    };

    pub const UNABLE_TO_DECRYPT: Row = Row {
        number: 15,
        sense: Sense {
            key: 7,
            asc: 0x74,
            ascq: 0x01,
        },
        change: Change::Unchanged,
        faulty_byte: 0,
    };

    pub const NOT_ENCRYPTED: Row = Row {
        number: 16,
        sense: Sense {
            key: 7,
            asc: 0x74,
            ascq: 0x02,
        },
        change: Change::Unchanged,
        faulty_byte: 0,
    };

    pub const KEY_INCORRECT: Row = Row {
        number: 17,
        sense: Sense {
            key: 7,
            asc: 0x74,
            ascq: 0x03,
        },
        change: Change::Unchanged,
        faulty_byte: 0,
    };
}
