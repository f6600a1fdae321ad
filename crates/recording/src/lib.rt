// Document 02, request 3: a recorded session as bytes. A header, events of 8 bytes, page bytes.
#![tactic(auto)]

pub const HEADER_SIZE: usize = 8;

pub const ENTRY_SIZE: usize = 8;

// IN and OUT events use protocol 20h.
pub const PROTOCOL: u8 = 0x20;

// The four numbers of a header.
#[derive(Clone, Copy)]
pub struct Header {
    pub event_count: usize,
    pub first_event: usize,
    pub pages_from: usize,
    pub total: usize,
}

impl Header {
    pub const NONE: Header = Header {
        event_count: 0,
        first_event: 0,
        pages_from: 0,
        total: 0,
    };
}

// An event. Its page is page_length bytes at an offset of the page bytes.
#[derive(Clone, Copy)]
pub struct Entry {
    pub kind: u8,
    pub nexus: u8,
    pub argument: u16,
    pub page_offset: u16,
    pub page_length: u16,
}

// What the fields of an event may hold: the largest nexus, the largest argument, and whether it has a page.
#[derive(Clone, Copy)]
pub struct Form {
    pub nexus: u8,
    pub argument: u16,
    pub page: bool,
}

impl Form {
    pub const NO_FIELD: Form = Form {
        nexus: 0,
        argument: 0,
        page: false,
    };

    pub const NEXUS: Form = Form {
        nexus: 255,
        argument: 0,
        page: false,
    };

    pub const PLACE: Form = Form {
        nexus: 0,
        argument: 65535,
        page: false,
    };

    pub const FLAG: Form = Form {
        nexus: 255,
        argument: 1,
        page: false,
    };

    pub const NUMBER: Form = Form {
        nexus: 255,
        argument: 65535,
        page: false,
    };

    pub const PAGE: Form = Form {
        nexus: 255,
        argument: 65535,
        page: true,
    };
}

// What a recorded session as a whole is answered. Its numbers have one for "done" too (0), as the answers have: so it is no Result.
#[derive(Clone, Copy)]
pub enum Verdict {
    Done,
    BatchNotTaken,
    EventsAbove,
    NotSalvageable,
    RecordingWrong,
    RateAbove,
}
