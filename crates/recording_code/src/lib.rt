// A recorded session read: which events and files are sound, what an event asks.
#![tactic(auto)]

ghost use Rattle.std.specs.Prelude.{◌≡◌, ◌<◌, length};
ghost use Rattle.arrays.specs.Base.{when◌then◌else◌};
ghost use Rattle.recording.specs.Verdicts.{verdict_number};
ghost use Rattle.recording.specs.Forms.{form_of};
ghost use Rattle.recording.specs.Entries.{entry_of, sound, entries, sound_run, event_asked, event_page};
ghost use Rattle.recording.specs.Files.{header, headed, event_bytes, page_bytes, sound_file, header_bytes};

use calls::Asked;
use recording::{ENTRY_SIZE, Entry, Form, HEADER_SIZE, Header, PROTOCOL, Verdict};

// What the fields of an event may hold, by its kind's number: a row for each kind, as the definition `forms` has them.
const FORMS: [Form; 12] = [
    Form::NO_FIELD,
    Form::NUMBER,
    Form::PAGE,
    Form::FLAG,
    Form::NO_FIELD,
    Form::NO_FIELD,
    Form::NEXUS,
    Form::NO_FIELD,
    Form::NEXUS,
    Form::NO_FIELD,
    Form::PLACE,
    Form::NUMBER,
];

// The verdict's number in document 02, row by row as the definition `verdict_number` has them.
pub fn verdict_number(verdict: Verdict) -> u8
    ensures { result ≡ verdict_number verdict }
{
    match verdict {
        Verdict::Done => 0,
        Verdict::BatchNotTaken => 18,
        Verdict::EventsAbove => 19,
        Verdict::NotSalvageable => 21,
        Verdict::RecordingWrong => 22,
        Verdict::RateAbove => 23,
    }
}

// The event that a run of bytes begins with; what is past the end reads as 0, so there is nothing to refuse and no Option.
pub fn entry_of(bytes: &[u8]) -> Entry
    ensures { result ≡ entry_of bytes.now }
{
    Entry {
        kind: wire_code::byte_at(bytes, 0),
        nexus: wire_code::byte_at(bytes, 1),
        argument: wire_code::word_at(bytes, 2) as u16,
        page_offset: wire_code::word_at(bytes, 4) as u16,
        page_length: wire_code::word_at(bytes, 6) as u16,
    }
}

fn form_of(kind: u8) -> Form
    ensures { result ≡ form_of kind }
{
    let at = kind as usize;
    if at < 12 {
        return FORMS[at];
    }
    Form::NO_FIELD
}

// The page bytes that an event may name.
fn page_room(page: bool, page_count: usize) -> usize
    ensures { result ≡ when page then page_count else 0 }
{
    if page { page_count } else { 0 }
}

// No wrong field, and no page past the page bytes.
fn is_sound(e: Entry, page_count: usize) -> bool
    ensures { result ≡ sound page_count e }
{
    let form = form_of(e.kind);
    (e.kind <= 11)
        & (e.nexus <= form.nexus)
        & (e.argument <= form.argument)
        & (e.page_offset as usize + e.page_length as usize <= page_room(form.page, page_count))
}

// How many events are sound, up to one that isn't.
pub fn sound_run(events: &[u8], page_count: usize) -> usize
    ensures { result ≡ sound_run page_count (entries events.now) }
{
    for (i, event) in events.chunks_exact(ENTRY_SIZE).enumerate() {
        if !is_sound(entry_of(event), page_count) {
            return i;
        }
    }
    events.len() / ENTRY_SIZE
}

// What an event asks of the drive.
pub fn asked_of(e: Entry) -> Asked
    ensures { result ≡ event_asked e }
{
    calls_code::asked_of(e.kind, e.nexus, e.argument, PROTOCOL)
}

// An event's page.
pub fn page_of(e: Entry, pages: &[u8]) -> &[u8]
    ensures { result.now ≡ event_page pages.now e }
{
    wire_code::part(pages, e.page_offset as usize, e.page_length as usize)
}

// The four numbers of a header; what is past the end reads as 0, as of an event.
pub fn header_of(file: &[u8]) -> Header
    ensures { result ≡ header file.now }
{
    Header {
        event_count: wire_code::word_at(file, 0),
        first_event: wire_code::word_at(file, 2),
        pages_from: wire_code::word_at(file, 4),
        total: wire_code::word_at(file, 6),
    }
}

// A header's 8 bytes: of each number its lower 16 bits. Written out: the library's join of arrays gives a Vec, and there is no heap.
pub fn header_bytes(h: Header) -> [u8; HEADER_SIZE]
    ensures { result ≡ header_bytes h }
{
    let count = wire_code::two((h.event_count % 65536) as u16);
    let first = wire_code::two((h.first_event % 65536) as u16);
    let from = wire_code::two((h.pages_from % 65536) as u16);
    let total = wire_code::two((h.total % 65536) as u16);
    [
        count[0], count[1], first[0], first[1], from[0], from[1], total[0], total[1],
    ]
}

// A header with right numbers.
fn is_headed(file: &[u8]) -> bool
    ensures { result ≡ headed file.now }
{
    let count = wire_code::word_at(file, 0);
    let from = wire_code::word_at(file, 4);
    (HEADER_SIZE <= file.len())
        & (wire_code::word_at(file, 6) == file.len())
        & (wire_code::word_at(file, 2) == HEADER_SIZE)
        & (from == HEADER_SIZE + ENTRY_SIZE * count)
        & (from <= file.len())
}

// The bytes of a file's events.
pub fn events_of(file: &[u8]) -> &[u8]
    ensures { (result.now ≡ event_bytes file.now) × (length result.now < 65536) }
{
    let from = wire_code::word_at(file, 4);
    if from < HEADER_SIZE {
        return wire_code::part(file, HEADER_SIZE, 0);
    }
    wire_code::part(file, HEADER_SIZE, from - HEADER_SIZE)
}

// Its page bytes.
pub fn pages_of(file: &[u8]) -> &[u8]
    ensures { result.now ≡ page_bytes file.now }
{
    wire_code::part(file, wire_code::word_at(file, 4), file.len())
}

// A file that replay takes.
pub fn is_sound_file(file: &[u8]) -> bool
    ensures { result ≡ sound_file file.now }
{
    if !is_headed(file) {
        return false;
    }
    let events = events_of(file);
    let pages = pages_of(file);
    sound_run(events, pages.len()) == events.len() / ENTRY_SIZE
}
