// Document 02, request 12: a damaged recording salvaged, and the report told.
#![tactic(auto)]

ghost use Rattle.std.specs.Prelude.{◌≡◌, ◌++◌, ◌≤◌, ◌<◌, ◌+◌, ◌*◌, length};
ghost use Rattle.wire.specs.Buffers.{shown};
ghost use Rattle.wire.specs.Parts.{joined};
ghost use Rattle.text.specs.Making.{lines_most, size_of};
ghost use Rattle.text_code.specs.Telling.{and_text, told_lines};
ghost use Rattle.recording.specs.Files.{right_header};
ghost use Rattle.salvage.specs.Salvage.{is_salvageable, kept_count, Saves};
ghost use Rattle.salvage.specs.Reports.{change, report_text};

use recording::{ENTRY_SIZE, HEADER_SIZE, Header, Verdict};
use salvage::{FILE_MOST, Salvaged};
use text_code::Lines;

// From 8 to 65,535 bytes, with a stored page offset of 8 plus a multiple of 8 that isn't past the file.
fn is_salvageable(file: &[u8]) -> bool
    ensures { result ≡ is_salvageable file.now }
{
    let from = wire_code::word_at(file, 4);
    (HEADER_SIZE <= file.len())
        & (file.len() <= FILE_MOST)
        & (HEADER_SIZE <= from)
        & (from % ENTRY_SIZE == 0)
        & (from <= file.len())
}

// How many events, from the first and up to the stored page offset, replay would take.
fn kept_count(file: &[u8]) -> usize
    ensures { result ≡ kept_count file.now }
{
    let pages = recording_code::pages_of(file);
    recording_code::sound_run(recording_code::events_of(file), pages.len())
}

// The header of so many events and page bytes.
fn right_header(event_count: usize, page_count: usize) -> Header
    requires { 8 + 8 * event_count + page_count < 65536 }
    ensures { result ≡ right_header event_count page_count }
{
    let from = HEADER_SIZE + ENTRY_SIZE * event_count;
    Header {
        event_count,
        first_event: HEADER_SIZE,
        pages_from: from,
        total: from + page_count,
    }
}

// Shows a file of three parts in a lent buffer.
fn show(head: [u8; HEADER_SIZE], events: &[u8], pages: &[u8], out: &mut [u8])
    ensures { out.new ≡ shown (head ++ (events.now ++ pages.now)) out.old }
{
    wire_code::put(out, 0, &head);
    wire_code::put(out, HEADER_SIZE, events);
    wire_code::put(out, HEADER_SIZE + events.len(), pages);
}

// Salvages a file: the new one goes into the lent buffer, as much of it as that holds.
pub fn salvage(file: &[u8], out: &mut [u8]) -> Salvaged
    ensures { Saves file.now out.old result out.new }
{
    if !is_salvageable(file) {
        return Salvaged::REFUSED;
    }
    let events = recording_code::events_of(file);
    let pages = recording_code::pages_of(file);
    let kept = kept_count(file);
    let new = right_header(kept, pages.len());
    let head = recording_code::header_bytes(new);
    let end = ENTRY_SIZE * kept;
    show(head, &events[..end], pages, out);
    let old = recording_code::header_of(file);
    Salvaged {
        verdict: Verdict::Done,
        old,
        new,
        dropped: events.len() / ENTRY_SIZE - kept,
    }
}

// Puts a header number's line, which has at most 45 bytes beside its name.
fn put_change(lines: &mut Lines, name: &[u8], old: usize, new: usize)
    ensures { (lines.new ≡ and_text lines.old (joined (λ part. part) (change name.now old new))) × (size_of (change name.now old new) ≤ length name.now + 45) }
{
    lines.put_words(name);
    lines.put_number(old as u64);
    lines.put_words(b" -> ");
    lines.put_number(new as u64);
    lines.put_words(b"\n");
}

// The lines of the report.
pub fn tell(salvaged: Salvaged) -> Lines
    ensures { (result ≡ told_lines (report_text salvaged)) × (result.length ≤ lines_most) }
{
    let old = salvaged.old;
    let new = salvaged.new;
    let mut lines = Lines::NONE;
    put_change(&mut lines, b"events ", old.event_count, new.event_count);
    put_change(
        &mut lines,
        b"first event ",
        old.first_event,
        new.first_event,
    );
    put_change(&mut lines, b"page bytes ", old.pages_from, new.pages_from);
    put_change(&mut lines, b"total ", old.total, new.total);
    lines.put_words(b"dropped ");
    lines.put_number(salvaged.dropped as u64);
    lines.put_words(b"\n");
    lines
}
