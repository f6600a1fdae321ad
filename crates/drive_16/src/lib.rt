// The drive of this model: every call of document 01, the read and the question of document 02. The record goes in by value and comes back
// beside the answer. Each call has a part after check 1, which a caller may use whose record is known to be well formed.
#![tactic(auto)]

ghost use Rattle.std.specs.Prelude.{◌≡◌};
ghost use Rattle.wire.specs.Buffers.{Shown};
ghost use Rattle.device_16.specs.Model.{state, worded, record_of};
ghost use Rattle.status.specs.Status.{status_of};
ghost use Rattle.marks.specs.Parts.{told_by};
ghost use Rattle.drive.specs.Calls.{security_in, security_out, unit_reset, happens};
ghost use Rattle.page.specs.Check.{told};
ghost use Rattle.drive.specs.Checks.{page_checked, known_answer};
ghost use Rattle.drive.specs.Effects.{releasing};
ghost use Rattle.drive.specs.After.{actor_of, changed_by};
ghost use Rattle.drive.specs.Records.{answer_of};
ghost use Rattle.drive.specs.Outcomes.{response_page, in_buffer};
ghost use Rattle.drive_16.specs.Outcomes.{powered_on, outcome, in_outcome, write_outcome, read_outcome, served, known_outcome, known_in_outcome, known_write_outcome, known_read_outcome, refused_call, refused_in, refused_write, refused_read, unchanged, page_outcome};

use answer::{Answer, Change, Refusal, Sense};
use device_16::{Device, Record};
use drive::{Block, Command, Decision, ReadDecision};
use page::Page;
use places::Event;
use sizes_16::{NEXUSES, PLACES};

// A refusal may change the record too, so an outcome is no Result. The record after the call stands first: behind a byte and its padding the
// compiler copies it twice more.
#[derive(Clone, Copy)]
pub struct Outcome {
    pub after: Record,
    pub answer: Answer,
    pub sense: Sense,
}

// length is the response page's full length, 0 where refused.
#[derive(Clone, Copy)]
pub struct InOutcome {
    pub after: Record,
    pub answer: Answer,
    pub sense: Sense,
    pub length: usize,
}

// place and index are those of the set in use, 0 where refused.
#[derive(Clone, Copy)]
pub struct WriteOutcome {
    pub after: Record,
    pub answer: Answer,
    pub sense: Sense,
    pub decision: Decision,
    pub place: usize,
    pub index: u8,
}

// place is that of the set in use, 0 where refused.
#[derive(Clone, Copy)]
pub struct ReadOutcome {
    pub after: Record,
    pub answer: Answer,
    pub sense: Sense,
    pub decision: ReadDecision,
    pub place: usize,
}

// Power-on takes no record, answers 0 and gives all zeros.
pub fn power_on() -> Outcome
    ensures { result ≡ powered_on }
{
    Outcome {
        after: words_16::power_on(),
        answer: Answer::Done,
        sense: Sense::NONE,
    }
}

// What the row of its answer says of a refused call.
fn refuse(r: Record, n: u8, answer: Answer) -> Outcome
    ensures { result ≡ refused_call (worded r) n answer }
{
    let row = answer_code::row_of(answer);
    Outcome {
        after: marks_16::change_marks_in(r, n, row.change),
        answer,
        sense: row.sense,
    }
}

// The response page of a code.
fn respond(d: Device, n: u8, code: u16, buffer: &mut [u8]) -> usize
    ensures { Shown (response_page (state d) n code) buffer.old result buffer.new }
{
    if code == 0x00 {
        return status_code::write_supported_in(buffer);
    }
    if code == 0x01 {
        return status_code::write_supported_out(buffer);
    }
    if code == 0x12 {
        return status_code::write_capabilities(buffer);
    }
    status_code::write_status(status_of(d, n as usize), buffer)
}

fn status_of(d: Device, n: usize) -> status::Status
    ensures { result ≡ status_of (state d) n }
{
    let nexus = device_16::nexus_at(d, n);
    status_code::status_with(nexus.scope, device_16::selected_set(d, n))
}

// Outcomes with data are refused each by a function of its own: their fields are not the same.
fn refuse_in(r: Record, n: u8, answer: Answer) -> InOutcome
    ensures { result ≡ refused_in (worded r) n answer }
{
    let refused = refuse(r, n, answer);
    InOutcome {
        after: refused.after,
        answer,
        sense: refused.sense,
        length: 0,
    }
}

// SECURITY PROTOCOL IN, after check 1.
pub fn security_in_known(r: Record, command: Command, buffer: &mut [u8]) -> InOutcome
    ensures { (result ≡ known_in_outcome (worded r) command) × (buffer.new ≡ in_buffer (state r.device) command (known_answer (state r.device) (security_in command)) buffer.old) }
{
    let nexus = device_16::nexus_of(r.device.nexuses, command.nexus as usize);
    let supported = status_code::is_in_page(command.code);
    if let Err(answer) = drive_code::check_command(command, nexus.marks, NEXUSES, supported) {
        return refuse_in(r, command.nexus, answer);
    }
    let length = respond(r.device, command.nexus, command.code, buffer);
    InOutcome {
        after: marks_16::change_marks_in(r, command.nexus, Change::Registered),
        answer: Answer::Done,
        sense: Sense::NONE,
        length,
    }
}

// SECURITY PROTOCOL IN.
pub fn security_in(r: Record, command: Command, buffer: &mut [u8]) -> InOutcome
    ensures { (result ≡ in_outcome (worded r) command) × (buffer.new ≡ in_buffer (state r.device) command (answer_of (worded r) (security_in command)) buffer.old) }
{
    if !words_16::formed(r) {
        return refuse_in(r, command.nexus, Answer::NotWellFormed);
    }
    security_in_known(r, command, buffer)
}

// Checks 7, 8 and 9, and the page read.
pub fn check_page(d: Device, n: u8, page: &[u8]) -> Result<Page, Refusal>
    ensures { result ≡ told (page_checked (state d) n page.now) }
{
    let nexus = device_16::nexus_at(d, n as usize);
    let sets = d.sets;
    let place = device_16::place_of(nexus, n as usize, sets);
    let set = sets[place];
    page_code::check(
        page,
        nexus.scope,
        set.fields.decryption,
        set.supplemental.count,
    )
}

// A page that passed its check: check 10, and the page taken.
fn accept(r: Record, n: u8, page: Page) -> Outcome
    ensures { result ≡ page_outcome (worded r) n page }
{
    let room = places_16::room_asked(r.device, n, page);
    if places_code::needs_place(page) & places_code::is_no_room(room) {
        return refuse(r, n, Answer::NoPlaceForLocal);
    }
    let taken = places_16::take_page(r.device, n, page, room);
    let registered = marks_16::change_marks(taken, n, Change::Registered);
    Outcome {
        after: marks_16::tell(r, registered, Some(n)),
        answer: Answer::Done,
        sense: Sense::NONE,
    }
}

// SECURITY PROTOCOL OUT, after check 1. Inlined beside the other calls it would move each nexus by itself, again and again.
#[inline(never)]
pub fn security_out_known(r: Record, command: Command, page: &[u8]) -> Outcome
    ensures { result ≡ known_outcome (worded r) (security_out command page.now) }
{
    let nexus = device_16::nexus_of(r.device.nexuses, command.nexus as usize);
    let supported = status_code::is_out_page(command.code);
    if let Err(answer) = drive_code::check_command(command, nexus.marks, NEXUSES, supported) {
        return refuse(r, command.nexus, answer);
    }
    match check_page(r.device, command.nexus, page) {
        Ok(read) => accept(r, command.nexus, read),
        Err(refusal) => refuse(r, command.nexus, refusal.answer),
    }
}

// SECURITY PROTOCOL OUT.
pub fn security_out(r: Record, command: Command, page: &[u8]) -> Outcome
    ensures { result ≡ outcome (worded r) (security_out command page.now) }
{
    if !words_16::formed(r) {
        return refuse(r, command.nexus, Answer::NotWellFormed);
    }
    security_out_known(r, command, page)
}

fn refuse_write(r: Record, n: u8, answer: Answer) -> WriteOutcome
    ensures { result ≡ refused_write (worded r) n answer }
{
    let refused = refuse(r, n, answer);
    WriteOutcome {
        after: refused.after,
        answer,
        sense: refused.sense,
        decision: Decision::Refused,
        place: 0,
        index: 0,
    }
}

// The write decision, after check 1.
pub fn write_known(r: Record, n: u8, supported: bool) -> WriteOutcome
    ensures { result ≡ known_write_outcome (worded r) n supported }
{
    let nexus = device_16::nexus_at(r.device, n as usize);
    if let Err(answer) = drive_code::hear(n, nexus.marks, NEXUSES) {
        return refuse_write(r, n, answer);
    }
    let sets = r.device.sets;
    let place = device_16::place_of(nexus, n as usize, sets);
    let set = sets[place];
    if let Err(answer) = drive_code::check_write(nexus, set, supported) {
        return refuse_write(r, n, answer);
    }
    WriteOutcome {
        after: r,
        answer: Answer::Done,
        sense: Sense::NONE,
        decision: drive_code::decide(set.fields.encryption),
        place,
        index: set.fields.index,
    }
}

// The write decision.
pub fn write(r: Record, n: u8, supported: bool) -> WriteOutcome
    ensures { result ≡ write_outcome (worded r) n supported }
{
    if !words_16::formed(r) {
        return refuse_write(r, n, Answer::NotWellFormed);
    }
    write_known(r, n, supported)
}

fn refuse_read(r: Record, n: u8, answer: Answer) -> ReadOutcome
    ensures { result ≡ refused_read (worded r) n answer }
{
    let refused = refuse(r, n, answer);
    ReadOutcome {
        after: refused.after,
        answer,
        sense: refused.sense,
        decision: ReadDecision::Withheld,
        place: 0,
    }
}

// The read decision, after check 1.
pub fn read_known(r: Record, n: u8, block: Block) -> ReadOutcome
    ensures { result ≡ known_read_outcome (worded r) n block }
{
    let nexus = device_16::nexus_at(r.device, n as usize);
    if let Err(answer) = drive_code::hear(n, nexus.marks, NEXUSES) {
        return refuse_read(r, n, answer);
    }
    let sets = r.device.sets;
    let place = device_16::place_of(nexus, n as usize, sets);
    match drive_code::restore(sets[place], block) {
        Ok(decision) => ReadOutcome {
            after: r,
            answer: Answer::Done,
            sense: Sense::NONE,
            decision,
            place,
        },
        Err(answer) => refuse_read(r, n, answer),
    }
}

// The read decision.
pub fn read(r: Record, n: u8, block: Block) -> ReadOutcome
    ensures { result ≡ read_outcome (worded r) n block }
{
    if !words_16::formed(r) {
        return refuse_read(r, n, Answer::NotWellFormed);
    }
    read_known(r, n, block)
}

// A call that changes nothing, answered.
fn unchanged(r: Record, answer: Answer) -> Outcome
    ensures { result ≡ unchanged (worded r) answer }
{
    Outcome {
        after: r,
        answer,
        sense: answer_code::sense_of(answer),
    }
}

// Logical unit reset, after check 1.
pub fn unit_reset_known(r: Record) -> Outcome
    ensures { result ≡ known_outcome (worded r) unit_reset }
{
    Outcome {
        after: marks_16::clear(r),
        answer: Answer::Done,
        sense: Sense::NONE,
    }
}

// Logical unit reset clears registered marks and pending flags only.
pub fn unit_reset(r: Record) -> Outcome
    ensures { result ≡ outcome (worded r) unit_reset }
{
    if !words_16::formed(r) {
        return unchanged(r, Answer::NotWellFormed);
    }
    unit_reset_known(r)
}

// What an event releases, and who is told.
fn release(r: Record, event: Event) -> Record
    ensures { result ≡ record_of (told_by (actor_of event) (worded r) (changed_by (state r.device) (releasing event))) }
{
    let released = places_16::release_by(r.device, event);
    marks_16::tell(r, released, drive_code::actor_of(event))
}

// An event, after check 1. One that releases nothing leaves the record as it is.
pub fn happen_known(r: Record, event: Event) -> Outcome
    ensures { result ≡ known_outcome (worded r) (happens event) }
{
    if let Err(answer) = drive_code::check_event(event, NEXUSES, PLACES) {
        return unchanged(r, answer);
    }
    if places_16::none_due(r.device.sets, event) {
        return unchanged(r, Answer::Done);
    }
    Outcome {
        after: release(r, event),
        answer: Answer::Done,
        sense: Sense::NONE,
    }
}

// An event that may release sets. The part after check 1 stands here again: called, it would cost a copy of the record.
pub fn happen(r: Record, event: Event) -> Outcome
    ensures { result ≡ outcome (worded r) (happens event) }
{
    if !words_16::formed(r) {
        return unchanged(r, Answer::NotWellFormed);
    }
    if let Err(answer) = drive_code::check_event(event, NEXUSES, PLACES) {
        return unchanged(r, answer);
    }
    if places_16::none_due(r.device.sets, event) {
        return unchanged(r, Answer::Done);
    }
    Outcome {
        after: release(r, event),
        answer: Answer::Done,
        sense: Sense::NONE,
    }
}

// Which hosts the set in a place serves: its word, or the refusal. The record stays as it is.
pub fn serves(r: Record, place: u16) -> Result<u64, Refusal>
    ensures { result ≡ served (worded r) place }
{
    if !words_16::formed(r) {
        return Err(answer_code::refusal_of(Answer::NotWellFormed));
    }
    let at = place as usize;
    if PLACES <= at {
        return Err(answer_code::refusal_of(Answer::PlaceAbove));
    }
    let words = r.words;
    Ok(words[at])
}
