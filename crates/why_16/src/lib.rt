// Why a write is stopped on the drive of this model: a recorded session read once, for one nexus.
#![tactic(auto)]

ghost use Rattle.std.specs.Prelude.{◌≡◌, ◌<◌, length};
ghost use Rattle.sizes_16.specs.Sizes.{nexus_count, place_count};
ghost use Rattle.device.specs.Record.{set_at};
ghost use Rattle.device_16.specs.Model.{state};
ghost use Rattle.drive.specs.Calls.{security_out};
ghost use Rattle.drive.specs.Effects.{effect_by};
ghost use Rattle.history.specs.History.{accepts};
ghost use Rattle.calls.specs.Asking.{call_of};
ghost use Rattle.recording.specs.Entries.{calls};
ghost use Rattle.why.specs.Touches.{deed_of, touch_by};
ghost use Rattle.why.specs.Causes.{cause_of};
ghost use Rattle.why.specs.Reasons.{no_reason, why};
ghost use Rattle.why.specs.Watching.{renewed, locked_by, flagged_by, watched_with};
ghost use Rattle.why_16.specs.Following.{followed_for};

use answer::Answer;
use calls::Asked;
use device_16::{Device, Record};
use drive::Command;
use drive_16::Outcome;
use recording::{ENTRY_SIZE, Verdict};
use sizes_16::{NEXUSES, PLACES};
use why::{Cause, Deed, Reason, Touch, Watch};

// A session read for one nexus, and the record at its end.
#[derive(Clone, Copy)]
pub struct Followed {
    pub after: Record,
    pub watch: Watch,
}

// The instance number of a place.
fn number_at(d: Device, place: usize) -> u32
    ensures { result ≡ (set_at (state d) place).number }
{
    if place < PLACES {
        let set = d.sets[place];
        return set.number;
    }
    0
}

// The place has another number, and not by power-on.
fn is_renewed(power: bool, before: Device, after: Device, place: usize) -> bool
    ensures { result ≡ renewed «power» (state before) (state after) place }
{
    !power & (number_at(before, place) != number_at(after, place))
}

// What a call did to the set in a place.
fn deed_at(before: Device, after: Device, place: usize) -> Deed
    ensures { result ≡ deed_of (set_at (state before) place) (set_at (state after) place) }
{
    if place < PLACES {
        return why_code::deed_of(before.sets[place], after.sets[place]);
    }
    Deed::Released
}

// The call at position i, and what it did in a place.
fn touch_by(before: Device, after: Device, place: usize, i: usize) -> Touch
    ensures { result ≡ touch_by i (state before) (state after) place }
{
    Touch {
        at: Some(i),
        place,
        deed: deed_at(before, after, place),
    }
}

// An OUT with that answer: the nexus's own page, not supplemental, taken.
fn is_own_page(d: Device, n: u8, command: Command, page: &[u8], answer: Answer) -> bool
    ensures { result ≡ accepts n (effect_by (state d) (security_out command page.now) answer) }
{
    if !answer_code::is_done(answer) {
        return false;
    }
    match drive_16::check_page(d, command.nexus, page) {
        Ok(read) => (command.nexus == n) & !read.supplemental,
        Err(_) => command.nexus == n,
    }
}

// A call with that answer is the lock: the nexus's own page.
fn is_lock(d: Device, n: u8, asked: Asked, page: &[u8], answer: Answer) -> bool
    ensures { result ≡ accepts n (effect_by (state d) (call_of asked page.now) answer) }
{
    match asked {
        Asked::Out(command) => is_own_page(d, n, command, page, answer),
        _ => false,
    }
}

// The lock leaves the nexus using a place; any other call may be the first to touch the set there.
fn follow_lock(
    w: Watch,
    lock: bool,
    power: bool,
    n: u8,
    i: usize,
    before: Device,
    after: Device,
) -> Watch
    ensures { result ≡ locked_by «lock» «power» n i (state before) (state after) w }
{
    if lock {
        return Watch {
            left: device_16::selected(after, n as usize),
            first: Touch::NONE,
            ..w
        };
    }
    let touch = touch_by(before, after, w.left, i);
    Watch {
        first: why_code::note_first(w.first, is_renewed(power, before, after, w.left), touch),
        ..w
    }
}

// A call may raise the nexus's flags.
fn follow_flags(w: Watch, n: u8, i: usize, before: Device, after: Device) -> Watch
    ensures { result ≡ flagged_by n i (state before) (state after) w }
{
    let was = device_16::nexus_at(before, n as usize).marks;
    let is = device_16::nexus_at(after, n as usize).marks;
    let touch = touch_by(before, after, device_16::selected(before, n as usize), i);
    let mut watch = w;
    if is.another & !was.another {
        watch.another = touch;
    }
    if is.vendor & !was.vendor {
        watch.vendor = touch;
    }
    watch
}

// One call, at position i: a call that leaves the record as it is isn't followed.
fn follow_call(
    w: Watch,
    n: u8,
    i: usize,
    d: Device,
    asked: Asked,
    page: &[u8],
    outcome: Outcome,
) -> Watch
    ensures { result ≡ watched_with n i (state d) (call_of asked page.now) outcome.answer (state outcome.after.device) w }
{
    let after = outcome.after.device;
    let lock = is_lock(d, n, asked, page, outcome.answer);
    let locked = follow_lock(w, lock, calls_code::is_power_on(asked), n, i, d, after);
    follow_flags(locked, n, i, d, after)
}

// The events in order, from power-on: since then the record is well formed, so check 1 isn't made.
pub fn follow(events: &[u8], pages: &[u8], n: u8) -> Followed
    ensures { result ≡ followed_for n (calls events.now pages.now) }
{
    let mut after = words_16::power_on();
    let mut watch = Watch::NONE;
    for (i, event) in events.chunks_exact(ENTRY_SIZE).enumerate() {
        let e = recording_code::entry_of(event);
        let asked = recording_code::asked_of(e);
        let sight = calls_16::look(after.device, calls_code::sender_number(asked));
        let quiet = calls_code::quietly(true, NEXUSES, sight.nexus, sight.set, asked);
        if !quiet.quiet {
            let page = recording_code::page_of(e, pages);
            let outcome = calls_16::perform(after, true, asked, page);
            watch = follow_call(watch, n, i, after.device, asked, page, outcome);
            after = outcome.after;
        }
    }
    Followed { after, watch }
}

// The nexus's next write, after these events: tried, and what answers it.
fn cause_after(events: &[u8], pages: &[u8], n: u8, supported: bool) -> Cause
    requires { length events.now < 65536 }
    ensures { result ≡ cause_of nexus_count place_count n supported (calls events.now pages.now) }
{
    let followed = follow(events, pages, n);
    let answer = drive_16::write(followed.after, n, supported).answer;
    let number = answer_code::row_of(answer).number;
    let device = followed.after.device;
    let place = device_16::selected(device, n as usize);
    Cause {
        answer,
        touch: why_code::touch_for(number, followed.watch, place),
        mode: why_code::mode_for(number, calls_16::look(device, n).set.fields.encryption),
    }
}

fn refuse(verdict: Verdict) -> Reason
    ensures { result ≡ no_reason verdict }
{
    Reason {
        verdict,
        cause: Cause {
            answer: Answer::Done,
            touch: Touch::NONE,
            mode: 0,
        },
        kind: 0,
        nexus: 0,
    }
}

// Why a nexus's next write is stopped, after the first events of a recorded session.
pub fn why(file: &[u8], events: usize, nexus: u8, supported: bool) -> Reason
    ensures { result ≡ why nexus_count place_count file.now events nexus supported }
{
    if !recording_code::is_sound_file(file) {
        return refuse(Verdict::RecordingWrong);
    }
    if recording_code::header_of(file).event_count < events {
        return refuse(Verdict::EventsAbove);
    }
    let all = recording_code::events_of(file);
    let first = wire_code::part(all, 0, ENTRY_SIZE * events);
    let cause = cause_after(first, recording_code::pages_of(file), nexus, supported);
    let e = why_code::event_at(all, cause.touch.at);
    Reason {
        verdict: Verdict::Done,
        cause,
        kind: e.kind,
        nexus: e.nexus,
    }
}
