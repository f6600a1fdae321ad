// What a kind asks of the drive.
#![tactic(auto)]

ghost use Rattle.std.specs.Prelude.{◌≡◌, [], ◌∷◌, ◌++◌};
ghost use Rattle.answer.specs.declared.Answer.{Answer};
ghost use Rattle.answer.specs.Answers.{passed};
ghost use Rattle.drive.specs.Restoring.{ruled_answer, restored};
ghost use Rattle.drive.specs.Checks.{first_of, heard, permitted};
ghost use Rattle.calls.specs.Kinds.{is_event};
ghost use Rattle.calls.specs.Asking.{command_of, event_of, asked_of, is_power_on};
ghost use Rattle.calls.specs.Quiet.{sender_number, quiet_by, quietly};

use answer::{Answer, Change};
use calls::{
    Asked, DEMOUNT, DEVICE_LOSS, IN, MICROCODE, NEXUS_LOSS, OUT, PREEMPT, Quiet, READ, UNIT_RESET,
    VENDOR_RELEASE, WRITE,
};
use device::{Marks, Nexus, Set};
use drive::{Block, Command};
use places::Event;

// What a security command says of itself.
pub fn command_of(nexus: u8, protocol: u8, argument: u16) -> Command
    ensures { result ≡ command_of nexus protocol argument }
{
    Command {
        nexus,
        protocol,
        code: argument,
    }
}

// The event of a kind from DEMOUNT to VENDOR_RELEASE.
#[tactic(auto, unfolding(calls::specs::Asking::event_of))]
pub fn event_of(kind: u8, nexus: u8, argument: u16) -> Event
    ensures { result ≡ event_of kind nexus argument }
{
    match kind {
        DEMOUNT => Event::Demount,
        NEXUS_LOSS => Event::NexusLoss(nexus),
        DEVICE_LOSS => Event::DeviceLoss,
        PREEMPT => Event::Preempt(nexus),
        MICROCODE => Event::Microcode,
        _ => Event::VendorRelease(argument),
    }
}

// An event that may release sets.
pub fn is_event(kind: u8) -> bool
    ensures { result ≡ is_event kind }
{
    DEMOUNT <= kind && kind <= VENDOR_RELEASE
}

// What a kind asks, with its nexus, argument and protocol: a command and a recorded event hold these among other fields, each its own.
#[tactic(auto, unfolding(calls::specs::Asking::asked_of))]
pub fn asked_of(kind: u8, nexus: u8, argument: u16, protocol: u8) -> Asked
    ensures { result ≡ asked_of kind nexus argument protocol }
{
    match kind {
        IN => Asked::In(command_of(nexus, protocol, argument)),
        OUT => Asked::Out(command_of(nexus, protocol, argument)),
        WRITE => Asked::Write(nexus, argument == 1),
        UNIT_RESET => Asked::UnitReset,
        READ => Asked::Read(nexus, drive_code::block_of(argument)),
        _ if is_event(kind) => Asked::Happen(event_of(kind, nexus, argument)),
        _ => Asked::PowerOn,
    }
}

// Power-on takes no record.
pub fn is_power_on(asked: Asked) -> bool
    ensures { result ≡ is_power_on asked }
{
    matches!(asked, Asked::PowerOn)
}

// The sender of IN, a write or a read.
pub fn sender_number(asked: Asked) -> u8
    ensures { result ≡ sender_number asked }
{
    match asked {
        Asked::In(command) => command.nexus,
        Asked::Write(n, _) | Asked::Read(n, _) => n,
        _ => 0,
    }
}

// What a call changes of its sender's marks, where carried out it makes this change, and whether that leaves the record as it is. The record
// is known to be well formed or not.
fn quiet_by(formed: bool, marks: Marks, doing: Change, checked: Result<(), Answer>) -> Quiet
    ensures { (a : Answer) → checked ≡ passed a → result ≡ quiet_by formed marks doing a }
{
    if !formed {
        return Quiet::UNFORMED;
    }
    let (answer, change) = match checked {
        Ok(()) => (Answer::Done, doing),
        Err(answer) => (answer, answer_code::row_of(answer).change),
    };
    Quiet {
        quiet: marks_code::keeps_marks(marks, change),
        answer,
        change,
    }
}

// Checks 2 to 4, 11 and 12 of a write.
fn check_write(n: u8, nexus: Nexus, set: Set, nexuses: usize, supported: bool) -> Result<(), Answer>
    ensures { result ≡ passed (first_of (heard nexuses n nexus.marks ++ permitted nexus set supported)) }
{
    drive_code::hear(n, nexus.marks, nexuses)?;
    drive_code::check_write(nexus, set, supported)
}

// Checks 2 to 4 and 14 to 17 of a read.
fn check_read(n: u8, nexus: Nexus, set: Set, nexuses: usize, block: Block) -> Result<(), Answer>
    ensures { result ≡ passed (first_of (heard nexuses n nexus.marks ++ ruled_answer (restored set block) ∷ [])) }
{
    drive_code::hear(n, nexus.marks, nexuses)?;
    drive_code::restore(set, block)?;
    Ok(())
}

// IN, a write or a read of a record that is known to be well formed or not: whether it leaves the record as it is, its answer, and what it
// changes of its sender's marks. nexus and set are the sender and the set that it uses.
#[tactic(auto, unfolding(calls::specs::Quiet::quietly))]
pub fn quietly(formed: bool, nexuses: usize, nexus: Nexus, set: Set, asked: Asked) -> Quiet
    ensures { result ≡ quietly formed nexuses nexus set asked }
{
    let marks = nexus.marks;
    match asked {
        Asked::In(command) => {
            let supported = status_code::is_in_page(command.code);
            let checked = drive_code::check_command(command, marks, nexuses, supported);
            quiet_by(formed, marks, Change::Registered, checked)
        }
        Asked::Write(n, supported) => {
            let checked = check_write(n, nexus, set, nexuses, supported);
            quiet_by(formed, marks, Change::Unchanged, checked)
        }
        Asked::Read(n, block) => {
            let checked = check_read(n, nexus, set, nexuses, block);
            quiet_by(formed, marks, Change::Unchanged, checked)
        }
        Asked::PowerOn | Asked::Out(_) | Asked::UnitReset | Asked::Happen(_) => Quiet::NOT,
    }
}
