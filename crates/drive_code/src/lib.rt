// The calls of document 01, as far as they go by one nexus, one set, one page or one event: the checks, and what is decided.
#![tactic(auto)]

ghost use Rattle.std.specs.Prelude.{◌≡◌};
ghost use Rattle.answer.specs.Answers.{passed};
ghost use Rattle.drive.specs.Checks.{first_of, check2, check13, heard, commanded, permitted, event_check};
ghost use Rattle.drive.specs.Restoring.{block_of, under_disable, under_raw, plain_under, encrypted_under, under_mode, not_known, restored, read_value_of};
ghost use Rattle.drive.specs.After.{actor_of};
ghost use Rattle.drive.specs.Outcomes.{decided, value_of};

use answer::Answer;
use device::{Marks, Nexus, Set};
use drive::{
    Block, Command, Decision, ENCRYPTED_KIND, NO_KEY, OTHER_KIND, PLAIN_KIND, ReadDecision,
};
use parameters::{DECRYPT, DISABLE, ENCRYPT, EXTERNAL, RAW};
use places::Event;

const PROTOCOL: u8 = 0x20;

// Check 2, where there are that many nexuses.
fn check_nexus(n: u8, nexuses: usize) -> Result<(), Answer>
    ensures { result ≡ passed (check2 nexuses n) }
{
    if nexuses <= n as usize {
        return Err(Answer::NexusAbove);
    }
    Ok(())
}

// Check 13, where there are that many places.
fn check_place(place: u16, places: usize) -> Result<(), Answer>
    ensures { result ≡ passed (check13 places place) }
{
    if places <= place as usize {
        return Err(Answer::PlaceAbove);
    }
    Ok(())
}

// Checks 2 to 4.
pub fn hear(n: u8, marks: Marks, nexuses: usize) -> Result<(), Answer>
    ensures { result ≡ passed (first_of (heard nexuses n marks)) }
{
    check_nexus(n, nexuses)?;
    if marks.another {
        return Err(Answer::ChangedByAnotherNexus);
    }
    if marks.vendor {
        return Err(Answer::ChangedByVendorEvent);
    }
    Ok(())
}

// Checks 2 to 6, where it is known whether the page is supported.
pub fn check_command(
    command: Command,
    marks: Marks,
    nexuses: usize,
    supported: bool,
) -> Result<(), Answer>
    ensures { result ≡ passed (first_of (commanded nexuses command marks supported)) }
{
    hear(command.nexus, marks, nexuses)?;
    if command.protocol != PROTOCOL {
        return Err(Answer::ProtocolNotSupported);
    }
    if !supported {
        return Err(Answer::PageNotSupported);
    }
    Ok(())
}

// Checks 11 and 12, of a nexus and the set that it uses.
pub fn check_write(nexus: Nexus, set: Set, supported: bool) -> Result<(), Answer>
    ensures { result ≡ passed (first_of (permitted nexus set supported)) }
{
    if nexus.lock && nexus.saved != set.number {
        return Err(Answer::KeyInstanceChanged);
    }
    if set.fields.encryption == ENCRYPT && !supported {
        return Err(Answer::ParametersNotUsable);
    }
    Ok(())
}

// Clear, external or encrypted, by mode.
pub fn decide(mode: u8) -> Decision
    ensures { result ≡ decided mode }
{
    match mode {
        DISABLE => Decision::Clear,
        EXTERNAL => Decision::External,
        _ => Decision::Encrypted,
    }
}

// The write decision's value in a reply. Theorems name this function's definition and that of the read's: a From would say them again.
pub fn value_of(decision: Decision) -> u8
    ensures { result ≡ value_of decision }
{
    match decision {
        Decision::Refused => 255,
        Decision::Clear => 0,
        Decision::External => 1,
        Decision::Encrypted => 2,
    }
}

// A block as one number: kind times 256 plus key.
pub fn block_of(argument: u16) -> Block
    ensures { result ≡ block_of argument }
{
    Block {
        kind: (argument / 256) as u8,
        key: (argument % 256) as u8,
    }
}

// "Under DISABLE plain passes and others get 15 (7/74/01)."
fn under_disable(kind: u8) -> Result<ReadDecision, Answer>
    ensures { result ≡ under_disable kind }
{
    if kind == PLAIN_KIND {
        Ok(ReadDecision::Plain)
    } else {
        Err(Answer::UnableToDecrypt)
    }
}

// "RAW passes all, kinds 1 and 2 as raw."
fn under_raw(kind: u8) -> Result<ReadDecision, Answer>
    ensures { result ≡ under_raw kind }
{
    if kind == PLAIN_KIND {
        Ok(ReadDecision::Plain)
    } else {
        Ok(ReadDecision::Raw)
    }
}

// "DECRYPT gives 16 (7/74/02) for plain; MIXED passes it."
fn plain_under(mode: u8) -> Result<ReadDecision, Answer>
    ensures { result ≡ plain_under mode }
{
    if mode == DECRYPT {
        Err(Answer::NotEncrypted)
    } else {
        Ok(ReadDecision::Plain)
    }
}

// "In both, kind 1 is decrypted if a key opened it, else 17 (7/74/03); kind 2 gives 15."
fn encrypted_under(block: Block) -> Result<ReadDecision, Answer>
    ensures { result ≡ encrypted_under block }
{
    if block.kind != ENCRYPTED_KIND {
        return Err(Answer::UnableToDecrypt);
    }
    if block.key == NO_KEY {
        return Err(Answer::KeyIncorrect);
    }
    Ok(ReadDecision::Decrypted)
}

// A block read, by decryption mode.
#[tactic(auto, unfolding(drive::specs::Restoring::under_mode))]
fn under_mode(mode: u8, block: Block) -> Result<ReadDecision, Answer>
    ensures { result ≡ under_mode mode block }
{
    match mode {
        DISABLE => under_disable(block.kind),
        RAW => under_raw(block.kind),
        _ if block.kind == PLAIN_KIND => plain_under(mode),
        _ => encrypted_under(block),
    }
}

// Check 14: a kind above 2, or a key that is neither none nor the set's.
fn not_known(set: Set, block: Block) -> bool
    ensures { result ≡ not_known set block }
{
    let holds = parameters_code::needs_key(set.fields.encryption, set.fields.decryption);
    let has = holds && block.key <= set.supplemental.count;
    block.kind > OTHER_KIND || !(block.key == NO_KEY || has)
}

// Checks 14 to 17, of a block read under a set, and what becomes of it.
pub fn restore(set: Set, block: Block) -> Result<ReadDecision, Answer>
    ensures { result ≡ restored set block }
{
    if not_known(set, block) {
        return Err(Answer::BlockNotKnown);
    }
    under_mode(set.fields.decryption, block)
}

// The read decision's value in a reply.
pub fn read_value_of(decision: ReadDecision) -> u8
    ensures { result ≡ read_value_of decision }
{
    match decision {
        ReadDecision::Withheld => 255,
        ReadDecision::Plain => 0,
        ReadDecision::Raw => 1,
        ReadDecision::Decrypted => 2,
    }
}

// The check of an event's argument, where there are that many nexuses and places.
pub fn check_event(event: Event, nexuses: usize, places: usize) -> Result<(), Answer>
    ensures { result ≡ passed (event_check nexuses places event) }
{
    match event {
        Event::NexusLoss(n) | Event::Preempt(n) => check_nexus(n, nexuses),
        Event::VendorRelease(place) => check_place(place, places),
        Event::Demount | Event::DeviceLoss | Event::Microcode => Ok(()),
    }
}

// Who acts in an event.
pub fn actor_of(event: Event) -> Option<u8>
    ensures { result ≡ actor_of event }
{
    match event {
        Event::Preempt(n) => Some(n),
        _ => None,
    }
}
