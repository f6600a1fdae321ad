// Any call on the drive of this model, where it is known whether the record is well formed: check 1 was made before.
#![tactic(auto)]

ghost use Rattle.std.specs.Prelude.{◌≡◌};
ghost use Rattle.device_16.specs.Model.{state, worded};
ghost use Rattle.drive.specs.Checks.{answer_where};
ghost use Rattle.drive_16.specs.Outcomes.{outcome_by};
ghost use Rattle.calls.specs.Asking.{call_of};
ghost use Rattle.calls_16.specs.Sights.{sighted, marked_by};

use answer::{Answer, Sense};
use calls::Asked;
use device::{Nexus, Set};
use device_16::{Device, Record};
use drive_16::Outcome;
use sizes_16::NEXUSES;

// A nexus, and the set that it uses.
#[derive(Clone, Copy)]
pub struct Sight {
    pub nexus: Nexus,
    pub set: Set,
}

pub fn look(d: Device, n: u8) -> Sight
    ensures { result ≡ sighted (state d) n }
{
    let nexus = device_16::nexus_at(d, n as usize);
    let sets = d.sets;
    let place = device_16::place_of(nexus, n as usize, sets);
    Sight {
        nexus,
        set: sets[place],
    }
}

// IN, a write or a read, after check 1: it changes its sender's marks alone. IN shows no page.
fn mark(r: Record, asked: Asked) -> Outcome
    ensures { result ≡ marked_by (worded r) asked }
{
    let n = calls_code::sender_number(asked);
    let sight = look(r.device, n);
    let quiet = calls_code::quietly(true, NEXUSES, sight.nexus, sight.set, asked);
    Outcome {
        after: marks_16::change_marks_in(r, n, quiet.change),
        answer: quiet.answer,
        sense: answer_code::sense_of(quiet.answer),
    }
}

// Any call of a record that is known to be well formed or not. Inlined into a loop over events it would cost a write, which needs none of it.
#[inline(never)]
pub fn perform(r: Record, formed: bool, asked: Asked, page: &[u8]) -> Outcome
    ensures { result ≡ outcome_by (worded r) (call_of asked page.now) (answer_where formed (state r.device) (call_of asked page.now)) }
{
    if !(formed | calls_code::is_power_on(asked)) {
        return Outcome {
            after: r,
            answer: Answer::NotWellFormed,
            sense: Sense::NONE,
        };
    }
    match asked {
        Asked::PowerOn => drive_16::power_on(),
        Asked::In(_) | Asked::Write(_, _) | Asked::Read(_, _) => mark(r, asked),
        Asked::Out(command) => drive_16::security_out_known(r, command, page),
        Asked::UnitReset => drive_16::unit_reset_known(r),
        Asked::Happen(event) => drive_16::happen_known(r, event),
    }
}
