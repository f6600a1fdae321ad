// A nexus's registered mark and its pending flags: what an answer changes of them, who is told, and the logical unit reset.
#![tactic(auto)]

ghost use Rattle.std.specs.Prelude.{◌≡◌, not, ◌&&◌, map};
ghost use Rattle.device.specs.Updates.{registered, with_another, with_vendor};
ghost use Rattle.marks.specs.Marks.{remarked, changed, keeps_marks, is_actor, alerted};
ghost use Rattle.marks.specs.Reset.{unmarked};

use answer::Change;
use device::{Marks, Nexus};

fn registered(marks: Marks) -> Marks
    ensures { result ≡ registered marks }
{
    Marks {
        registered: true,
        ..marks
    }
}

fn with_another(marks: Marks, flag: bool) -> Marks
    ensures { result ≡ with_another flag marks }
{
    Marks {
        another: flag,
        ..marks
    }
}

fn with_vendor(marks: Marks, flag: bool) -> Marks
    ensures { result ≡ with_vendor flag marks }
{
    Marks {
        vendor: flag,
        ..marks
    }
}

// What an answer's row changes in its sender's marks.
fn changed(marks: Marks, change: Change) -> Marks
    ensures { result ≡ changed change marks }
{
    match change {
        Change::Unchanged => marks,
        Change::AnotherCleared => with_another(marks, false),
        Change::VendorCleared => with_vendor(marks, false),
        Change::Registered => registered(marks),
    }
}

// The change leaves these marks as they are.
pub fn keeps_marks(marks: Marks, change: Change) -> bool
    ensures { result ≡ keeps_marks marks change }
{
    match change {
        Change::Unchanged => true,
        Change::AnotherCleared => false,
        Change::VendorCleared => false,
        Change::Registered => marks.registered,
    }
}

// The sender after that.
pub fn remark(nexus: Nexus, change: Change) -> Nexus
    ensures { result ≡ remarked (changed change) nexus }
{
    Nexus {
        marks: changed(nexus.marks, change),
        ..nexus
    }
}

fn is_actor(actor: Option<u8>, n: usize) -> bool
    ensures { result ≡ is_actor actor n }
{
    matches!(actor, Some(m) if m as usize == n)
}

// A nexus that may be told: it was registered before, and isn't the acting one.
pub fn is_asked(was: Nexus, actor: Option<u8>, n: usize) -> bool
    ensures { result ≡ (was.marks.registered && not (is_actor actor n)) }
{
    was.marks.registered & !is_actor(actor, n)
}

// A flag where told: "another nexus" where one acts, else "vendor event".
fn alerted(marks: Marks, actor: Option<u8>, flag: bool) -> Marks
    ensures { result ≡ alerted actor flag marks }
{
    match actor {
        None => with_vendor(marks, marks.vendor | flag),
        Some(_) => with_another(marks, marks.another | flag),
    }
}

pub fn alert(nexus: Nexus, actor: Option<u8>, flag: bool) -> Nexus
    ensures { result ≡ remarked (alerted actor flag) nexus }
{
    Nexus {
        marks: alerted(nexus.marks, actor, flag),
        ..nexus
    }
}

// One nexus without marks; everything else stays.
fn unmarked(nexus: Nexus) -> Nexus
    ensures { result ≡ unmarked nexus }
{
    Nexus {
        marks: Marks {
            registered: false,
            another: false,
            vendor: false,
        },
        ..nexus
    }
}

// Clears the marks of each nexus of a lent slice, however long it is.
pub fn clear_marks(nexuses: &mut [Nexus])
    ensures { nexuses.new ≡ map unmarked nexuses.old }
{
    // By index, so that where the pass begins is a number: at 1 the first nexus is left out (must-fail/first_left_out).
    for n in 0..nexuses.len() {
        nexuses[n] = unmarked(nexuses[n]);
    }
}
