// The device record: sets in places, nexuses, the running counter.
#![tactic(auto)]

ghost use Rattle.std.specs.Prelude.{◌≡◌};
ghost use Rattle.device.specs.Selecting.{owns};
ghost use Rattle.device.specs.WellFormed.{set_codes, set_tails, scope_fits, used_fits, set_zero, empty_is_zero};

use device::Set;
use parameters::{ALGORITHM, ALL, LOCAL, SUPPLEMENTAL_MOST};

// The set is LOCAL and the nexus owns it.
pub fn is_owned(set: Set, n: usize) -> bool
    ensures { result ≡ owns n set }
{
    (set.scope == LOCAL) & (set.owner as usize == n)
}

// A set's codes, owner and lengths are in range, where there are that many nexuses.
fn set_codes(set: Set, nexuses: usize) -> bool
    ensures { result ≡ set_codes nexuses set }
{
    let fields = set.fields;
    ((set.owner as usize) < nexuses)
        & (set.scope <= ALL)
        & parameters_code::field_codes(fields)
        & (set.supplemental.count <= SUPPLEMENTAL_MOST)
        & ((set.scope == 0) | (fields.index == ALGORITHM))
}

// Bytes or keys past a length or count are zero.
fn set_tails(set: Set) -> bool
    ensures { result ≡ set_tails set }
{
    let kads = set.fields.kads;
    let supplemental = set.supplemental;
    kad_code::tails_good(kads) & parameters_code::keys_past(supplemental)
}

// A used place 0 has scope ALL and any other used place LOCAL.
fn scope_fits(set: Set, place: usize) -> bool
    ensures { result ≡ scope_fits place set }
{
    (set.scope == 0) | ((place == 0) & (set.scope == ALL)) | ((place != 0) & (set.scope == LOCAL))
}

// What is asked of the set in a place, where the place is used.
pub fn used_fits(set: Set, place: usize, nexuses: usize) -> bool
    ensures { result ≡ used_fits nexuses place set }
{
    (set.scope == 0) || (set_codes(set, nexuses) & set_tails(set) & scope_fits(set, place))
}

// Zero but for the instance number.
fn set_zero(set: Set) -> bool
    ensures { result ≡ set_zero set }
{
    let fields = set.fields;
    let keys = set.supplemental.keys;
    let keys_zero = wire_code::all_zero(&keys);
    (set.owner == 0)
        & (set.scope == 0)
        & parameters_code::fields_zero(fields)
        & (set.supplemental.count == 0)
        & keys_zero
}

// An empty place is zero but for its instance number.
pub fn empty_is_zero(set: Set) -> bool
    ensures { result ≡ empty_is_zero set }
{
    (set.scope != 0) || set_zero(set)
}
