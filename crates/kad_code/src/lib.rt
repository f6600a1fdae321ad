// Key-associated data: read from a list of descriptors, and written as one.
#![tactic(auto)]

ghost use Rattle.std.specs.Prelude.{◌≡◌, ◌+◌, ◌<◌, ◌≤◌, [], ◌∷◌, length};
ghost use Rattle.std.proofs.lemmas.List.Edits.{sets};
ghost use Rattle.wire.specs.Rules.{rule};
ghost use Rattle.wire.specs.Tried.{tried};
ghost use Rattle.kad.specs.Kad.{u_most, with_data, lengths_good, tails_good, kads_zero};
ghost use Rattle.kad.specs.Reading.{most, rising, descriptor_rules, listed, read_kads};
ghost use Rattle.kad.specs.Writing.{descriptor, list_most, written};

use kad::{Kad, Kads, Listed, Written};

const U_MOST: usize = 32;

const A_MOST: usize = 12;

const DESCRIPTOR_HEAD: usize = 4;

const LIST_MOST: usize = 52;

pub fn lengths_good(kads: Kads) -> bool
    ensures { result ≡ lengths_good kads }
{
    (kads.ukad.length as usize <= U_MOST) & (kads.akad.length as usize <= A_MOST)
}

pub fn tails_good(kads: Kads) -> bool
    ensures { result ≡ tails_good kads }
{
    let u = kads.ukad.bytes;
    let a = kads.akad.bytes;
    wire_code::zero_from(&u, kads.ukad.length as usize)
        & wire_code::zero_from(&a, kads.akad.length as usize)
}

pub fn is_zero(kads: Kads) -> bool
    ensures { result ≡ kads_zero kads }
{
    let u = kads.ukad.bytes;
    let a = kads.akad.bytes;
    (kads.ukad.length == 0)
        & wire_code::all_zero(&u)
        & (kads.akad.length == 0)
        & wire_code::all_zero(&a)
}

// The most bytes that a descriptor of a type has.
fn limit(kind: u8) -> usize
    ensures { result ≡ most kind }
{
    if kind == 0 { U_MOST } else { A_MOST }
}

// Whether a type is above the last one seen.
fn rises(seen: Option<u8>, kind: u8) -> bool
    ensures { result ≡ rising seen kind }
{
    match seen {
        None => true,
        Some(last) => last < kind,
    }
}

// One rule, which points to a byte of the list: where the list starts in its page, and so the answer, its caller knows.
fn check_rule(byte: usize, holds: bool) -> Result<(), usize>
    ensures { result ≡ tried (rule byte holds ∷ []) }
{
    if holds { Ok(()) } else { Err(byte) }
}

// A list's first descriptor, or the byte of its first fault.
#[tactic(auto, using(wire::proofs::Tried::in_turn), unfolding(kad::specs::Reading::descriptor_rules))]
fn check_descriptor(list: &[u8], seen: Option<u8>) -> Result<(), usize>
    requires { 0 < length list.now }
    ensures { result ≡ tried (descriptor_rules list.now seen) }
{
    let kind = list[0];
    check_rule(0, kind <= 1)?;
    check_rule(0, rises(seen, kind))?;
    check_rule(0, DESCRIPTOR_HEAD <= list.len())?;
    let length = wire_code::word_at(list, 2);
    check_rule(0, DESCRIPTOR_HEAD + length <= list.len())?;
    check_rule(1, list[1] == 0)?;
    check_rule(2, length != 0)?;
    check_rule(2, length <= limit(kind))
}

// With the data of one type put in.
fn with_data(kads: Kads, kind: u8, bytes: &[u8]) -> Kads
    requires { length bytes.now ≤ most kind }
    ensures { result ≡ with_data kads kind bytes.now }
{
    let length = bytes.len() as u8;
    if kind == 0 {
        let ukad = Kad {
            length,
            bytes: wire_code::padded(bytes),
        };
        Kads { ukad, ..kads }
    } else {
        let akad = Kad {
            length,
            bytes: wire_code::padded(bytes),
        };
        Kads { akad, ..kads }
    }
}

// Reads one descriptor and hands the rest of the list on, with the last type seen.
fn read_from(list: &[u8], seen: Option<u8>, kads: Kads) -> Listed
    ensures { result ≡ listed (length list.now) list.now seen kads }
{
    if list.is_empty() {
        return Listed { good: 0, kads };
    }
    if let Err(fault) = check_descriptor(list, seen) {
        return Listed { good: fault, kads };
    }
    let kind = list[0];
    let next = DESCRIPTOR_HEAD + wire_code::word_at(list, 2);
    let more = with_data(kads, kind, &list[DESCRIPTOR_HEAD..next]);
    let rest = read_from(&list[next..], Some(kind), more);
    Listed {
        good: next + rest.good,
        kads: rest.kads,
    }
}

// Reads a list of descriptors: whole and well formed where all its bytes are good.
pub fn read(list: &[u8]) -> Listed
    ensures { (result ≡ read_kads list.now) × (result.good ≤ length list.now) }
{
    read_from(list, None, Kads::NONE)
}

// Stores a descriptor at an index, or nothing where there are no data; answers the index after it.
fn put_descriptor(buffer: &mut [u8], at: usize, kind: u8, bytes: &[u8]) -> usize
    requires { (at ≤ list_most) × (length bytes.now ≤ u_most) }
    ensures { (result ≡ at + length (descriptor kind bytes.now)) × (buffer.new ≡ sets buffer.old at (descriptor kind bytes.now)) }
{
    if bytes.is_empty() {
        return at;
    }
    let length = bytes.len();
    let head = [kind, 0u8, 0, length as u8];
    wire_code::put(buffer, at, &head);
    wire_code::put(buffer, at + DESCRIPTOR_HEAD, bytes);
    at + DESCRIPTOR_HEAD + length
}

// Writes the descriptors, U-KAD first.
pub fn write(kads: Kads) -> Written
    ensures { (result ≡ written kads) × (result.length ≤ list_most) }
{
    let u = kads.ukad.bytes;
    let a = kads.akad.bytes;
    let u_length = (kads.ukad.length as usize).min(U_MOST);
    let a_length = (kads.akad.length as usize).min(A_MOST);
    let mut bytes = [0u8; LIST_MOST];
    let next = put_descriptor(&mut bytes, 0, 0, &u[..u_length]);
    let length = put_descriptor(&mut bytes, next, 1, &a[..a_length]);
    Written { length, bytes }
}
