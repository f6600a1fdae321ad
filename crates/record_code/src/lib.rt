// The bytes of a set, of a nexus and of key-associated data, in the order of docs/CONSOLE.md, and back, and a word's; numbers are big-endian.
#![tactic(auto)]

ghost use Rattle.std.specs.Prelude.{◌≡◌, ◌∷◌, drop};
ghost use Rattle.wire.specs.Numbers.{wide, flag_at};
ghost use Rattle.record.specs.Bytes.{kads_bytes, set_head, set_bytes, nexus_bytes};
ghost use Rattle.wire.specs.Buffers.{bytes_at};
ghost use Rattle.record.specs.Reading.{kads_read, fields_read, set_read, nexus_read};

use device::{Marks, Nexus, Set};
use kad::{Kad, Kads};
use parameters::{Fields, Supplemental};

pub const KADS_SIZE: usize = 46;

pub const SET_SIZE: usize = 221;

pub const NEXUS_SIZE: usize = 13;

pub const WORD_SIZE: usize = 8;

const HEAD_SIZE: usize = 14;

const KEYS_SIZE: usize = 129;

const KEYS_FROM: usize = 46;

const KADS_FROM: usize = 175;

pub fn kads_bytes(kads: Kads) -> [u8; KADS_SIZE]
    ensures { result ≡ kads_bytes kads }
{
    let u = kads.ukad.bytes;
    let a = kads.akad.bytes;
    let u_length = [kads.ukad.length];
    let a_length = [kads.akad.length];
    let mut out = [0u8; KADS_SIZE];
    wire_code::put(&mut out, 0, &u_length);
    wire_code::put(&mut out, 1, &u);
    wire_code::put(&mut out, 33, &a_length);
    wire_code::put(&mut out, 34, &a);
    out
}

// The bytes of a set before its key.
fn set_head(set: Set) -> [u8; HEAD_SIZE]
    ensures { result ≡ set_head set }
{
    let number = wire_code::four(set.number);
    [
        set.owner,
        set.scope,
        set.fields.encryption,
        set.fields.decryption,
        set.fields.index,
        number[0],
        number[1],
        number[2],
        number[3],
        set.fields.ceem,
        set.fields.rdmd as u8,
        set.fields.ckod as u8,
        set.fields.ckorp as u8,
        set.fields.ckorl as u8,
    ]
}

// The count of supplemental keys, and the keys.
fn supplemental_bytes(s: Supplemental) -> [u8; KEYS_SIZE]
    ensures { result ≡ s.count ∷ s.keys }
{
    let count = [s.count];
    let keys = s.keys;
    let mut out = [0u8; KEYS_SIZE];
    wire_code::put(&mut out, 0, &count);
    wire_code::put(&mut out, 1, &keys);
    out
}

pub fn set_bytes(set: Set) -> [u8; SET_SIZE]
    ensures { result ≡ set_bytes set }
{
    let head = set_head(set);
    let key = set.fields.key;
    let supplemental = set.supplemental;
    let keys = supplemental_bytes(supplemental);
    let kads = set.fields.kads;
    let last = kads_bytes(kads);
    let mut out = [0u8; SET_SIZE];
    wire_code::put(&mut out, 0, &head);
    wire_code::put(&mut out, HEAD_SIZE, &key);
    wire_code::put(&mut out, KEYS_FROM, &keys);
    wire_code::put(&mut out, KADS_FROM, &last);
    out
}

pub fn nexus_bytes(nexus: Nexus) -> [u8; NEXUS_SIZE]
    ensures { result ≡ nexus_bytes nexus }
{
    let saved = wire_code::four(nexus.saved);
    let last_local = wire_code::four(nexus.last_local);
    [
        nexus.scope,
        nexus.lock as u8,
        saved[0],
        saved[1],
        saved[2],
        saved[3],
        last_local[0],
        last_local[1],
        last_local[2],
        last_local[3],
        nexus.marks.registered as u8,
        nexus.marks.another as u8,
        nexus.marks.vendor as u8,
    ]
}

// Here and below, a byte past the end is 0.
fn flag_at(part: &[u8], at: usize) -> bool
    ensures { result ≡ flag_at part.now at }
{
    wire_code::byte_at(part, at) == 1
}

fn bytes_at<const N: usize>(part: &[u8], at: usize) -> [u8; N]
    ensures { result ≡ bytes_at N part.now at }
{
    wire_code::padded(wire_code::rest(part, at))
}

// The key-associated data in a part's first bytes.
pub fn kads_read(part: &[u8]) -> Kads
    ensures { result ≡ kads_read part.now }
{
    let u = bytes_at(part, 1);
    let a = bytes_at(part, 34);
    Kads {
        ukad: Kad {
            length: wire_code::byte_at(part, 0),
            bytes: u,
        },
        akad: Kad {
            length: wire_code::byte_at(part, 33),
            bytes: a,
        },
    }
}

fn fields_read(part: &[u8]) -> Fields
    ensures { result ≡ fields_read part.now }
{
    let key = bytes_at(part, HEAD_SIZE);
    let kads = kads_read(wire_code::rest(part, KADS_FROM));
    Fields {
        encryption: wire_code::byte_at(part, 2),
        decryption: wire_code::byte_at(part, 3),
        index: wire_code::byte_at(part, 4),
        ceem: wire_code::byte_at(part, 9),
        rdmd: flag_at(part, 10),
        ckod: flag_at(part, 11),
        ckorp: flag_at(part, 12),
        ckorl: flag_at(part, 13),
        key,
        kads,
    }
}

// The set in a part's first bytes.
pub fn set_read(part: &[u8]) -> Set
    ensures { result ≡ set_read part.now }
{
    let fields = fields_read(part);
    let keys = bytes_at(part, KEYS_FROM + 1);
    Set {
        owner: wire_code::byte_at(part, 0),
        scope: wire_code::byte_at(part, 1),
        number: wire_code::number_at(part, 5),
        fields,
        supplemental: Supplemental {
            count: wire_code::byte_at(part, KEYS_FROM),
            keys,
        },
    }
}

// The nexus in a part's first bytes.
pub fn nexus_read(part: &[u8]) -> Nexus
    ensures { result ≡ nexus_read part.now }
{
    Nexus {
        scope: wire_code::byte_at(part, 0),
        lock: flag_at(part, 1),
        saved: wire_code::number_at(part, 2),
        last_local: wire_code::number_at(part, 6),
        marks: Marks {
            registered: flag_at(part, 10),
            another: flag_at(part, 11),
            vendor: flag_at(part, 12),
        },
    }
}

// The set that starts at an index. One call here and in the two below: a reader handed over would be no shorter.
pub fn set_at(bytes: &[u8], at: usize) -> Set
    ensures { result ≡ set_read (drop at bytes.now) }
{
    set_read(wire_code::rest(bytes, at))
}

// The nexus that starts at an index.
pub fn nexus_at(bytes: &[u8], at: usize) -> Nexus
    ensures { result ≡ nexus_read (drop at bytes.now) }
{
    nexus_read(wire_code::rest(bytes, at))
}

// The word that starts at an index.
pub fn word_at(bytes: &[u8], at: usize) -> u64
    ensures { result ≡ wide (drop at bytes.now) }
{
    wire_code::wide(wire_code::rest(bytes, at))
}
