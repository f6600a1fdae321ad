// The pages that there are, the four response pages written, and the status page read.
#![tactic(auto)]

ghost use Rattle.std.specs.Prelude.{◌≡◌, ◌≤◌, ◌∷◌, ◌++◌, length};
ghost use Rattle.wire.specs.Numbers.{two};
ghost use Rattle.wire.specs.Buffers.{Shown};
ghost use Rattle.pointing.specs.Faulted.{faulted};
ghost use Rattle.status.specs.Pages.{status_code, is_in_page, is_out_page, supported_in, supported_out, capabilities};
ghost use Rattle.status.specs.Bytes.{status_byte4, joined4, status_byte12, joined12};
ghost use Rattle.status.specs.Status.{status_fields, status_bytes, status_with};
ghost use Rattle.status.specs.Rules.{descriptors_from, scope_rules, field_rules, head_rules};
ghost use Rattle.status.specs.Reading.{values_with, read_status, told, ruled};

use answer::{Answer, Refusal};
use device::Set;
use kad::Kads;
use parameters::{ALL, ENCRYPT, MIXED};
use pointing_code::{check_rule, check_zeros};
use status::{Status, StatusByte4, StatusByte12};
use wire_code::byte_at;

const DESCRIPTORS_FROM: usize = 24;

const ZEROS_FROM: u8 = 13;

const ZEROS_SIZE: u8 = 11;

pub fn is_in_page(code: u16) -> bool
    ensures { result ≡ is_in_page code }
{
    (code == 0x00) | (code == 0x01) | (code == 0x12) | (code == 0x20)
}

pub fn is_out_page(code: u16) -> bool
    ensures { result ≡ is_out_page code }
{
    code == 0x10
}

// Page 0000h. Each fixed page is one call of `wire_code::show`, which takes any page; a page's name says what it promises.
pub fn write_supported_in(buffer: &mut [u8]) -> usize
    ensures { Shown supported_in buffer.old result buffer.new }
{
    let page = [0u8, 0, 0, 8, 0, 0, 0, 1, 0, 0x12, 0, 0x20];
    wire_code::show(&page, buffer)
}

// Page 0001h.
pub fn write_supported_out(buffer: &mut [u8]) -> usize
    ensures { Shown supported_out buffer.old result buffer.new }
{
    let page = [0u8, 1, 0, 2, 0, 0x10];
    wire_code::show(&page, buffer)
}

// Page 0012h.
pub fn write_capabilities(buffer: &mut [u8]) -> usize
    ensures { Shown capabilities buffer.old result buffer.new }
{
    let page = [0u8, 0x12, 0, 0x0C, 1, 7, 0, 7, 0, 0, 0, 0, 0, 0, 0, 0];
    wire_code::show(&page, buffer)
}

// A function and no `From`: the type stands in `status`, and functions on it here.
fn status_byte_4(b: u8) -> StatusByte4
    ensures { result ≡ status_byte4 b }
{
    StatusByte4 {
        nexus_scope: b >> 5,
        zeros: (b >> 3) & 3,
        set_scope: b & 7,
    }
}

fn joined_4(nexus_scope: u8, set_scope: u8) -> u8
    ensures { result ≡ joined4 nexus_scope set_scope }
{
    (nexus_scope & 7) << 5 | (set_scope & 7)
}

fn status_byte_12(b: u8) -> StatusByte12
    ensures { result ≡ status_byte12 b }
{
    StatusByte12 {
        zeros: b >> 3,
        ceems: (b >> 1) & 3,
        rdmd: b & 1 == 1,
    }
}

fn joined_12(ceems: u8, rdmd: bool) -> u8
    ensures { result ≡ joined12 ceems rdmd }
{
    (ceems & 3) << 1 | rdmd as u8
}

// The status page's first 24 bytes; after is the page length.
fn status_head(s: Status, after: u8) -> [u8; 24]
    ensures { result ≡ two status_code ++ 0 ∷ after ∷ status_fields s }
{
    let number = wire_code::four(s.number);
    [
        0u8,
        0x20,
        0,
        after,
        joined_4(s.nexus_scope, s.set_scope),
        s.encryption,
        s.decryption,
        s.index,
        number[0],
        number[1],
        number[2],
        number[3],
        joined_12(s.ceems, s.rdmd),
        0,
        0,
        0,
        0,
        0,
        0,
        0,
        0,
        0,
        0,
        0,
    ]
}

// Page 0020h.
pub fn write_status(s: Status, buffer: &mut [u8]) -> usize
    ensures { Shown (status_bytes s) buffer.old result buffer.new }
{
    let kads = s.kads;
    let list = kad_code::write(kads);
    let length = list.length;
    let bytes = list.bytes;
    let head = status_head(s, (20 + length) as u8);
    wire_code::put(buffer, 0, &head);
    wire_code::put(buffer, DESCRIPTORS_FROM, &bytes[..length]);
    DESCRIPTORS_FROM + length
}

// The values told of a nexus with a scope, of the set that it uses.
pub fn status_with(scope: u8, set: Set) -> Status
    ensures { result ≡ status_with scope set }
{
    let kads = set.fields.kads;
    Status {
        nexus_scope: scope,
        set_scope: set.scope,
        encryption: set.fields.encryption,
        decryption: set.fields.decryption,
        index: set.fields.index,
        number: set.number,
        ceems: set.fields.ceem,
        rdmd: set.fields.rdmd,
        kads,
    }
}

// The page code and byte 4.
#[tactic(auto, using(pointing::proofs::Faulted::tried), unfolding(status::specs::Rules::scope_rules))]
fn check_scopes(page: &[u8]) -> Result<(), Answer>
    ensures { result ≡ faulted (scope_rules page.now) }
{
    let byte4 = status_byte_4(byte_at(page, 4));
    check_rule(0, wire_code::word_at(page, 0) == 0x20)?;
    check_rule(4, byte4.nexus_scope <= ALL)?;
    check_rule(4, byte4.zeros == 0)?;
    check_rule(4, byte4.set_scope <= ALL)
}

// Bytes 5 to 23.
#[tactic(auto, using(pointing::proofs::Faulted::tried), unfolding(status::specs::Rules::field_rules))]
fn check_fields(page: &[u8]) -> Result<(), Answer>
    ensures { result ≡ faulted (field_rules page.now) }
{
    check_rule(5, byte_at(page, 5) <= ENCRYPT)?;
    check_rule(6, byte_at(page, 6) <= MIXED)?;
    check_rule(7, byte_at(page, 7) <= 1)?;
    check_rule(12, status_byte_12(byte_at(page, 12)).zeros == 0)?;
    check_zeros(page, ZEROS_FROM, ZEROS_SIZE)
}

// The bytes before the descriptors.
#[tactic(auto, using(pointing::proofs::Faulted::joined), unfolding(status::specs::Rules::head_rules))]
fn check_head(page: &[u8]) -> Result<(), Answer>
    ensures { result ≡ faulted (head_rules page.now) }
{
    check_scopes(page)?;
    check_fields(page)
}

// The values that a page's bytes tell, with its key-associated data.
fn values_with(page: &[u8], kads: Kads) -> Status
    ensures { result ≡ values_with page.now kads }
{
    let byte4 = status_byte_4(byte_at(page, 4));
    let byte12 = status_byte_12(byte_at(page, 12));
    Status {
        nexus_scope: byte4.nexus_scope,
        set_scope: byte4.set_scope,
        encryption: byte_at(page, 5),
        decryption: byte_at(page, 6),
        index: byte_at(page, 7),
        number: wire_code::number_at(page, 8),
        ceems: byte12.ceems,
        rdmd: byte12.rdmd,
        kads,
    }
}

// The values, or the answer that refuses the page.
fn read_values(page: &[u8]) -> Result<Status, Answer>
    ensures { result ≡ ruled (read_status page.now) }
{
    if wire_code::is_length_wrong(page, DESCRIPTORS_FROM) {
        return Err(Answer::PageLengthWrong);
    }
    check_head(page)?;
    let list = kad_code::read(&page[DESCRIPTORS_FROM..]);
    let end = DESCRIPTORS_FROM + list.good;
    check_rule(end as u16, page.len() <= end)?;
    Ok(values_with(page, list.kads))
}

// Reads a status page: its values, or answer 7, or answer 8 with the lowest faulty byte.
pub fn read_status(page: &[u8]) -> Result<Status, Refusal>
    ensures { result ≡ told (read_status page.now) }
{
    match read_values(page) {
        Ok(status) => Ok(status),
        Err(answer) => Err(answer_code::refusal_of(answer)),
    }
}
