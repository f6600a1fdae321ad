// The Set Data Encryption page: its rules checked, its fields read.
#![tactic(auto)]

ghost use Rattle.std.specs.Prelude.{◌≡◌, ◌≤◌, length};
ghost use Rattle.pointing.specs.Faulted.{faulted};
ghost use Rattle.page.specs.Fields.{set_byte4, set_byte5, key_from, fields_with, list_of};
ghost use Rattle.page.specs.Rules.{open_rules, mode_rules, plain_rules, key_length, key_rules, set_rules, match_rules, supplemental_rules};
ghost use Rattle.page.specs.Check.{supplemental_page, set_page, checked, told};

use answer::{Answer, Refusal};
use answer_code::refusal_of;
use kad::{Kads, Listed};
use page::{Page, SetByte4, SetByte5};
use parameters::{ALL, DISABLE, ENCRYPT, Fields, KEY_SIZE, MIXED, PUBLIC, SUPPLEMENTAL_MOST};
use pointing_code::{check_rule, check_zeros};
use wire_code::byte_at;

const RESERVED_FROM: u8 = 11;

const RESERVED_SIZE: u8 = 7;

const KEY_FROM: usize = 20;

const KEYED_SIZE: usize = KEY_FROM + KEY_SIZE;

// A function and no `From`: the type stands in `page`, and functions on it here.
fn set_byte_4(b: u8) -> SetByte4
    ensures { result ≡ set_byte4 b }
{
    SetByte4 {
        scope: (b >> 5) & 7,
        reserved: (b >> 1) & 15,
        lock: b & 1 == 1,
    }
}

fn set_byte_5(b: u8) -> SetByte5
    ensures { result ≡ set_byte5 b }
{
    SetByte5 {
        ceem: (b >> 6) & 3,
        rdmc: (b >> 4) & 3,
        sdk: (b >> 3) & 1 == 1,
        ckod: (b >> 2) & 1 == 1,
        ckorp: (b >> 1) & 1 == 1,
        ckorl: b & 1 == 1,
    }
}

// The page code and the scope.
#[tactic(auto, using(pointing::proofs::Faulted::tried), unfolding(page::specs::Rules::open_rules))]
fn check_open(page: &[u8]) -> Result<(), Answer>
    ensures { result ≡ faulted (open_rules page.now) }
{
    check_rule(0, wire_code::word_at(page, 0) == 0x10)?;
    check_rule(4, set_byte_4(byte_at(page, 4)).scope <= ALL)
}

// Bytes 4 to 7 of a page with SDK 0.
#[tactic(auto, using(pointing::proofs::Faulted::tried), unfolding(page::specs::Rules::mode_rules))]
fn check_modes(page: &[u8]) -> Result<(), Answer>
    ensures { result ≡ faulted (mode_rules page.now) }
{
    let byte5 = set_byte_5(byte_at(page, 5));
    let encryption = byte_at(page, 6);
    let decryption = byte_at(page, 7);
    check_rule(4, set_byte_4(byte_at(page, 4)).reserved == 0)?;
    check_rule(
        5,
        !(parameters_code::is_encrypt(encryption) & (byte5.rdmc == 1)),
    )?;
    check_rule(
        5,
        !(((byte5.ceem == 2) | (byte5.ceem == 3)) & (decryption == DISABLE)),
    )?;
    check_rule(6, encryption <= ENCRYPT)?;
    check_rule(7, decryption <= MIXED)
}

// Bytes 8 to 17.
#[tactic(auto, using(pointing::proofs::Faulted::tried), unfolding(page::specs::Rules::plain_rules))]
fn check_plain(page: &[u8]) -> Result<(), Answer>
    ensures { result ≡ faulted (plain_rules page.now) }
{
    check_rule(8, byte_at(page, 8) == 1)?;
    check_rule(9, byte_at(page, 9) == 0)?;
    check_rule(10, byte_at(page, 10) == 0)?;
    check_zeros(page, RESERVED_FROM, RESERVED_SIZE)
}

fn key_length(encryption: u8, decryption: u8) -> usize
    ensures { result ≡ key_length encryption decryption }
{
    if parameters_code::needs_key(encryption, decryption) {
        KEY_SIZE
    } else {
        0
    }
}

// The key length field and the key.
#[tactic(auto, using(pointing::proofs::Faulted::tried), unfolding(page::specs::Rules::key_rules))]
fn check_key(page: &[u8], wanted: usize) -> Result<(), Answer>
    ensures { result ≡ faulted (key_rules page.now wanted) }
{
    let length = wire_code::word_at(page, 18);
    check_rule(18, length == wanted)?;
    check_rule(18, KEY_FROM + length <= page.len())
}

// A page with SDK 0 up to the key's end.
#[tactic(auto, using(pointing::proofs::Faulted::joined), unfolding(page::specs::Rules::set_rules))]
fn check_set_rules(page: &[u8]) -> Result<(), Answer>
    ensures { result ≡ faulted (set_rules page.now) }
{
    check_modes(page)?;
    check_plain(page)?;
    check_key(page, key_length(byte_at(page, 6), byte_at(page, 7)))
}

// Bytes 4 to 7 of a page with SDK 1.
#[tactic(auto, using(pointing::proofs::Faulted::tried), unfolding(page::specs::Rules::match_rules))]
fn check_match(page: &[u8], scope: u8, mode: u8) -> Result<(), Answer>
    ensures { result ≡ faulted (match_rules page.now scope mode) }
{
    let byte4 = set_byte_4(byte_at(page, 4));
    check_rule(4, byte4.scope == scope)?;
    check_rule(4, byte4.reserved == 0)?;
    check_rule(7, byte_at(page, 7) == mode)?;
    check_rule(7, parameters_code::is_decrypt_or_mixed(mode))
}

// A page with SDK 1.
#[tactic(auto, using(pointing::proofs::Faulted::joined), unfolding(page::specs::Rules::supplemental_rules, page::specs::Rules::end_rules))]
fn check_supplemental_rules(page: &[u8], scope: u8, mode: u8) -> Result<(), Answer>
    ensures { result ≡ faulted (supplemental_rules page.now scope mode) }
{
    check_match(page, scope, mode)?;
    check_plain(page)?;
    check_key(page, KEY_SIZE)?;
    check_rule(52, page.len() <= KEYED_SIZE)
}

// Without ENCRYPT the list is empty.
fn list_after_key(encryption: u8, rest: &[u8]) -> Listed
    ensures { (result ≡ list_of encryption rest.now) × (result.good ≤ length rest.now) }
{
    if parameters_code::is_encrypt(encryption) {
        return kad_code::read(rest);
    }
    Listed {
        good: 0,
        kads: Kads::NONE,
    }
}

// The fields that make a set, where the key and the key-associated data are read already.
fn set_fields(page: &[u8], key: [u8; 32], kads: Kads) -> Fields
    ensures { result ≡ fields_with page.now key kads }
{
    let encryption = byte_at(page, 6);
    let byte5 = set_byte_5(byte_at(page, 5));
    Fields {
        encryption,
        decryption: byte_at(page, 7),
        index: byte_at(page, 8),
        ceem: byte5.ceem,
        rdmd: parameters_code::is_encrypt(encryption) & (byte5.rdmc == 3),
        ckod: byte5.ckod,
        ckorp: byte5.ckorp,
        ckorl: byte5.ckorl,
        key,
        kads,
    }
}

// A page that is LOCAL or ALL with SDK 0.
fn read_set(page: &[u8]) -> Result<Page, Refusal>
    requires { key_from ≤ length page.now }
    ensures { result ≡ told (set_page page.now) }
{
    if let Err(answer) = check_set_rules(page) {
        return Err(refusal_of(answer));
    }
    let start = KEY_FROM + wire_code::word_at(page, 18);
    let list = list_after_key(page[6], &page[start..]);
    let end = start + list.good;
    if let Err(answer) = check_rule(end as u16, page.len() <= end) {
        return Err(refusal_of(answer));
    }
    let key = wire_code::padded(&page[KEY_FROM..start]);
    let byte4 = set_byte_4(page[4]);
    Ok(Page {
        scope: byte4.scope,
        lock: byte4.lock,
        supplemental: false,
        fields: set_fields(page, key, list.kads),
    })
}

// A page that is LOCAL or ALL with SDK 1.
fn read_supplemental(page: &[u8], scope: u8, mode: u8, count: u8) -> Result<Page, Refusal>
    requires { key_from ≤ length page.now }
    ensures { result ≡ told (supplemental_page page.now scope mode count) }
{
    if let Err(answer) = check_supplemental_rules(page, scope, mode) {
        return Err(refusal_of(answer));
    }
    if SUPPLEMENTAL_MOST <= count {
        return Err(refusal_of(Answer::FifthSupplementalKey));
    }
    let start = KEY_FROM + wire_code::word_at(page, 18);
    let mut fields = Fields::NONE;
    fields.key = wire_code::padded(&page[KEY_FROM..start]);
    Ok(Page {
        scope: set_byte_4(page[4]).scope,
        lock: false,
        supplemental: true,
        fields,
    })
}

// The whole check, where the nexus's scope, its set's decryption mode and its count of supplemental keys are given.
pub fn check(page: &[u8], scope: u8, mode: u8, count: u8) -> Result<Page, Refusal>
    ensures { result ≡ told (checked page.now scope mode count) }
{
    if wire_code::is_length_wrong(page, KEY_FROM) {
        return Err(refusal_of(Answer::PageLengthWrong));
    }
    if let Err(answer) = check_open(page) {
        return Err(refusal_of(answer));
    }
    let byte4 = set_byte_4(page[4]);
    if byte4.scope == PUBLIC {
        // Only SCOPE and LOCK are read.
        return Ok(Page {
            lock: byte4.lock,
            ..Page::NONE
        });
    }
    if set_byte_5(page[5]).sdk {
        return read_supplemental(page, scope, mode, count);
    }
    read_set(page)
}
