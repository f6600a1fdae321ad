// What makes the parts of a set good or zero.
#![tactic(auto)]

ghost use Rattle.std.specs.Prelude.{◌≡◌};
ghost use Rattle.parameters.specs.Codes.{encrypts, decrypts, needs_key};
ghost use Rattle.parameters.specs.Good.{field_codes, keys_past, fields_zero};

use parameters::{ALGORITHM, DECRYPT, ENCRYPT, Fields, KEY_SIZE, MIXED, Supplemental};

pub fn is_encrypt(mode: u8) -> bool
    ensures { result ≡ encrypts mode }
{
    mode == ENCRYPT
}

pub fn is_decrypt_or_mixed(mode: u8) -> bool
    ensures { result ≡ decrypts mode }
{
    (mode == DECRYPT) | (mode == MIXED)
}

// A key goes with the modes.
pub fn needs_key(encryption: u8, decryption: u8) -> bool
    ensures { result ≡ needs_key encryption decryption }
{
    is_encrypt(encryption) | is_decrypt_or_mixed(decryption)
}

// Codes and lengths are in range.
pub fn field_codes(f: Fields) -> bool
    ensures { result ≡ field_codes f }
{
    let kads = f.kads;
    (f.encryption <= ENCRYPT)
        & (f.decryption <= MIXED)
        & (f.index <= ALGORITHM)
        & (f.ceem <= 3)
        & kad_code::lengths_good(kads)
}

// Keys past the count are zero.
pub fn keys_past(s: Supplemental) -> bool
    ensures { result ≡ keys_past s }
{
    let keys = s.keys;
    wire_code::zero_from(&keys, s.count as usize * KEY_SIZE)
}

pub fn fields_zero(f: Fields) -> bool
    ensures { result ≡ fields_zero f }
{
    let key = f.key;
    let kads = f.kads;
    let key_zero = wire_code::all_zero(&key);
    (f.encryption == 0)
        & (f.decryption == 0)
        & (f.index == 0)
        & (f.ceem == 0)
        & !f.rdmd
        & !f.ckod
        & !f.ckorp
        & !f.ckorl
        & key_zero
        & kad_code::is_zero(kads)
}
