// The rules of a page tried one after another: answer 8 at the first that breaks.
#![tactic(auto)]

ghost use Rattle.std.specs.Prelude.{◌≡◌, [], ◌∷◌, take, drop};
ghost use Rattle.wire.specs.Rules.{rule, zero_rules};
ghost use Rattle.pointing.specs.Faulted.{faulted};

use answer::Answer;

// One rule, which points to a byte.
pub fn check_rule(byte: u16, holds: bool) -> Result<(), Answer>
    ensures { result ≡ faulted (rule byte holds ∷ []) }
{
    if holds {
        Ok(())
    } else {
        Err(Answer::FieldWrong(byte))
    }
}

// Bytes of a page that are zero, each a field of its own: as many as size says, or as there are, from a byte of the page on.
pub fn check_zeros(page: &[u8], from: u8, size: u8) -> Result<(), Answer>
    ensures { result ≡ faulted (zero_rules from (take size (drop from page.now))) }
{
    let bytes = wire_code::part(page, from as usize, size as usize);
    for (i, b) in bytes.iter().enumerate() {
        check_rule(from as u16 + i as u16, *b == 0)?;
    }
    Ok(())
}
