//! The letters that a program is given.

ghost use Rattle.std.specs.Prelude.{◌≡◌, None, Some, IfErr, OnOk};
ghost use Rattle.std.specs.List.{list_all};
ghost use Rattle.ed_programs.specs.Hello.{is_capital, letters_refusal};

use crate::refusal::Refusal;

/// Checks that a text is 1 to `most` capital letters.
pub fn check_letters(letters: &str, most: usize) -> Result<(), Refusal>
    ensures ok { OnOk result (letters_refusal most letters.now ≡ None) }
    ensures err { IfErr result (λ refusal. letters_refusal most letters.now ≡ Some refusal) }
{
    if letters.is_empty() || most < letters.len() {
        return Err(Refusal::Length);
    }
    if !are_capitals(letters.as_bytes()) {
        return Err(Refusal::Letter);
    }
    Ok(())
}

/// Whether all of these bytes are capital letters.
fn are_capitals(bytes: &[u8]) -> bool
    ensures { result ≡ list_all is_capital bytes.now }
{
    bytes.iter().all(u8::is_ascii_uppercase)
}
