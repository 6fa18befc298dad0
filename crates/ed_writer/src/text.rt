//! Bytes, numbers, names and rows at the end of a text.
ghost use Rattle.std.specs.Prelude.{◌≡◌, ◌++◌, ◌∷◌, [], IfOk, map};
ghost use Rattle.std.specs.Fmt.{decimal};
ghost use Rattle.ed_syntax.specs.Written.{row_letter};

use arrayvec::ArrayVec;
use ed_codes::{Code, byte_of};
use ed_syntax::Name;
use ed_words::NoMemory;
use itoa::Buffer;

/// Adds bytes to a text.
pub(crate) fn push(text: &mut Vec<u8>, bytes: &[u8]) -> Result<(), NoMemory>
    ensures { IfOk result (λ _. text.new.items ≡ text.old.items ++ bytes.now) }
{
    Ok(text.extend_from_slice(bytes)?)
}

/// Adds bytes and then a name.
pub(crate) fn push_named(text: &mut Vec<u8>, before: &[u8], name: &Name) -> Result<(), NoMemory>
    ensures { IfOk result (λ _. text.new.items ≡ text.old.items ++ (before.now ++ name.now)) }
{
    push(text, before)?;
    push(text, name.text().as_bytes())
}

/// Adds the letter or sign of a code.
pub(crate) fn push_letter(text: &mut Vec<u8>, code: Code) -> Result<(), NoMemory>
    ensures { IfOk result (λ _. text.new.items ≡ text.old.items ++ row_letter code ∷ []) }
{
    push(text, &[byte_of(code, false)])
}

/// Adds bytes and then a number in decimal.
pub(crate) fn push_numbered(text: &mut Vec<u8>, before: &[u8], number: u64) -> Result<(), NoMemory>
    ensures { IfOk result (λ _. text.new.items ≡ text.old.items ++ (before.now ++ decimal number)) }
{
    push(text, before)?;
    let mut digits = Buffer::new();
    push(text, digits.format(number).as_bytes())
}

/// Adds bytes, which end with a quote, and then the letters of rows and another quote.
pub(crate) fn push_rows(
    text: &mut Vec<u8>,
    before: &[u8],
    rows: &ArrayVec<Code, 120>,
) -> Result<(), NoMemory>
    ensures { IfOk result (λ _.
        text.new.items ≡ text.old.items ++ (before.now ++ (map row_letter rows.now.items ++ 34 ∷ []))) }
{
    push(text, before)?;
    for row in rows.iter() {
        push_letter(text, *row)?;
    }
    push(text, b"\"")
}
