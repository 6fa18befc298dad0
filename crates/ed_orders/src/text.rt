ghost use Rattle.std.specs.Prelude.{◌≡◌, ◌+◌, ◌<◌, ◌≤◌, [], ◌∷◌, ◌++◌, decimal, length, slice_index};
ghost use Rattle.ed_words.specs.Words.{function_of};
ghost use Rattle.ed_codes.specs.Spelling.{letters};
ghost use Rattle.arrayvec.specs.ArrayString.{array_string_len};
ghost use Rattle.ed_orders.specs.Texts.{length_text, number_text, order_text};

use arrayvec::ArrayString;
use ed_codes::{Code, byte_of};
use ed_words::Word;
use itoa::Buffer;

/// The text of an order word: the letter or sign of its function, its number, which is `1024·spare + address`, in
/// decimal unless it is 0, and D or F. It has at most 6 bytes.
pub fn order_text(word: Word) -> ArrayString<12>
    ensures { result.bytes ≡ order_text word }
{
    let mut text = ArrayString::new();
    push_byte(&mut text, function_letter(word));
    push_number(&mut text, (word.value() / 2 % 2048) as u16);
    push_byte(&mut text, length_letter(word));
    text
}

/// The letter or sign of a word's function.
fn function_letter(word: Word) -> u8
    ensures is { result ≡ slice_index letters (function_of word) }
    ensures ascii { result < 128 }
{
    let code = Code::new(word.order().function).unwrap();
    byte_of(code, false)
}

/// D for a long order, F for a short one.
fn length_letter(word: Word) -> u8
    ensures is { result ∷ [] ≡ length_text word }
    ensures ascii { result < 128 }
{
    if word.order().length { b'D' } else { b'F' }
}

/// Writes a number in decimal; 0 is not written.
#[tactic(auto, using(crate::proofs::Numerals::four_digits))]
fn push_number(text: &mut ArrayString<12>, number: u16)
    requires few { number < 2048 }
    requires room { array_string_len text.old + 4 ≤ 12 }
    ensures bytes { text.new.bytes ≡ text.old.bytes ++ number_text number }
    ensures len { array_string_len text.new ≤ array_string_len text.old + 4 }
{
    if number != 0 {
        let mut digits = Buffer::new();
        text.push_str(digits.format(number));
    }
}

/// Writes an ASCII byte.
fn push_byte(text: &mut ArrayString<12>, byte: u8)
    requires ascii { byte < 128 }
    requires room { array_string_len text.old + 1 ≤ 12 }
    ensures bytes { text.new.bytes ≡ text.old.bytes ++ byte ∷ [] }
    ensures len { array_string_len text.new ≡ array_string_len text.old + 1 }
{
    text.push(char::from(byte));
}
