ghost use Rattle.std.specs.Prelude.{◌≡◌, ◌↔◌, ◌≤◌, ◌<◌, ◌==◌, length, IsNone, IfSome, Some, position};
ghost use Rattle.ed_codes.specs.Spelling.{byte_of, row_of};

use crate::letters;
use std::marker::Model;

/// The code of a tape row or of a printed character, 0 to 31.
#[derive(Clone, Copy, PartialEq, Eq)]
pub struct Code {
    number: u8,
}

impl Model for Code {
    ghost use Rattle.std.specs.Prelude.{ℕ, ◌<◌};

    ghost Value = { ℕ };

    ghost view = { λ c. c.number };

    ghost invariant = { λ c. c.number < 32 };

    ghost inverse = { λ n. record { number = n } };
}

impl Default for Code {
    ghost is_default = { λ c. c ≡ 0 };

    /// Code 0.
    fn default() -> Code {
        Code { number: 0 }
    }
}

/// The codes that the program uses as such, each by the name of its number.
impl Code {
    pub const P: Code = Code { number: letters::P };

    pub const PI: Code = Code {
        number: letters::PI,
    };

    pub const K: Code = Code { number: letters::K };

    pub const F: Code = Code { number: letters::F };

    pub const THETA: Code = Code {
        number: letters::THETA,
    };

    pub const D: Code = Code { number: letters::D };

    pub const H: Code = Code { number: letters::H };
}

/// The letters and signs of the codes 0 to 31.
const LETTERS: &[u8; 32] = b"PQWERTYUIOJ#SZK*.F@D!HNM&LXGABCV";

impl Code {
    /// The code of a number below 32; None for any other.
    pub fn new(n: u8) -> Option<Code>
        ensures none { IsNone result ↔ (32 ≤ n) }
        ensures some { IfSome result (λ c. c ≡ n) }
    {
        if n < 32 {
            Some(Code { number: n })
        } else {
            None
        }
    }

    /// The number, 0 to 31.
    pub fn value(self) -> u8
        ensures is { result ≡ self }
        ensures fits { result < 32 }
    {
        self.number
    }
}

/// The row that a byte of a tape text spells: a digit its number, a letter or sign its code. No other byte spells a
/// row.
pub fn row_of_byte(byte: u8) -> Option<Code>
    ensures { result ≡ row_of byte }
{
    if byte.is_ascii_digit() {
        return Some(Code {
            number: byte - b'0',
        });
    }
    for (number, letter) in LETTERS.iter().enumerate() {
        if *letter == byte {
            return Some(Code {
                number: number as u8,
            });
        }
    }
    None
}

/// The byte that spells a code: a digit if `as_digit` and the code is 0 to 9, else the letter or sign.
pub fn byte_of(code: Code, as_digit: bool) -> u8
    ensures is { result ≡ byte_of code as_digit }
    ensures back { row_of result ≡ Some code }
{
    let number = code.value();
    if as_digit && number < 10 {
        return b'0' + number;
    }
    LETTERS[usize::from(number)]
}
