ghost use Rattle.std.specs.Prelude.{◌≡◌, ◌↔◌, ℕ, ◌+◌, ◌*◌, ◌<◌, ◌≤◌, ◌^◌, IsNone, IfSome};

use crate::Word;
use std::marker::Model;

/// A long word of 35 binary digits, read as the number 0 to 2^35 - 1.
#[derive(Clone, Copy)]
pub struct Long {
    number: u64,
}

impl Model for Long {
    ghost Value = { ℕ };

    ghost view = { λ l. l.number };

    ghost invariant = { λ l. l.number < 2 ^ 35 };

    ghost inverse = { λ n. record { number = n } };
}

/// The parts of a long word in the store: the words at the odd and at the even location of a pair, and the sandwich
/// digit between them.
#[derive(Clone, Copy)]
pub struct Halves {
    /// The word at the odd location, the most significant half of the long word.
    pub odd: Word,
    /// The sandwich digit.
    pub sandwich: bool,
    /// The word at the even location, the least significant half of the long word.
    pub even: Word,
}

impl Long {
    ghost use Rattle.ed_words.specs.Words.{halves_of, long_of};

    /// The long word of a number below 2^35; None for any other.
    pub fn new(n: u64) -> Option<Long>
        ensures none { IsNone result ↔ (2 ^ 35 ≤ n) }
        ensures some { IfSome result (λ l. l ≡ n) }
    {
        if n < 1 << 35 {
            Some(Long { number: n })
        } else {
            None
        }
    }

    /// The long word of a number known to be below 2^35.
    pub fn of_number(number: u64) -> Long
        requires { number < 2 ^ 35 }
        ensures { result ≡ number }
    {
        Long { number }
    }

    /// The number, 0 to 2^35 - 1.
    pub fn value(self) -> u64
        ensures is { result ≡ self }
        ensures fits { result < 2 ^ 35 }
    {
        self.number
    }

    /// The parts of the long word.
    pub fn halves(self) -> Halves
        ensures is { result ≡ halves_of self }
        ensures back { long_of result ≡ self }
    {
        Halves {
            odd: Word::of_number((self.number >> 18) as u32),
            sandwich: (self.number >> 17) & 1 == 1,
            even: Word::of_number((self.number & 0x1_FFFF) as u32),
        }
    }

    /// The long word of three parts: `odd·2^18 + sandwich·2^17 + even`.
    pub fn join(halves: Halves) -> Long
        ensures is { result ≡ long_of halves }
        ensures back { halves_of result ≡ halves }
    {
        Long {
            number: (u64::from(halves.odd.value()) << 18)
                + (u64::from(halves.sandwich) << 17)
                + u64::from(halves.even.value()),
        }
    }

    /// The long word with a short word as its most significant half: `word·2^18`, which is what a short order reads.
    pub fn of_short(word: Word) -> Long
        ensures { result ≡ word * 2 ^ 18 }
    {
        Long {
            number: u64::from(word.value()) << 18,
        }
    }
}
