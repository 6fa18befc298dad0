//! The store as its two plain lists, as the definition has it.

ghost use Rattle.std.specs.Prelude.{◌<◌};

use ed_words::{Halves, Long, Word};

/// The words of all locations, and the sandwich digits of all pairs.
#[derive(Drop)]
pub struct Plain {
    words: [Word; 1024],
    sandwich: [bool; 512],
}

impl Plain {
    /// 0 everywhere.
    pub fn cleared() -> Plain {
        Plain {
            words: [Word::of_number(0); 1024],
            sandwich: [false; 512],
        }
    }

    /// The word of a location.
    pub fn short(&self, a: u16) -> Word
        requires { a < 1024 }
    {
        self.words[usize::from(a)]
    }

    /// The sandwich digit of a location's pair.
    pub fn sandwich(&self, a: u16) -> bool
        requires { a < 1024 }
    {
        self.sandwich[usize::from(a / 2)]
    }

    /// The long word of a location's pair.
    pub fn long(&self, a: u16) -> Long
        requires { a < 1024 }
    {
        let even = a - a % 2;
        Long::join(Halves {
            odd: self.short(even + 1),
            sandwich: self.sandwich(a),
            even: self.short(even),
        })
    }

    /// Writes a word.
    pub fn put_short(&mut self, a: u16, word: Word)
        requires { a < 1024 }
    {
        self.words[usize::from(a)] = word;
    }

    /// Writes both words of a location's pair and its sandwich digit.
    pub fn put_long(&mut self, a: u16, long: Long)
        requires { a < 1024 }
    {
        let even = usize::from(a - a % 2);
        let halves = long.halves();
        self.words[even] = halves.even;
        self.words[even + 1] = halves.odd;
        self.sandwich[usize::from(a / 2)] = halves.sandwich;
    }
}
