ghost use Rattle.std.specs.Prelude.{◌≡◌, ◌↔◌, ℕ, ◌+◌, ◌<◌, ◌≤◌, ◌^◌, IsNone, IfSome};

use crate::Order;
use std::marker::Model;

/// A short word of 17 binary digits, read as the number 0 to 131071.
#[derive(Clone, Copy, PartialEq, Eq)]
pub struct Word {
    number: u32,
}

impl Model for Word {
    ghost Value = { ℕ };

    ghost view = { λ w. w.number };

    ghost invariant = { λ w. w.number < 2 ^ 17 };

    ghost inverse = { λ n. record { number = n } };
}

impl Word {
    ghost use Rattle.ed_words.specs.Words.{order_of, word_of};

    /// The word of a number below 131072; None for any other.
    pub fn new(n: u32) -> Option<Word>
        ensures none { IsNone result ↔ (2 ^ 17 ≤ n) }
        ensures some { IfSome result (λ w. w ≡ n) }
    {
        if n < 1 << 17 {
            Some(Word { number: n })
        } else {
            None
        }
    }

    /// The word of a number known to be below 131072.
    pub fn of_number(number: u32) -> Word
        requires { number < 2 ^ 17 }
        ensures { result ≡ number }
    {
        Word { number }
    }

    /// The number, 0 to 131071.
    pub fn value(self) -> u32
        ensures is { result ≡ self }
        ensures fits { result < 2 ^ 17 }
    {
        self.number
    }

    /// The word of an order: `4096·function + 2048·spare + 2·address + length`.
    pub fn of_order(order: Order) -> Word
        requires function { order.function < 32 }
        requires address { order.address < 1024 }
        ensures is { result ≡ word_of order }
        ensures back { order_of result ≡ order }
    {
        Word {
            number: u32::from(order.function) * 4096
                + u32::from(order.spare) * 2048
                + u32::from(order.address) * 2
                + u32::from(order.length),
        }
    }

    /// The four fields of the word.
    pub fn order(self) -> Order
        ensures is { result ≡ order_of self }
        ensures back { word_of result ≡ self }
        ensures function { result.function < 32 }
        ensures address { result.address < 1024 }
    {
        Order {
            function: (self.number >> 12) as u8,
            spare: (self.number >> 11) & 1 == 1,
            address: (self.number >> 1 & 1023) as u16,
            length: self.number & 1 == 1,
        }
    }
}
