ghost use Rattle.std.specs.Prelude.{◌≡◌, ◌<◌, ◌≤◌, ◌^◌, ◌*◌, ◌/◌, ◌%◌, ◌+◌, ◌-◌, ◌↔◌, IsTrue, IsNone, IfSome, pos};
ghost use Rattle.std.specs.Prelude.{neg_ℤ, ◌≤ℤ◌, ◌*ℤ◌};
ghost use Rattle.ed_words.specs.Signed.{signed};
ghost use Rattle.ed_acc.specs.Arithmetic.{plus_common, left71, minus71, minus_product, plus71, plus_product, right71};
ghost use Rattle.ed_acc.specs.Arithmetic.{common, modulo71, product};

use ed_words::{Long, Word};
use std::marker::Model;

/// The number of values of an accumulator.
const MODULUS: u128 = 1 << 71;

/// The accumulator: 71 binary digits, read as the number 0 to 2^71 - 1, in units of 2^-70. As a fraction it is negative
/// from 2^70 upwards.
#[derive(Clone, Copy)]
pub struct Acc {
    /// The number times 2^57: its most significant digit is that of the 128, so digits shifted out at the top are lost.
    digits: u128,
}

impl Model for Acc {
    ghost use Rattle.std.specs.Prelude.{ℕ, ◌*◌, ◌/◌, ◌%◌, ◌^◌, ◌≡◌};
    ghost use Rattle.std.proofs.Common.{◌+◌, ◌∙◌, ap, sym, add-zero};
    ghost use Rattle.std.proofs.lemmas.Nat.{div-add-mod'};

    ghost Value = { ℕ };

    ghost view = { λ a. a.digits / 2 ^ 57 };

    ghost invariant = { λ a. a.digits % 2 ^ 57 ≡ 0 };

    ghost inverse = { λ n. record { digits = n * 2 ^ 57 } };

    ghost inverse_ok = { λ a h. let units = a.digits / 2 ^ 57 * 2 ^ 57 in
        let whole = sym (add-zero units) ∙ ap (λ rest. units + rest) (sym h) ∙ div-add-mod' a.digits (2 ^ 57) in
        λ i. record { digits = whole i } };
}

impl Acc {
    /// An accumulator that holds 0.
    pub fn cleared() -> Acc
        ensures { result ≡ 0 }
    {
        Acc { digits: 0 }
    }

    /// An accumulator that holds a number; None if the number has more than 71 digits.
    pub fn new(number: u128) -> Option<Acc>
        ensures none { IsNone result ↔ (2 ^ 71 ≤ number) }
        ensures some { IfSome result (λ a. a ≡ number) }
    {
        if number < MODULUS {
            Some(Acc {
                digits: number << 57,
            })
        } else {
            None
        }
    }

    /// The number, 0 to 2^71 - 1.
    pub fn value(&self) -> u128
        ensures is { result ≡ self.now }
        ensures fits { result < 2 ^ 71 }
    {
        self.digits >> 57
    }

    /// Whether the fraction is negative.
    pub fn is_negative(&self) -> bool
        ensures { IsTrue result ↔ (2 ^ 70 ≤ self.now) }
    {
        self.digits >= 1 << 127
    }

    /// Adds a short word to the most significant digits.
    #[tactic(auto, unfolding(crate::specs::Arithmetic::plus71))]
    pub fn add_short(&mut self, word: Word)
        ensures { self.new ≡ plus71 self.old (word * 2 ^ 18 * 2 ^ 36) }
    {
        self.add(u128::from(word.value()) << 54);
    }

    /// Adds a long word to the most significant digits.
    #[tactic(auto, unfolding(crate::specs::Arithmetic::plus71))]
    pub fn add_long(&mut self, long: Long)
        ensures { self.new ≡ plus71 self.old (long * 2 ^ 36) }
    {
        self.add(u128::from(long.value()) << 36);
    }

    /// Subtracts a short word from the most significant digits.
    #[tactic(auto, unfolding(crate::specs::Arithmetic::minus71))]
    pub fn sub_short(&mut self, word: Word)
        ensures { self.new ≡ minus71 self.old (word * 2 ^ 18 * 2 ^ 36) }
    {
        self.subtract(u128::from(word.value()) << 54);
    }

    /// Subtracts a long word from the most significant digits.
    #[tactic(auto, unfolding(crate::specs::Arithmetic::minus71))]
    pub fn sub_long(&mut self, long: Long)
        ensures { self.new ≡ minus71 self.old (long * 2 ^ 36) }
    {
        self.subtract(u128::from(long.value()) << 36);
    }

    /// Adds the product of two signed long words: the product of their fractions.
    pub fn add_product(&mut self, m: Long, x: Long)
        ensures { self.new ≡ plus_product self.old m x }
    {
        self.add(wrapped(product(m, x)));
    }

    /// Subtracts the product of two signed long words.
    pub fn sub_product(&mut self, m: Long, x: Long)
        ensures { self.new ≡ minus_product self.old m x }
    {
        self.subtract(wrapped(product(m, x)));
    }

    /// Adds the digits that two long words have in common to the most significant digits.
    #[tactic(auto, unfolding(crate::specs::Arithmetic::plus_common))]
    pub fn collate(&mut self, m: Long, x: Long)
        ensures { self.new ≡ plus_common self.old m x }
    {
        self.add(u128::from(common(m, x)) << 36);
    }

    /// Shifts to the left by 1 to 15 places.
    #[tactic(auto, unfolding(crate::specs::Arithmetic::left71))]
    pub fn left(&mut self, p: u8)
        requires low { 1 ≤ p }
        requires high { p ≤ 15 }
        ensures { self.new ≡ left71 self.old p }
    {
        self.digits <<= few_places(p);
    }

    /// Shifts to the right by 1 to 15 places; the sign stays.
    #[tactic(auto, unfolding(crate::specs::Arithmetic::right71))]
    pub fn right(&mut self, p: u8)
        requires low { 1 ≤ p }
        requires high { p ≤ 15 }
        ensures { self.new ≡ right71 self.old p }
    {
        let places = few_places(p);
        if self.is_negative() {
            self.set((self.value() >> places) + (MODULUS - (MODULUS >> places)));
        } else {
            self.set(self.value() >> places);
        }
    }

    /// Rounds to a long word: adds 1 just below its least significant digit.
    #[tactic(auto, unfolding(crate::specs::Arithmetic::plus71))]
    pub fn round(&mut self)
        ensures { self.new ≡ plus71 self.old (2 ^ 35) }
    {
        self.add(1 << 35);
    }

    /// Sets the accumulator to 0.
    pub fn clear(&mut self)
        ensures { self.new ≡ 0 }
    {
        self.digits = 0;
    }

    /// The 17 most significant digits.
    pub fn top_short(&self) -> Word
        ensures { result ≡ self.now / 2 ^ 54 }
    {
        Word::of_number((self.value() >> 54) as u32)
    }

    /// The 35 most significant digits.
    pub fn top_long(&self) -> Long
        ensures { result ≡ self.now / 2 ^ 36 }
    {
        Long::of_number((self.value() >> 36) as u64)
    }

    /// Adds a number.
    fn add(&mut self, number: u128)
        requires { number < 2 ^ 71 }
        ensures { self.new ≡ (self.old + number) % 2 ^ 71 }
    {
        self.digits = self.digits.wrapping_add(number << 57);
    }

    /// Subtracts a number.
    fn subtract(&mut self, number: u128)
        requires { number < 2 ^ 71 }
        ensures { self.new ≡ (self.old + 2 ^ 71 - number) % 2 ^ 71 }
    {
        self.digits = self.digits.wrapping_sub(number << 57);
    }

    /// Sets the number.
    fn set(&mut self, number: u128)
        requires { number < 2 ^ 71 }
        ensures { self.new ≡ number }
    {
        self.digits = number << 57;
    }
}

/// The number of places unchanged; the remainder lets the compiler see that a shift by them stays within one of the
/// processor's words.
fn few_places(p: u8) -> u8
    requires { p ≤ 15 }
    ensures { result ≡ p }
{
    p % 16
}

/// Four times the product of two signed long words.
fn product(m: Long, x: Long) -> i128
    ensures is { result ≡ product m x }
    ensures low { neg_ℤ (pos (2 ^ 70)) ≤ℤ result }
    ensures high { result ≤ℤ pos (2 ^ 70) }
{
    4 * (i128::from(signed(m)) * i128::from(signed(x)))
}

/// A long word as a signed number.
fn signed(long: Long) -> i64
    ensures is { result ≡ signed 35 long }
    ensures low { neg_ℤ (pos (2 ^ 34)) ≤ℤ result }
    ensures high { result ≤ℤ pos (2 ^ 34) }
{
    if long.value() < 1 << 34 {
        long.value() as i64
    } else {
        long.value() as i64 - (1 << 35)
    }
}

/// The digits that two long words have in common.
fn common(m: Long, x: Long) -> u64
    ensures is { result ≡ common 35 m x }
    ensures fits { result < 2 ^ 35 }
{
    m.value() & x.value()
}

/// A number modulo 2^71.
fn wrapped(number: i128) -> u128
    ensures is { result ≡ modulo71 number }
    ensures fits { result < 2 ^ 71 }
{
    number.rem_euclid(1 << 71) as u128
}
