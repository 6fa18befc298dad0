//! One order: what a machine does with a word of a given kind.
//!
//! Every part of a step is inlined into the loop of a run, so the machine's registers stay in the processor's.

ghost use Rattle.std.specs.Prelude.{◌≡◌, ◌<◌, ◌≤◌, ◌+◌, ◌*◌, ◌/◌, ◌^◌, Some, nat_le, nat_lt, not, unwrap_or};
ghost use Rattle.ed_words.specs.Sizes.{locations, within};
ghost use Rattle.ed_words.specs.Words.{function_of};
ghost use Rattle.ed_orders.specs.Kinds.{kind_of_function};
ghost use Rattle.ed_acc.specs.Arithmetic.{minus71, plus71};
ghost use Rattle.ed_machine.specs.OrderTable.{after, done_at, jump_order, last_code, obey, operand35, operand71};
ghost use Rattle.ed_machine.specs.OrderTable.{place_of, print_order, stop_order, row_order, written_store};

use super::Machine;
use crate::Turn;
use ed_codes::Code;
use ed_orders::{Kind, places};
use ed_words::{Long, Word};

impl Machine {
    /// Obeys a word of a given kind.
    #[inline(always)]
    pub(super) fn obey(&mut self, kind: Kind, word: Word) -> Turn
        requires room { self.old.orders < 2 ^ 63 }
        requires word { word < 2 ^ 17 }
        requires kind { kind_of_function (function_of word) ≡ Some kind }
        ensures state { self.new ≡ (obey kind word self.old).state }
        ensures turn { result ≡ (obey kind word self.old).turn }
    {
        match kind {
            Kind::A => self.add(word),
            Kind::S => self.subtract(word),
            Kind::H => self.multiplier = self.operand(word),
            Kind::V => {
                let x = self.operand(word);
                self.acc.add_product(self.multiplier, x);
            }
            Kind::N => {
                let x = self.operand(word);
                self.acc.sub_product(self.multiplier, x);
            }
            Kind::T => {
                self.write_top(word);
                self.acc.clear();
            }
            Kind::U => self.write_top(word),
            Kind::C => {
                let x = self.operand(word);
                self.acc.collate(self.multiplier, x);
            }
            Kind::R => self.acc.right(places(word)),
            Kind::L => self.acc.left(places(word)),
            Kind::E => {
                let jumps = !self.is_negative();
                return self.jump(word, jumps);
            }
            Kind::G => {
                let jumps = self.is_negative();
                return self.jump(word, jumps);
            }
            Kind::I => return self.take_row(word),
            Kind::O => return self.print(word),
            Kind::F => self.write_last(word),
            Kind::X => {}
            Kind::Y => self.acc.round(),
            Kind::Z => return self.stop(),
        }
        self.advance();
        Turn::Went
    }

    /// The location that an order word names. The digits to the left of its address are lost modulo the size.
    #[inline(always)]
    fn place(&self, word: Word) -> u16
        ensures is { result ≡ place_of self.now word }
        ensures below { result < locations self.now.size }
        ensures fits { result < 1024 }
    {
        self.within((word.value() / 2) as usize) as u16
    }

    /// A number modulo the number of locations, which is a power of two.
    #[inline(always)]
    fn within(&self, number: usize) -> usize
        ensures is { result ≡ within self.now.size number }
        ensures below { result < locations self.now.size }
        ensures fits { result < 1024 }
    {
        number & self.last_place
    }

    /// The 35 digits that an order reads.
    #[inline(always)]
    fn operand(&self, word: Word) -> Long
        ensures { result ≡ operand35 word self.now }
    {
        let place = self.place(word);
        if word.order().length {
            self.store.long(place)
        } else {
            Long::of_short(self.store.short(place))
        }
    }

    /// Adds what an order reads: the short number or the long one, by the order's length.
    #[inline(always)]
    fn add(&mut self, word: Word)
        ensures { self.new ≡ record self.old { acc = plus71 self.old.acc (operand71 word self.old) } }
    {
        let place = self.place(word);
        if word.order().length {
            self.acc.add_long(self.store.long(place));
        } else {
            self.acc.add_short(self.store.short(place));
        }
    }

    /// Subtracts what an order reads.
    #[inline(always)]
    fn subtract(&mut self, word: Word)
        ensures { self.new ≡ record self.old { acc = minus71 self.old.acc (operand71 word self.old) } }
    {
        let place = self.place(word);
        if word.order().length {
            self.acc.sub_long(self.store.long(place));
        } else {
            self.acc.sub_short(self.store.short(place));
        }
    }

    /// The five most significant digits of what an order reads.
    #[inline(always)]
    fn top_digits(&self, word: Word) -> u8
        ensures is { result ≡ operand35 word self.now / 2 ^ 30 }
        ensures fits { result < 32 }
    {
        let place = self.place(word);
        if word.order().length {
            (self.store.long(place).value() >> 30) as u8
        } else {
            self.store.short(place).order().function
        }
    }

    /// Writes at the location that an order names: the short number or the long one, by the order's length.
    #[inline(always)]
    fn write(&mut self, word: Word, short: Word, long: Long)
        ensures { self.new ≡ record self.old { store = written_store word self.old short long } }
    {
        let place = self.place(word);
        if word.order().length {
            self.store.put_long(place, long);
        } else {
            self.store.put_short(place, short);
        }
    }

    /// Writes the 17 or 35 most significant digits of the accumulator.
    #[inline(always)]
    fn write_top(&mut self, word: Word)
        ensures { self.new ≡ record self.old
            { store = written_store word self.old (self.old.acc / 2 ^ 54) (self.old.acc / 2 ^ 36) } }
    {
        let short = self.acc.top_short();
        let long = self.acc.top_long();
        self.write(word, short, long);
    }

    /// Writes the last printed code, as the function of a word.
    #[inline(always)]
    fn write_last(&mut self, word: Word)
        ensures { self.new ≡ record self.old
            { store = written_store word self.old (last_code self.old * 4096) (last_code self.old * 2 ^ 30) } }
    {
        let last = self.last;
        let code = code_or_zero(last);
        let short = Word::of_number(u32::from(code) << 12);
        self.write(word, short, Long::of_short(short));
    }

    /// Counts the order and goes on to the next location.
    #[inline(always)]
    fn advance(&mut self)
        requires { self.old.orders < 2 ^ 63 }
        ensures { self.new ≡ done_at (after self.old) self.old }
    {
        self.counter = self.within(self.counter + 1);
        self.orders += 1;
    }

    /// Whether the number in the accumulator is negative.
    fn is_negative(&self) -> bool
        ensures negative { result ≡ nat_le (2 ^ 70) self.now.acc }
        ensures positive { not result ≡ nat_lt self.now.acc (2 ^ 70) }
    {
        self.acc.is_negative()
    }

    /// Jumps to the order's address if `jumps`, and goes on otherwise.
    #[inline(always)]
    fn jump(&mut self, word: Word, jumps: bool) -> Turn
        requires { self.old.orders < 2 ^ 63 }
        ensures state { self.new ≡ (jump_order jumps (place_of self.old word) self.old).state }
        ensures turn { result ≡ (jump_order jumps (place_of self.old word) self.old).turn }
    {
        if jumps {
            self.counter = usize::from(self.place(word));
            self.orders += 1;
        } else {
            self.advance();
        }
        Turn::Went
    }

    /// An order that reads a row of the tape.
    #[inline(always)]
    fn take_row(&mut self, word: Word) -> Turn
        requires { self.old.orders < 2 ^ 63 }
        ensures state { self.new ≡ (row_order self.old.tape word self.old).state }
        ensures turn { result ≡ (row_order self.old.tape word self.old).turn }
    {
        if self.row == self.tape.len() {
            return Turn::NoTape;
        }
        let row = Word::of_number(u32::from(self.tape[self.row].value()));
        self.row += 1;
        self.write(word, row, Long::of_short(row));
        self.advance();
        Turn::Went
    }

    /// An order that prints.
    #[inline(always)]
    fn print(&mut self, word: Word) -> Turn
        requires { self.old.orders < 2 ^ 63 }
        ensures state { self.new ≡ (print_order (operand35 word self.old / 2 ^ 30) self.old).state }
        ensures turn { result ≡ (print_order (operand35 word self.old / 2 ^ 30) self.old).turn }
    {
        let code = Code::new(self.top_digits(word)).unwrap();
        self.last = Some(code);
        self.advance();
        Turn::Printed(code)
    }

    /// An order that stops the machine.
    #[inline(always)]
    fn stop(&mut self) -> Turn
        requires { self.old.orders < 2 ^ 63 }
        ensures state { self.new ≡ (stop_order self.old).state }
        ensures turn { result ≡ (stop_order self.old).turn }
    {
        self.advance();
        Turn::Stopped
    }
}

/// The number of a code, or 0 for None.
fn code_or_zero(code: Option<Code>) -> u8
    ensures is { result ≡ unwrap_or code 0 }
    ensures fits { result < 32 }
{
    match code {
        Some(code) => code.value(),
        None => 0,
    }
}
