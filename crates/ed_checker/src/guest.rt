ghost use Rattle.std.specs.Prelude.{◌≡◌, ◌<◌, ◌≤◌, ◌+◌, ◌^◌};
ghost use Rattle.ed_words.specs.Sizes.{locations};
ghost use Rattle.ed_machine.specs.OrderTable.{next_word};
ghost use Rattle.ed_words.specs.Words.{function_of};
ghost use Rattle.ed_orders.specs.Kinds.{kind_of_function};
ghost use Rattle.ed_checker.specs.Checker.{guest, turn_orders, is_Z};

use crate::places::{FETCH, HIGH, LOW, MIDDLE};
use ed_machine::Machine;
use ed_orders::{Kind, kind_of};
use ed_words::Word;

/// The guest's counter.
pub(crate) fn guest_counter(machine: &Machine, base: u16) -> u16
    requires { base + 66 ≤ locations machine.now.size }
    ensures is { result ≡ (guest base machine.now).counter }
    ensures fits { result < 1024 }
{
    let _ = machine.size().value();
    machine.word(base + FETCH).order().address
}

/// The guest's next order.
pub(crate) fn guest_word(machine: &Machine, base: u16) -> Word
    requires { base + 66 ≤ locations machine.now.size }
    ensures is { result ≡ next_word (guest base machine.now) }
    ensures fits { result < 2 ^ 17 }
{
    machine.word(guest_counter(machine, base))
}

/// The guest's accumulator.
pub(crate) fn guest_acc(machine: &Machine, base: u16) -> u128
    requires { base + 66 ≤ locations machine.now.size }
    ensures is { result ≡ (guest base machine.now).acc }
{
    let _ = machine.size().value();
    let high = u128::from(machine.long(base + HIGH).value());
    let middle = u128::from(machine.long(base + MIDDLE).value());
    let low = u128::from(machine.long(base + LOW).value());
    (high << 36) + 4 * middle + (low >> 32)
}

/// The number of orders that the routine obeys for the guest's next one.
pub(crate) fn turn_orders(machine: &Machine, base: u16) -> u64
    requires { base + 66 ≤ locations machine.now.size }
    ensures { result ≡ turn_orders (guest base machine.now) }
{
    let positive = guest_acc(machine, base) < 1 << 70;
    match guest_word(machine, base).order().function {
        3 => { if positive { 16 } else { 17 } }
        27 => { if positive { 18 } else { 16 } }
        0..=2 | 16..=26 => 33,
        _ => 35,
    }
}

/// Whether the guest's next order is a Z.
pub(crate) fn is_stop(machine: &Machine, base: u16) -> bool
    requires { base + 66 ≤ locations machine.now.size }
    ensures { result ≡ is_Z (kind_of_function (function_of (next_word (guest base machine.now)))) }
{
    match kind_of(guest_word(machine, base).order().function) {
        Some(Kind::Z) => true,
        _ => false,
    }
}
