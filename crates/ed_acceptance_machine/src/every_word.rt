//! Words as orders: every one that is an order, and of the others those at equal distances.

use crate::numbers::{code, word};
use crate::support::{expect, image_of, machine_after, next_turn, obey, rows_of, start_with};
use ed_codes::{Code, byte_of};
use ed_machine::{Machine, Turn};
use ed_words::{Size, Word};
use std::alloc::Global;
use std::process::Abort;

/// Orders that leave something in the store, in a sandwich digit and in each register, and print.
const USE: &str = "T100D H30F A31F R0D T101D A30F O31F";

/// The words at 30 to 33 for these orders.
const DATA: [u32; 4] = [74_565, 43_981, 0, 0];

/// A machine that has obeyed these orders, which left something in each of them.
fn used_machine(rt: &impl Abort, alloc: Global, size: Size) -> Machine {
    let machine = machine_after(rt, alloc, size, USE, DATA);
    let has_both = machine.sandwich(100) && machine.acc() != 0;
    expect(rt, has_both, "the accumulator");
    expect(rt, machine.multiplier().value() != 0, "the multiplier");
    expect(rt, machine.last_printed().is_some(), "the last code");
    expect(rt, machine.orders_done() == 7, "the orders");
    machine
}

/// Whether two machines are equal by all that can be read of them.
fn are_equal(one: &Machine, other: &Machine) -> bool {
    one.size() == other.size()
        && one.store().equals(other.store())
        && one.acc() == other.acc()
        && one.multiplier().value() == other.multiplier().value()
        && one.counter() == other.counter()
        && one.orders_done() == other.orders_done()
        && one.last_printed() == other.last_printed()
        && one.rows_left() == other.rows_left()
}

/// The letter or sign of a word's function.
fn letter_of(rt: &impl Abort, word: Word) -> u8 {
    byte_of(code(rt, word.order().function), false)
}

/// What a word that changes nothing answers, with no row left on the tape; None for an order that is obeyed.
fn blocked(rt: &impl Abort, order: Word) -> Option<Turn> {
    let letter = letter_of(rt, order);
    if letter == b'I' {
        Some(Turn::NoTape)
    } else if b"PQWJ#K*.@D!M&B".contains(&letter) {
        Some(Turn::NoOrder(order.order().function))
    } else {
        None
    }
}

/// Whether a word answers this and changes nothing on a machine, which is started on it as its equal is.
fn is_blocked(
    rt: &impl Abort,
    alloc: Global,
    machine: &mut Machine,
    equal: &mut Machine,
    order: Word,
    wanted: Turn,
) -> bool {
    start_with(rt, machine, &[order], Vec::new(alloc));
    start_with(rt, equal, &[order], Vec::new(alloc));
    let is_wanted = match (next_turn(rt, machine), wanted) {
        (Turn::NoTape, Turn::NoTape) => true,
        (Turn::NoOrder(function), Turn::NoOrder(wanted)) => function == wanted,
        _ => false,
    };
    is_wanted && are_equal(machine, equal)
}

/// The distance of the words that are tried as no orders. It is odd, so that each function comes with every digit of the
/// address and with both lengths. That every such word changes nothing is proved.
const DISTANCE: u32 = 5;

/// How many words at this distance there are.
const WORDS: u32 = 26_215;

/// Checks on a used machine of a size that each word that is not an order, or reads with no row left, answers so and
/// changes nothing.
fn expect_blocked(rt: &impl Abort, alloc: Global, size: Size) {
    let mut machine = used_machine(rt, alloc, size);
    let mut equal = machine.copy().expect(rt, "memory");
    let locations = size.value();
    for k in 0..WORDS {
        let number = k * DISTANCE;
        let order = word(rt, number);
        if let Some(wanted) = blocked(rt, order) {
            let told = is_blocked(rt, alloc, &mut machine, &mut equal, order, wanted);
            assert!(rt; told, "{number} in {locations} locations");
        }
    }
}

#[test]
fn words_that_are_no_orders_and_reads_without_a_row_change_nothing(rt: HostRuntime) {
    for size in [Size::Small, Size::Full] {
        expect_blocked(&rt, rt.alloc(), size);
    }
}

/// Whether an order is obeyed by a machine that has obeyed the orders of an image, with one row left on the tape: its
/// turn is one that its letter may have, and the row that it left is right.
fn is_obeyed(
    rt: &impl Abort,
    machine: &mut Machine,
    order: Word,
    letter: u8,
    row: Vec<Code>,
) -> bool {
    start_with(rt, machine, &[order], row);
    let orders = machine.orders_done();
    let letters = match next_turn(rt, machine) {
        Turn::Went => b"ASHVNTUCRLEGIFXY".as_slice(),
        Turn::Printed(_) => b"O".as_slice(),
        Turn::Stopped => b"Z".as_slice(),
        Turn::NoOrder(_) | Turn::NoTape => b"".as_slice(),
    };
    machine.orders_done() == orders.wrapping_add(1)
        && letters.contains(&letter)
        && machine.rows_left().is_empty() == (letter == b'I')
}

/// Checks on a used machine of a size that every word that is an order is obeyed as one.
fn expect_obeyed(rt: &impl Abort, alloc: Global, size: Size) {
    let image = image_of(rt, alloc, USE, DATA);
    let mut machine = used_machine(rt, alloc, size);
    let locations = size.value();
    for number in 0..131_072 {
        let order = word(rt, number);
        let letter = letter_of(rt, order);
        if b"ASHVNTUCRLEGIOFXYZ".contains(&letter) {
            start_with(rt, &mut machine, &image, Vec::new(alloc));
            obey(rt, &mut machine, USE);
            let told = is_obeyed(rt, &mut machine, order, letter, rows_of(rt, alloc, "A"));
            assert!(rt; told, "{number} in {locations} locations");
        }
    }
}

#[test]
fn every_order_is_obeyed(rt: HostRuntime) {
    for size in [Size::Small, Size::Full] {
        expect_obeyed(&rt, rt.alloc(), size);
    }
}
