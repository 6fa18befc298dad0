//! What the tests share: machines with a few orders and words in their store or started on a tape, and loads.

use crate::numbers::word;
use ed_codes::{Code, row_of_byte, tape_of_text};
use ed_initial::{Loaded, begin, is_started, load};
use ed_machine::{Machine, Turn};
use ed_notation::{Checked, TapeFault, check};
use ed_store::Store;
use ed_words::{Order, Size, Word, number_within};
use std::alloc::Global;
use std::process::Abort;

/// The tape that prints A.
pub const LETTER: &str = "T64KGKO2@ZFAFEZPF";

/// Checks that something holds. A failure shows the name of what was checked.
pub fn expect(rt: &impl Abort, told: bool, name: &str) {
    assert!(rt; told, "{name}");
}

/// The word of an order that is written as its letter, its number in decimal, and F or D. A number of 1024 or more has
/// the spare digit, as in the text of an order.
fn word_of_order(text: &str) -> Option<Word> {
    let [letter, digits @ .., length] = text.as_bytes() else {
        return None;
    };
    let number = number_within(digits, 0, 2047)?;
    Some(Word::of_order(Order {
        function: row_of_byte(*letter)?.value(),
        spare: number >= 1024,
        address: (number % 1024) as u16,
        length: *length == b'D',
    }))
}

/// The image of orders from location 0 upwards, and of four words at 30 to 33.
pub fn image_of(rt: &impl Abort, alloc: Global, orders: &str, data: [u32; 4]) -> Vec<Word> {
    let mut image = Vec::new(alloc);
    for order in orders.split_whitespace() {
        let word = word_of_order(order).expect(rt, "an order");
        image.push(word).ok().expect(rt, "memory");
    }
    image.resize(30, word(rt, 0)).expect(rt, "memory");
    for number in &data {
        image.push(word(rt, *number)).ok().expect(rt, "memory");
    }
    image
}

/// Starts a machine with an image and the rows of a tape.
pub fn start_with(rt: &impl Abort, machine: &mut Machine, image: &[Word], rows: Vec<Code>) {
    assert!(rt; image.len() <= 41);
    let _old_rows = machine.start(image, rows);
}

/// What the next order does.
pub fn next_turn(rt: &impl Abort, machine: &mut Machine) -> Turn {
    assert!(rt; machine.orders_done() < 1 << 63);
    machine.step()
}

/// The number of the word at a location.
pub fn word_at(rt: &impl Abort, machine: &Machine, address: u16) -> u32 {
    assert!(rt; address < 1024);
    machine.word(address).value()
}

/// Obeys the next orders, as many as the text has.
pub fn obey(rt: &impl Abort, machine: &mut Machine, orders: &str) {
    for order in orders.split_whitespace() {
        let turn = next_turn(rt, machine);
        assert!(rt;
            matches!(turn, Turn::Went | Turn::Printed(_)),
            "{order} of {orders}"
        );
    }
}

/// A cleared machine with these orders from location 0 and these four words at 30 to 33, after it has obeyed the
/// orders.
pub fn machine_after(
    rt: &impl Abort,
    alloc: Global,
    size: Size,
    orders: &str,
    data: [u32; 4],
) -> Machine {
    let image = image_of(rt, alloc, orders, data);
    let mut machine = Machine::cleared_of(alloc, size).expect(rt, "memory");
    start_with(rt, &mut machine, &image, Vec::new(alloc));
    obey(rt, &mut machine, orders);
    machine
}

/// The rows of a tape's text.
pub fn rows_of(rt: &impl Abort, alloc: Global, tape: &str) -> Vec<Code> {
    tape_of_text(alloc, tape.as_bytes()).expect(rt, "a tape")
}

/// The report on a tape before whose check the store is this one, or the tape's fault.
pub fn checked(
    rt: &impl Abort,
    alloc: Global,
    size: Size,
    store: &Store,
    tape: &str,
) -> Result<Checked, TapeFault> {
    let rows = rows_of(rt, alloc, tape);
    assert!(rt; rows.len() < 1000);
    check(alloc, size, store, &rows)
}

/// The index of the first of some codes that isn't the wanted one; codes that end too early differ there.
pub fn first_difference(codes: &[Code], wanted: &[u8]) -> Option<usize> {
    for (place, code) in codes.iter().enumerate() {
        if wanted.get(place) != Some(&code.value()) {
            return Some(place);
        }
    }
    if codes.len() < wanted.len() {
        return Some(codes.len());
    }
    None
}

/// A cleared machine of a size, started on a tape with the Initial Orders.
pub fn started(rt: &impl Abort, alloc: Global, size: Size, tape: &str) -> Machine {
    let mut machine = Machine::cleared_of(alloc, size).expect(rt, "memory");
    begin(&mut machine, rows_of(rt, alloc, tape));
    machine
}

/// Loads the tape that a machine was started on: the location of the entry and the orders until then, or the orders
/// until the load was lost.
pub fn loaded(rt: &impl Abort, machine: &mut Machine) -> Result<(u16, u64), u64> {
    assert!(rt; is_started(machine));
    let done = machine.orders_done();
    let rows = machine.rows_left().len();
    assert!(rt; done < 1 << 20 && rows < 1 << 20);
    match load(machine) {
        Loaded::Entered { at, orders } => Ok((at, orders)),
        Loaded::Lost { orders } => Err(orders),
    }
}

/// Obeys the next order, and answers whether it was a stop.
pub fn stops(rt: &impl Abort, machine: &mut Machine) -> bool {
    matches!(next_turn(rt, machine), Turn::Stopped)
}
