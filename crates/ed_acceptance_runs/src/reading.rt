//! What `read` reads, and when a routine is at a base.

use crate::support::{PLACES, Places, READ, called, expect, expect_right, is_outside, stands_at};
use ed_codes::{Code, byte_of};
use ed_library::routine;
use ed_machine::Machine;
use ed_routines::{ReadBack, read_integer};
use std::alloc::Global;
use std::process::Abort;

/// Rows, the number that they give, and the number of orders: 11, and 13 for each digit row.
type Row = (&'static str, u32, u64);

const ROWS: [Row; 8] = [
    ("F", 0, 11),
    ("7F", 7, 24),
    ("42F", 42, 37),
    ("007J", 7, 50),
    ("1949@", 1949, 63),
    ("65535.", 65_535, 76),
    ("131072#", 0, 89),
    ("999999V", 82_495, 89),
];

/// Tapes that end in digit rows, and the orders after which they end.
const ENDS: [(&str, u64); 3] = [("", 3), ("42", 29), ("000000", 81)];

/// Runs `read` at the base where it was placed: the location where it returned and the orders until then, or the orders
/// until the tape ended.
fn read(rt: &impl Abort, machine: &mut Machine, places: &Places) -> Result<(u16, u64), u64> {
    let Places { base, h, .. } = *places;
    assert!(rt; stands_at(machine, READ, base, h));
    assert!(rt; is_outside(machine, READ, base, h));
    assert!(rt; machine.orders_done() < 1 << 40 && machine.rows_left().len() < 1 << 40);
    match read_integer(machine, base, h) {
        ReadBack::Back { at, orders } => Ok((at, orders)),
        ReadBack::NoTape { orders } => Err(orders),
    }
}

/// The word of a location.
fn word(rt: &impl Abort, machine: &Machine, place: u16) -> u32 {
    assert!(rt; place < 1024);
    machine.word(place).value()
}

/// Checks what `read` does with rows.
fn expect_number(rt: &impl Abort, alloc: Global, places: &Places, row: &Row) {
    let (rows, number, orders) = *row;
    let at = places.back;
    let mut machine = called(rt, alloc, routine(READ), places, 99, rows);
    let wrong = if read(rt, &mut machine, places) != Ok((at, orders)) {
        "another end"
    } else if machine.counter() != at || machine.acc() != 0 {
        "not returned"
    } else if !machine.rows_left().is_empty() {
        "rows left"
    } else if word(rt, &machine, places.h) != number {
        "another number"
    } else {
        ""
    };
    expect_right(rt, wrong, number);
}

#[test]
fn digit_rows_are_a_number(rt: HostRuntime) {
    for places in &PLACES {
        for row in &ROWS {
            expect_number(&rt, rt.alloc(), places, row);
        }
    }
}

/// A machine that has called `read` with a digit row, the row of a code, and a digit row.
fn called_on(rt: &impl Abort, alloc: Global, code: u8) -> Machine {
    let row = char::from(byte_of(Code::new(code).expect(rt, "a code"), false));
    let rows = format!(in alloc; "5{row}6").expect(rt, "memory");
    called(rt, alloc, routine(READ), &PLACES[0], 99, &rows)
}

/// Checks that the row of a code ends the number on such a machine.
fn expect_end(rt: &impl Abort, machine: &mut Machine, code: u8) {
    let places = &PLACES[0];
    let at = places.back;
    let back = read(rt, machine, places);
    let is_five = word(rt, machine, places.h) == 5 && machine.rows_left().len() == 1;
    assert!(rt; is_five && back == Ok((at, 24)), "{code}");
}

#[test]
fn each_other_row_ends_a_number(rt: HostRuntime) {
    for code in 10..32 {
        let mut machine = called_on(&rt, rt.alloc(), code);
        expect_end(&rt, &mut machine, code);
    }
}

/// Checks that a tape of such rows ends after these orders.
fn expect_end_of_tape(rt: &impl Abort, alloc: Global, places: &Places, rows: &str, orders: u64) {
    let mut machine = called(rt, alloc, routine(READ), places, 99, rows);
    let back = read(rt, &mut machine, places);
    expect(rt, back == Err(orders), rows);
    let place = machine.counter().checked_sub(places.base);
    expect(rt, place == Some(3), rows);
    expect(rt, word(rt, &machine, places.h) == 99, rows);
}

#[test]
fn a_tape_that_ends_leaves_the_number_as_it_was(rt: HostRuntime) {
    for places in &PLACES {
        for (rows, orders) in &ENDS {
            expect_end_of_tape(&rt, rt.alloc(), places, rows, *orders);
        }
    }
}

/// `read` stands at 56 on a machine that has called it, and nowhere else.
#[test]
fn a_routine_stands_where_it_was_put_and_nowhere_else(rt: HostRuntime) {
    let mut machine = called(&rt, rt.alloc(), routine(READ), &PLACES[0], 0, "F");
    expect(&rt, stands_at(&machine, READ, 56, 300), "where it was put");
    expect(&rt, !stands_at(&machine, READ, 57, 300), "at 57");
    expect(&rt, !stands_at(&machine, READ, 56, 301), "with H at 301");
    expect(&rt, !stands_at(&machine, 0, 56, 300), "another routine");
    assert!(rt; machine.orders_done() < 1 << 40);
    machine.step();
    let is_moved = stands_at(&machine, READ, 57, 300);
    expect(&rt, !is_moved, "at 57, after an order");
}
