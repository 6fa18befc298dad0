//! What `print` and `newline` print.

use crate::support::{
    NEWLINE, PLACES, PRINT, Places, called, expect, expect_right, is_outside, stands_at,
};
use ed_codes::Code;
use ed_library::routine;
use ed_machine::{Machine, Paper};
use ed_routines::{Back, new_line, print_integer};
use std::alloc::Global;
use std::process::Abort;

/// Numbers, their decimal digits, and the number of orders that they take: 78, 8 times the sum of the digits before the
/// last one, and 4 for each of these digits.
type Row = (u32, &'static str, u64);

const NUMBERS: [Row; 11] = [
    (0, "0", 78),
    (7, "7", 78),
    (10, "10", 90),
    (99, "99", 154),
    (100, "100", 94),
    (305, "305", 110),
    (1000, "1000", 98),
    (9999, "9999", 306),
    (10_000, "10000", 102),
    (40_960, "40960", 246),
    (65_535, "65535", 246),
];

/// Runs `print`, which is at a base, on the number at h.
pub fn print(rt: &impl Abort, machine: &mut Machine, base: u16, h: u16, paper: &mut Paper) -> Back {
    assert!(rt; stands_at(machine, PRINT, base, h));
    assert!(rt; is_outside(machine, PRINT, base, h));
    assert!(rt; machine.word(h).value() < 65536);
    assert!(rt; machine.orders_done() < 1 << 40 && 6 <= paper.room_left());
    print_integer(machine, base, h, paper)
}

/// Whether codes are those of figure shift and of digits.
fn are_digits(codes: &[Code], digits: &str) -> bool {
    let Some((shift, printed)) = codes.split_first() else {
        return false;
    };
    if shift.value() != 11 || printed.len() != digits.len() {
        return false;
    }
    for (code, digit) in printed.iter().zip(digits.as_bytes()) {
        if code.value() + 48 != *digit {
            return false;
        }
    }
    true
}

/// Prints a number, and answers what is wrong, if anything.
fn wrong_in(
    rt: &impl Abort,
    machine: &mut Machine,
    places: &Places,
    paper: &mut Paper,
    row: &Row,
) -> &'static str {
    let (_, digits, orders) = *row;
    let at = places.back;
    let done = machine.orders_done();
    let back = print(rt, machine, places.base, places.h, paper);
    if back.at != at || back.orders != orders {
        "another end"
    } else if machine.counter() != at || machine.acc() != 0 {
        "not returned"
    } else if machine.orders_done().checked_sub(done) != Some(orders) {
        "another count"
    } else if !are_digits(paper.codes(), digits) {
        "other codes"
    } else {
        ""
    }
}

/// Checks what `print` does with a number.
fn expect_printed(rt: &impl Abort, alloc: Global, places: &Places, row: &Row) {
    let (number, ..) = *row;
    let mut paper = Paper::new(alloc, 6).expect(rt, "memory");
    let mut machine = called(rt, alloc, routine(PRINT), places, number, "");
    let wrong = wrong_in(rt, &mut machine, places, &mut paper, row);
    expect_right(rt, wrong, number);
}

#[test]
fn numbers_are_printed_in_decimal(rt: HostRuntime) {
    for places in &PLACES {
        for row in &NUMBERS {
            expect_printed(&rt, rt.alloc(), places, row);
        }
    }
}

/// Checks that `newline` prints the codes of a carriage return and a line feed.
fn expect_new_line(rt: &impl Abort, alloc: Global, places: &Places) {
    let mut paper = Paper::new(alloc, 2).expect(rt, "memory");
    let mut machine = called(rt, alloc, routine(NEWLINE), places, 0, "");
    assert!(rt; stands_at(&machine, NEWLINE, places.base, places.h));
    assert!(rt; machine.orders_done() < 1 << 40 && 2 <= paper.room_left());
    let back = new_line(&mut machine, places.base, &mut paper);
    expect(rt, back.at == places.back && back.orders == 5, "the end");
    let is_new_line = match paper.codes() {
        [first, second] => first.value() == 18 && second.value() == 24,
        _ => false,
    };
    expect(rt, is_new_line, "the codes");
}

#[test]
fn a_new_line_is_two_codes(rt: HostRuntime) {
    for places in &PLACES {
        expect_new_line(&rt, rt.alloc(), places);
    }
}
