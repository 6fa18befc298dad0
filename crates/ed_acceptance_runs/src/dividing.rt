//! The results of `divide`.
ghost use Rattle.std.specs.Prelude.{◌≡◌, ℕ, IsTrue};
ghost use Rattle.ed_maths.specs.Quotients.{IsDivision, with_hnm};

use crate::support::{
    DIVIDE, add_caller, add_number, add_routine, entered, expect_right, is_outside, stands_with,
};
use ed_library::{Parameters, routine};
use ed_machine::Machine;
use ed_maths::divide_integers;
use ed_routines::Back;
use ed_words::{Size, Word};
use std::alloc::Global;
use std::process::Abort;

/// The locations of the routine, its caller and its three words.
#[derive(Clone, Copy)]
struct Site {
    size: Size,
    base: u16,
    caller: u16,
    high: u16,
    low: u16,
    by: u16,
}

/// Words before and after the routine, on both sizes.
const SITES: [Site; 3] = [
    Site {
        size: Size::Full,
        base: 56,
        caller: 200,
        high: 300,
        low: 301,
        by: 302,
    },
    Site {
        size: Size::Small,
        base: 470,
        caller: 60,
        high: 469,
        low: 100,
        by: 44,
    },
    Site {
        size: Size::Full,
        base: 900,
        caller: 1021,
        high: 1000,
        low: 60,
        by: 941,
    },
];

/// A number, its divisor, the quotient and the remainder, and the number of orders: 212 less the digits 1 of the
/// quotient.
type Division = (u32, u32, u32, u32, u64);

const DIVISIONS: [Division; 12] = [
    (0, 1, 0, 0, 212),
    (6, 7, 0, 6, 212),
    (7, 7, 1, 0, 211),
    (13, 7, 1, 6, 211),
    (400_000, 7, 57_142, 6, 201),
    (458_751, 7, 65_535, 6, 196),
    (43_690, 1, 43_690, 0, 204),
    (65_535, 1, 65_535, 0, 196),
    (32_766, 32_767, 0, 32_766, 212),
    (32_767, 32_767, 1, 0, 211),
    (715_795_115, 32_767, 21_845, 0, 204),
    (2_147_418_111, 32_767, 65_535, 32_766, 196),
];

/// The parameters with H, N and M the three locations.
fn with_hnm(high: u16, low: u16, by: u16) -> Parameters
    ensures { result ≡ with_hnm high low by }
{
    let zero = Word::of_number(0);
    [
        Word::of_number(2 * u32::from(high)),
        Word::of_number(2 * u32::from(low)),
        Word::of_number(2 * u32::from(by)),
        zero,
        zero,
        zero,
    ]
}

/// Whether the three words can be divided.
fn is_division(machine: &Machine, base: u16, high: u16, low: u16, by: u16) -> bool
    ensures { IsTrue result → IsDivision base high low by machine.now }
{
    is_outside(machine, DIVIDE, base, high)
        && is_outside(machine, DIVIDE, base, low)
        && is_outside(machine, DIVIDE, base, by)
        && high != low
        && high != by
        && low != by
        && 1 <= machine.word(by).value()
        && machine.word(by).value() <= 32767
        && machine.word(high).value() < machine.word(by).value()
        && machine.word(low).value() < 65536
}

/// A machine that has the routine and has just called it with these numbers.
fn called(rt: &impl Abort, alloc: Global, site: &Site, number: u32, divisor: u32) -> Machine {
    let Site {
        size,
        base,
        caller,
        high,
        low,
        by,
    } = *site;
    let parameters = [high, low, by];
    let mut tape = String::new(alloc);
    add_routine(rt, alloc, &mut tape, routine(DIVIDE), base, &parameters);
    add_number(rt, &mut tape, high, number / 65536);
    add_number(rt, &mut tape, low, number % 65536);
    add_number(rt, &mut tape, by, divisor);
    add_caller(rt, &mut tape, caller, base);
    entered(rt, alloc, size, &tape)
}

/// Divides at a site.
fn divide(rt: &impl Abort, machine: &mut Machine, site: &Site) -> Back {
    let Site {
        base,
        high,
        low,
        by,
        ..
    } = *site;
    assert!(rt; base % 2 == 0);
    assert!(rt; stands_with(machine, DIVIDE, base, &with_hnm(high, low, by)));
    assert!(rt; is_division(machine, base, high, low, by));
    assert!(rt; machine.orders_done() < 1 << 40);
    divide_integers(machine, base, high, low, by)
}

/// What is wrong after a division, if anything.
fn wrong_in(
    rt: &impl Abort,
    machine: &Machine,
    site: &Site,
    back: Back,
    division: &Division,
) -> &'static str {
    let (_, _, quotient, remainder, orders) = *division;
    let Site {
        caller,
        high,
        low,
        ..
    } = *site;
    assert!(rt; caller < 2000 && high < 1024 && low < 1024);
    if back.orders != orders {
        "another count"
    } else if back.at != caller + 2 || machine.counter() != caller + 2 || machine.acc() != 0 {
        "not returned"
    } else if machine.word(low).value() != quotient {
        "another quotient"
    } else if machine.word(high).value() != remainder {
        "another remainder"
    } else {
        ""
    }
}

/// Checks a division at a site.
fn expect_division(rt: &impl Abort, alloc: Global, site: &Site, division: &Division) {
    let (number, divisor, ..) = *division;
    let mut machine = called(rt, alloc, site, number, divisor);
    let back = divide(rt, &mut machine, site);
    let wrong = wrong_in(rt, &machine, site, back, division);
    expect_right(rt, wrong, number);
}

#[test]
fn numbers_are_divided(rt: HostRuntime) {
    for site in &SITES {
        for division in &DIVISIONS {
            expect_division(&rt, rt.alloc(), site, division);
        }
    }
}
