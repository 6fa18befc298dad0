//! `print` for numbers from the least to the greatest that it prints.

use crate::printing::print;
use crate::support::{
    DISTANCE, NUMBERS, PRINT, add_counting_caller, add_routine, count, entered, expect_right,
};
use ed_codes::Code;
use ed_library::routine;
use ed_machine::{Machine, Paper};
use ed_words::Size;
use std::alloc::Global;
use std::process::Abort;

/// The base of the routine, and the location of the number.
const BASE: u16 = 60;

const H: u16 = 200;

/// The number with these digits, and the orders that it takes to print them before another digit.
fn number_and_orders(digits: &[Code]) -> (u64, u64) {
    let mut number = 0u64;
    let mut orders = 78u64;
    for code in digits {
        let digit = u64::from(code.value());
        number = number.wrapping_mul(10).wrapping_add(digit);
        orders = orders.wrapping_add(4 + 8 * digit);
    }
    (number, orders)
}

/// What is wrong in the codes that are printed for a number or in the orders that they took, if anything.
fn wrong_in(codes: &[Code], number: u32, orders: u64) -> &'static str {
    let Some((shift, digits)) = codes.split_first() else {
        return "nothing";
    };
    let Some((units, tens)) = digits.split_last() else {
        return "no digit";
    };
    let (value, wanted) = number_and_orders(tens);
    let units = u64::from(units.value());
    if shift.value() != 11 {
        "another shift"
    } else if !tens.is_empty() && tens[0].value() == 0 {
        "a leading zero"
    } else if value.wrapping_mul(10).wrapping_add(units) != u64::from(number) {
        "another number"
    } else if orders != wanted {
        "another count"
    } else {
        ""
    }
}

/// Prints the number of a machine that counts, checks what is printed, and goes on to the next call.
fn expect_printed(rt: &impl Abort, alloc: Global, machine: &mut Machine, number: u32) {
    let mut paper = Paper::new(alloc, 6).expect(rt, "memory");
    assert!(rt; machine.word(H).value() == number);
    let back = print(rt, machine, BASE, H, &mut paper);
    let wrong = wrong_in(paper.codes(), number, back.orders);
    expect_right(rt, wrong, number);
    count(rt, machine);
}

#[test]
fn every_17th_number_is_printed(rt: HostRuntime) {
    let mut tape = String::new(rt.alloc());
    add_routine(&rt, rt.alloc(), &mut tape, routine(PRINT), BASE, &[H]);
    add_counting_caller(&rt, &mut tape, 300, BASE, H, DISTANCE);
    let mut machine = entered(&rt, rt.alloc(), Size::Full, &tape);
    for k in 0..NUMBERS {
        expect_printed(&rt, rt.alloc(), &mut machine, k * DISTANCE);
    }
}
