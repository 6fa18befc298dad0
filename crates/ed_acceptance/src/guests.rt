//! Guests of the checking routine compared with a plain computation: the letters of their orders, and what they print.

use crate::support::{answers, repeated};
use ed_programs::checked_program;
use std::alloc::Global;
use std::process::Abort;

/// The guest of `examples/checked.edsac`, without its comments.
const EXAMPLE: &str = "version 2\n\
    segment main\n\
    O _letters F\n\
    _turn: O _space F\n\
    T _scrap F\n\
    O letter F\n\
    A letter F\n\
    A _next F\n\
    T letter F\n\
    A _count F\n\
    A _one F\n\
    U _count F\n\
    G _turn F\n\
    Z F\n\
    letter: A F\n\
    _next: Q F\n\
    _count: word -3\n\
    _one: word 1\n\
    _letters: * F\n\
    _space: ! F\n\
    _scrap: P F";

/// Letters that a guest prints.
const LETTERS: [&str; 6] = [
    "A",
    "Z",
    "HELLO",
    "EDSAC",
    "CHECKED",
    "ABCDEFGHIJKLMNOPQRSTUVWXYZ",
];

/// Functions of the orders of a guest.
const FUNCTIONS: [&str; 8] = [
    "",
    "A",
    "AS",
    "HVN",
    "TUC",
    "HVYXRLT",
    "AAAAAAAAAA",
    "CASHRUNTVLXY",
];

/// Checks that the run of the guest's source prints a text and stops.
fn checks(rt: &impl Abort, alloc: Global, guest: &str, wanted: &str) {
    answers(rt, alloc, "run", checked_program(alloc, guest), wanted);
}

/// A guest that prints these letters one by one.
fn printing_guest(rt: &impl Abort, alloc: Global, letters: &str) -> String {
    let mut guest = String::from_str(alloc, "segment main\nO shift F\n").expect(rt, "memory");
    for place in 0..letters.len() {
        write!(guest, "O letters+{place} F\n").expect(rt, "memory");
    }
    write!(guest, "Z F\nshift: * F\nletters: text \"{letters}\"").expect(rt, "memory");
    guest
}

/// Checks a guest that prints these letters.
fn expect_letters(rt: &impl Abort, alloc: Global, letters: &str) {
    let guest = printing_guest(rt, alloc, letters);
    let mut wanted = String::from_str(alloc, "O").expect(rt, "memory");
    for letter in letters.chars() {
        write!(wanted, "O{letter}").expect(rt, "memory");
    }
    wanted.push('Z').expect(rt, "memory");
    checks(rt, alloc, &guest, &wanted);
}

/// Checks a guest that obeys one order for each of these functions.
fn expect_functions(rt: &impl Abort, alloc: Global, functions: &str) {
    let mut guest = String::from_str(alloc, "segment main\n").expect(rt, "memory");
    for function in functions.chars() {
        write!(guest, "{function} place F\n").expect(rt, "memory");
    }
    guest.push_str("Z F\nplace: P 1 F\n").expect(rt, "memory");
    let wanted = format!(in alloc; "{functions}Z").expect(rt, "memory");
    checks(rt, alloc, &guest, &wanted);
}

/// Checks a guest that goes through a loop this number of times.
fn expect_turns(rt: &impl Abort, alloc: Global, turns: u32) {
    let guest = format!(in alloc;
        "segment main\n\
            T scrap F\n\
            A count F\n\
            A one F\n\
            U count F\n\
            G main F\n\
            E last F\n\
            scrap: P F\n\
            last: Z F\n\
            count: word -{turns}\n\
            one: word 1"
    )
    .expect(rt, "memory");
    let wanted = repeated(rt, alloc, &[("TAAUG", turns), ("EZ", 1)]);
    checks(rt, alloc, &guest, &wanted);
}

#[test]
fn each_letter_follows_its_order(rt: HostRuntime) {
    for letters in &LETTERS {
        expect_letters(&rt, rt.alloc(), letters);
    }
}

#[test]
fn each_order_is_its_letter(rt: HostRuntime) {
    for functions in &FUNCTIONS {
        expect_functions(&rt, rt.alloc(), functions);
    }
}

#[test]
fn each_turn_of_a_loop_is_printed(rt: HostRuntime) {
    for turns in 1..12 {
        expect_turns(&rt, rt.alloc(), turns);
    }
}

#[test]
fn the_example_is_printed(rt: HostRuntime) {
    let wanted = "OO TOAAATAAUGO TOBAATAAUGO TOCAATAAUGZ";
    checks(&rt, rt.alloc(), EXAMPLE, wanted);
}
