//! A run of the machine on a tape, by the calls of the crates below.

use crate::numbers::number_of_the_only;
use crate::support::{expect, word_at};
use ed_codes::{Code, tape_of_text};
use ed_initial::orders;
use ed_machine::{Ending, Machine, Paper};
use ed_report::ending_text;
use ed_run::run;
use ed_words::Word;
use std::alloc::Global;
use std::process::Abort;

/// The Initial Orders. No clause says which they are, so that no proof goes through them.
pub fn listing() -> [Word; 41] {
    orders()
}

/// A machine after its run on a tape that prints A and stops, with two blank rows after the tape's own.
fn machine_after_a_run(rt: &impl Abort, alloc: Global) -> Machine {
    let mut paper = Paper::new(alloc, 10).expect(rt, "memory");
    let mut machine = Machine::cleared(alloc).expect(rt, "memory");
    let rows = tape_of_text(alloc, b"T64KGKO2@ZFAFEZPF..").expect(rt, "a tape");
    let _no_rows = machine.start(&listing(), rows);
    assert!(rt; machine.orders_done() <= 1000);
    let ending = run(&mut machine, 1000, 0, &mut paper);
    expect(rt, matches!(ending, Ending::Stopped), "the ending");
    let printed = number_of_the_only(paper.codes());
    expect(rt, printed == Some(28), "the codes");
    machine
}

#[test]
fn a_run_leaves_its_registers_its_tape_and_its_words(rt: HostRuntime) {
    let machine = machine_after_a_run(&rt, rt.alloc());
    expect(&rt, machine.counter() == 66, "the counter");
    expect(&rt, machine.orders_done() == 193, "the orders");
    expect(&rt, machine.acc() == 0, "the accumulator");
    let multiplier = machine.multiplier().value();
    expect(&rt, multiplier == 20_480 * 262_144, "the multiplier");
    expect(&rt, machine.rows_left().len() == 2, "the rows");
    expect(&rt, word_at(&rt, &machine, 64) == 36_996, "the word at 64");
    expect(&rt, word_at(&rt, &machine, 65) == 53_248, "the word at 65");
    expect(
        &rt,
        machine.last_printed() == Code::new(28),
        "the last code",
    );
}

#[test]
fn the_ending_of_a_run_is_told(rt: HostRuntime) {
    let machine = machine_after_a_run(&rt, rt.alloc());
    let other = machine.copy().expect(&rt, "memory");
    assert!(rt; other.store().equals(machine.store()));
    let line = ending_text(rt.alloc(), Ending::Stopped, &other).expect(&rt, "memory");
    assert!(rt; line.as_slice() == b"stopped at 66 after 193\n".as_slice());
}
