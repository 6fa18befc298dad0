//! The Initial Orders, obeyed one by one on a tape.

use crate::support::{LETTER, expect, loaded, rows_of, started, stops, word_at};
use ed_codes::Code;
use ed_initial::{Rested, begin, is_started, to_rest};
use ed_machine::Machine;
use ed_words::Size;
use std::alloc::Global;
use std::process::Abort;

/// What the loader and the tape of a letter leave at the entry, by location.
const AT_THE_ENTRY: [(u16, u32); 11] = [
    (0, 0),
    (1, 17),
    (20, 114_770),
    (22, 12_416),
    (40, 0),
    (41, 0),
    (42, 128),
    (43, 1),
    (64, 36_996),
    (65, 53_248),
    (66, 114_688),
];

/// Starts a machine again, which has obeyed `done` orders, on the tape of a letter; checks its load and its stop.
fn expect_load(rt: &impl Abort, alloc: Global, machine: &mut Machine, done: u64) {
    begin(machine, rows_of(rt, alloc, LETTER));
    expect(rt, machine.orders_done() == done, "the orders before");
    expect(rt, loaded(rt, machine) == Ok((64, 191)), "the load");
    for (place, word) in &AT_THE_ENTRY {
        expect(rt, word_at(rt, machine, *place) == *word, "another word");
    }
    expect(rt, machine.acc() == 0, "another accumulator");
    expect(rt, machine.counter() == 64, "another counter");
    let multiplier = machine.multiplier().value();
    expect(rt, multiplier == 20_480 << 18, "another multiplier");
    expect(rt, !stops(rt, machine) && stops(rt, machine), "the stop");
}

#[test]
fn a_tape_is_loaded_twice_without_clearing(rt: HostRuntime) {
    let mut machine = Machine::cleared(rt.alloc()).expect(&rt, "memory");
    expect_load(&rt, rt.alloc(), &mut machine, 0);
    expect_load(&rt, rt.alloc(), &mut machine, 193);
    expect(&rt, machine.last_printed() == Code::new(28), "the letter");
}

/// The next rests of the loader on the tape of a letter: the location, the orders from the rest before, and all orders.
const RESTS: [(u16, u64, u64); 7] = [
    (34, 9, 9),
    (9, 6, 15),
    (9, 9, 24),
    (9, 9, 33),
    (34, 16, 49),
    (9, 6, 55),
    (34, 16, 71),
];

/// The location at which the loader rests next and the orders until then; None if it does not rest.
fn rested(rt: &impl Abort, machine: &mut Machine) -> Option<(u16, u64)> {
    let counter = machine.counter();
    assert!(rt; counter == 0 || (counter == 9 || counter == 34));
    assert!(rt; machine.orders_done() < 1 << 20);
    match to_rest(machine) {
        Rested::At { place, orders } => Some((place, orders)),
        Rested::Entered { .. } | Rested::Lost { .. } => None,
    }
}

/// Checks the rests of the loader on a machine that was started.
fn expect_rests(rt: &impl Abort, machine: &mut Machine) {
    for (place, orders, done) in &RESTS {
        let told = rested(rt, machine);
        expect(rt, told == Some((*place, *orders)), "the rest");
        expect(rt, machine.orders_done() == *done, "all orders");
    }
}

#[test]
fn the_loader_rests_at_34_between_items(rt: HostRuntime) {
    let mut machine = started(&rt, rt.alloc(), Size::Full, LETTER);
    expect_rests(&rt, &mut machine);
}

/// Tapes, the locations at which their programs are entered, and the orders until then.
const ENTERED: [(&str, u16, u64); 5] = [
    ("..PKT64KGKO2@ZFAFEZPF", 64, 233),
    ("...PKT64KGKO2@ZFAFEZPF", 64, 242),
    ("T64K..PZGKO2@ZFAFEZPF", 64, 234),
    ("T45KP100FT64KA1HE64KPF", 64, 230),
    // An entry in the loader is not part of the notation, and yet the orders obey it.
    ("EZPF", 0, 51),
];

/// Tapes that have no entry, and the orders until they end.
const LOST: [(&str, u64); 2] = [("", 9), ("T64K", 49)];

/// Checks how the load of a tape ends.
fn expect_end(rt: &impl Abort, alloc: Global, tape: &str, end: Result<(u16, u64), u64>) {
    let mut machine = started(rt, alloc, Size::Full, tape);
    expect(rt, loaded(rt, &mut machine) == end, tape);
}

#[test]
fn tapes_are_loaded_at_their_cost_or_are_lost(rt: HostRuntime) {
    for (tape, at, orders) in &ENTERED {
        expect_end(&rt, rt.alloc(), tape, Ok((*at, *orders)));
    }
    for (tape, orders) in &LOST {
        expect_end(&rt, rt.alloc(), tape, Err(*orders));
    }
}

#[test]
fn a_negative_entry_is_lost(rt: HostRuntime) {
    let mut machine = started(&rt, rt.alloc(), Size::Full, "E64KAF");
    assert!(rt; loaded(&rt, &mut machine).is_err());
    assert!(rt; !is_started(&machine));
}
