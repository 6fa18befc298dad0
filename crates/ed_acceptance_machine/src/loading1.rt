//! Initial Orders 1, obeyed one by one on a tape.

use crate::numbers::word;
use crate::support::{expect, next_turn, rows_of, start_with};
use crate::support1::{LETTER, checked, loaded, misplaced, start, started};
use ed_codes::Code;
use ed_initial1::{Checked1, is_started1, orders1};
use ed_machine::{Machine, Turn};
use ed_words::Size;
use std::alloc::Global;
use std::process::Abort;

/// The listing's words, by location.
const WORDS: [u32; 31] = [
    20_480, 86_020, 20_480, 12_300, 2, 10, 20_480, 32_768, 114_688, 16_416, 20_481, 32_772,
    114_692, 49_162, 12_330, 20_486, 126_978, 102_416, 114_692, 20_482, 12_310, 16_392, 114_690,
    102_401, 114_688, 20_542, 114_738, 114_696, 28_722, 49_214, 110_604,
];

#[test]
fn the_words_of_the_listing(rt: HostRuntime) {
    for (place, word) in orders1().iter().enumerate() {
        assert!(rt; word.value() == WORDS[place], "{place}");
    }
}

/// What the tape of a letter leaves at the entry, by location, if it is not as listed.
const AT_THE_ENTRY: [(u16, u32); 9] = [
    (0, 114_688),
    (1, 0),
    (2, 12),
    (3, 131_066),
    (25, 20_550),
    (31, 20_550),
    (32, 36_932),
    (33, 53_248),
    (34, 114_688),
];

/// The word that a location holds at the entry, which the tape of a letter leaves.
fn wanted(place: u16) -> Option<u32> {
    for (changed, word) in &AT_THE_ENTRY {
        if *changed == place {
            return Some(*word);
        }
    }
    WORDS.get(usize::from(place)).copied()
}

/// The first location that doesn't hold what the orders and the tape of a letter leave there, or, above 34, the word
/// before.
fn first_difference(machine: &Machine, before: &Machine) -> Option<u16> {
    for place in 0..1024 {
        let word = match wanted(place) {
            Some(word) => word,
            None => before.word(place).value(),
        };
        if machine.word(place).value() != word {
            return Some(place);
        }
    }
    None
}

/// Whether the registers are those of an entry, and the sandwich digit of the pair 0, 1 is 0.
fn has_entered(machine: &Machine) -> bool {
    machine.counter() == 31
        && machine.acc() == 0
        && machine.multiplier().value() == 20_480 << 18
        && !machine.sandwich(0)
}

/// The largest tape: T 1023 S and 991 more items, each of this text.
fn largest(rt: &impl Abort, alloc: Global, item: &str) -> Vec<Code> {
    let mut tape = String::new(alloc);
    tape.push_str("T1023S").expect(rt, "memory");
    for _ in 0..991 {
        tape.push_str(item).expect(rt, "memory");
    }
    rows_of(rt, alloc, &tape)
}

/// A short program that leaves 1 in the sandwich digit of the pair 0, 1: A 4 F, R D, T 0 D and Z F, and the word 1,
/// which is halved.
const HALVES_A_WORD: [u32; 5] = [114_696, 16_385, 20_481, 53_248, 1];

/// Obeys the next orders.
fn obey(rt: &impl Abort, machine: &mut Machine, orders: u64) {
    assert!(rt; machine.orders_done() < 1 << 40 && orders < 1 << 40);
    machine.obey_next(orders);
}

/// A machine whose locations 31 to 1022 hold the word of Q 7 L, and whose pair 0, 1 has the sandwich digit 1.
///
/// It has loaded the largest tape of Q 7 L, and then run the program that halves a word.
fn used(rt: &impl Abort, alloc: Global) -> Machine {
    let mut machine = started(rt, alloc, largest(rt, alloc, "Q7L"));
    expect(rt, loaded(rt, &mut machine).is_ok(), "the load");
    let mut image = Vec::new(alloc);
    for number in &HALVES_A_WORD {
        image.push(word(rt, *number)).ok().expect(rt, "memory");
    }
    start_with(rt, &mut machine, &image, Vec::new(alloc));
    obey(rt, &mut machine, 3);
    let has_both = machine.sandwich(0) && machine.word(35).value() == 4111;
    expect(rt, has_both, "the store");
    machine
}

/// Loads the tape of a letter, and checks what is left at the entry.
fn expect_letter(rt: &impl Abort, machine: &mut Machine, before: &Machine) {
    expect(rt, loaded(rt, machine) == Ok(120), "the load");
    let differs = first_difference(machine, before);
    assert!(rt; differs.is_none(), "{differs:?}");
    expect(rt, has_entered(machine), "the registers");
    expect(rt, machine.rows_left().is_empty(), "the tape");
    expect(rt, machine.last_printed().is_none(), "the last code");
}

#[test]
fn a_used_machine_is_loaded_cell_by_cell(rt: HostRuntime) {
    let mut machine = used(&rt, rt.alloc());
    let before = machine.copy().expect(&rt, "memory");
    start(&mut machine, rows_of(&rt, rt.alloc(), LETTER));
    expect_letter(&rt, &mut machine, &before);
}

/// What the next order does, if it leaves the counter there and 0 at 35.
fn turn_to(rt: &impl Abort, machine: &mut Machine, counter: u16) -> Turn {
    let turn = next_turn(rt, machine);
    expect(rt, machine.counter() == counter, "the counter");
    expect(rt, machine.word(35).value() == 0, "the place");
    turn
}

/// The orders of the program that prints a letter are T, O and Z.
#[test]
fn the_first_order_clears_the_place_that_it_names(rt: HostRuntime) {
    let mut machine = used(&rt, rt.alloc());
    start(&mut machine, rows_of(&rt, rt.alloc(), LETTER));
    expect(&rt, loaded(&rt, &mut machine).is_ok(), "the load");
    let turn = turn_to(&rt, &mut machine, 32);
    expect(&rt, matches!(turn, Turn::Went), "T");
    let printed = match turn_to(&rt, &mut machine, 33) {
        Turn::Printed(code) => Some(code.value()),
        _ => None,
    };
    expect(&rt, printed == Some(28), "O");
    let turn = turn_to(&rt, &mut machine, 34);
    expect(&rt, matches!(turn, Turn::Stopped), "Z");
}

/// Checks how the load of a tape ends.
fn expect_end(rt: &impl Abort, alloc: Global, tape: &str, end: Result<u64, u64>) {
    let mut machine = started(rt, alloc, rows_of(rt, alloc, tape));
    expect(rt, loaded(rt, &mut machine) == end, tape);
}

/// Tapes, and the orders until the entry.
const ENTERED: [(&str, u64); 6] = [
    (LETTER, 120),
    ("T35SO34SZSAS*", 120),
    ("T32S", 43),
    ("T33SPS", 62),
    ("T34S50L*32767S", 141),
    // Not in the notation, and yet the orders obey it: the word of the first item is that of T 35 S.
    ("R2083SO34SZSAS", 140),
];

/// Tapes that end too early, and the orders until then.
const LOST: [(&str, u64); 5] = [("", 4), ("T", 9), ("T35", 29), ("T35S", 44), ("T35SO", 48)];

#[test]
fn tapes_are_loaded_at_their_cost_or_are_lost(rt: HostRuntime) {
    for (tape, orders) in &ENTERED {
        expect_end(&rt, rt.alloc(), tape, Ok(*orders));
    }
    for (tape, orders) in &LOST {
        expect_end(&rt, rt.alloc(), tape, Err(*orders));
    }
}

/// Checks the report on the largest tape, and its load on a machine that was started on it.
fn expect_report(
    rt: &impl Abort,
    report: &Checked1,
    machine: &mut Machine,
    row: (&str, u64, usize),
) {
    let (item, orders, rows) = row;
    expect(rt, report.orders() == orders && report.rows() == rows, item);
    expect(rt, report.end() == 1023, item);
    expect(rt, loaded(rt, machine) == Ok(orders), item);
    expect(rt, misplaced(machine, report).is_none(), item);
}

/// Checks the largest tape of an item, its orders and its rows.
fn expect_largest(rt: &impl Abort, alloc: Global, item: &str, orders: u64, rows: usize) {
    let tape = largest(rt, alloc, item);
    let report = checked(rt, alloc, &tape).ok().expect(rt, item);
    let mut machine = started(rt, alloc, tape);
    expect_report(rt, &report, &mut machine, (item, orders, rows));
}

#[test]
fn the_largest_tape(rt: HostRuntime) {
    expect_largest(&rt, rt.alloc(), "PS", 18_892, 1988);
    expect_largest(&rt, rt.alloc(), "Q7L", 28_802, 2979);
}

/// Checks whether a cleared machine of a size counts as started after this many orders of the listing.
fn expect_started(rt: &impl Abort, alloc: Global, size: Size, orders: u64, wanted: bool) {
    let mut machine = Machine::cleared_of(alloc, size).expect(rt, "memory");
    start(&mut machine, Vec::new(alloc));
    obey(rt, &mut machine, orders);
    assert!(rt; is_started1(&machine) == wanted, "{orders}");
}

#[test]
fn a_machine_is_started_at_full_size_and_at_0(rt: HostRuntime) {
    expect_started(&rt, rt.alloc(), Size::Full, 0, true);
    expect_started(&rt, rt.alloc(), Size::Full, 1, false);
    expect_started(&rt, rt.alloc(), Size::Small, 0, false);
}
