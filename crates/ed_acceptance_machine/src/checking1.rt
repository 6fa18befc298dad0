//! The reports of the check on tapes for Initial Orders 1.

use crate::support::expect;
use crate::support1::{LETTER, checked_text, reports};
use ed_initial1::Tape1Cause::{self, BadRow, EndOfTape, FirstWord, NumberTooLarge};
use std::alloc::Global;
use std::process::Abort;

/// A tape, and the orders, the rows and the end that the check tells.
type Row = (&'static str, u64, usize, u16);

const TAPES: [Row; 6] = [
    (LETTER, 120, 12, 35),
    // The rows after the last item are not read, whatever they are.
    ("T35SO34SZSAS*", 120, 12, 35),
    ("T32S", 43, 4, 32),
    ("T33SPS", 62, 6, 33),
    ("T0033S5L", 82, 8, 33),
    ("T34S50L*32767S", 141, 14, 34),
];

/// Checks what the check of a tape tells.
fn expect_checked(rt: &impl Abort, alloc: Global, row: &Row) {
    let (tape, orders, rows, end) = *row;
    let report = checked_text(rt, alloc, tape).ok().expect(rt, tape);
    expect(rt, report.orders() == orders, tape);
    expect(rt, report.rows() == rows && report.end() == end, tape);
}

#[test]
fn the_check_tells_what_a_tape_comes_to(rt: HostRuntime) {
    for row in &TAPES {
        expect_checked(&rt, rt.alloc(), row);
    }
}

/// Locations at which the tape T 35 S, 5 0 L, erase 3 2 7 6 7 L, V 3 2 7 6 7 S places no word.
const NO_PLACES: [u16; 5] = [0, 30, 35, 1023, 65_535];

/// The words that it places.
const PLACES: [(u16, u32); 4] = [
    (31, 20_550),
    // 5 as a function, the number 0, and L.
    (32, 20_481),
    // Erase as a function, and the largest number with L: 4096·15 + 65535.
    (33, 126_975),
    // V as a function, and the largest number with S: 4096·31 + 65534 less 131072.
    (34, 61_438),
];

#[test]
fn the_check_tells_the_words_of_a_tape(rt: HostRuntime) {
    let tape = "T35S50L*32767LV32767S";
    let report = checked_text(&rt, rt.alloc(), tape).ok().expect(&rt, tape);
    for place in &NO_PLACES {
        assert!(rt; report.word(*place).is_none(), "{place}");
    }
    for (place, number) in &PLACES {
        let word = report.word(*place).expect(&rt, "a word");
        assert!(rt; word.value() == *number, "{place}");
    }
}

/// Tapes, the rows of their faults, and the faults.
const FAULTS: [(&str, usize, Tape1Cause); 22] = [
    ("", 0, EndOfTape),
    ("T", 1, EndOfTape),
    ("T35", 3, EndOfTape),
    ("T35S", 4, EndOfTape),
    ("T35SO34SZSA", 11, EndOfTape),
    ("T33S", 4, EndOfTape),
    ("PSAS", 1, FirstWord),
    ("T31S", 3, FirstWord),
    ("T1024S", 5, FirstWord),
    ("T32L", 3, FirstWord),
    ("E35S", 3, FirstWord),
    ("TS", 1, FirstWord),
    // The word is that of T 35 S, and the item is not.
    ("R2083S", 5, FirstWord),
    ("T35F", 3, BadRow),
    ("TA", 1, BadRow),
    ("T35S.#", 5, BadRow),
    ("T35SP12SP1@", 10, BadRow),
    ("P32768S", 5, NumberTooLarge),
    ("P0032768S", 7, NumberTooLarge),
    ("T33SP327670", 10, NumberTooLarge),
    ("P32768#", 5, NumberTooLarge),
    ("P3276#8", 5, BadRow),
];

/// Checks the fault of a tape.
fn expect_fault(rt: &impl Abort, alloc: Global, tape: &str, fault: (usize, Tape1Cause)) {
    let told = checked_text(rt, alloc, tape);
    expect(rt, reports(rt, &told, Some(fault)), tape);
}

#[test]
fn each_fault_at_its_row(rt: HostRuntime) {
    for (tape, row, cause) in &FAULTS {
        expect_fault(&rt, rt.alloc(), tape, (*row, *cause));
    }
}
