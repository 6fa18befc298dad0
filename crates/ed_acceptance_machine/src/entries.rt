//! The store at the entry of a tape, compared with the checker's report.

use crate::support::{LETTER, checked, expect, loaded, rows_of, started, stops};
use ed_initial::begin;
use ed_machine::Machine;
use ed_notation::Checked;
use ed_words::Size;
use std::alloc::Global;
use std::process::Abort;

/// A program that leaves a sandwich digit between 100 and 101, and words of its own.
const BEFORE: &str = "T64KGKA4#@RDT100DZFPFPDEZPF";

/// A machine on which that program was loaded and run.
fn used_machine(rt: &impl Abort, alloc: Global, size: Size) -> Machine {
    let mut machine = started(rt, alloc, size, BEFORE);
    expect(rt, loaded(rt, &mut machine) == Ok((64, 302)), BEFORE);
    for _ in 0..3 {
        expect(rt, !stops(rt, &mut machine), BEFORE);
    }
    expect(rt, stops(rt, &mut machine), BEFORE);
    expect(rt, machine.sandwich(100), BEFORE);
    machine
}

/// The first location above 43 that holds neither what the tape placed there nor, if it placed nothing, what was there
/// before, or whose sandwich digit is another one.
fn first_difference(machine: &Machine, before: &Machine, checked: &Checked) -> Option<u16> {
    for place in 44..1024 {
        let wanted = checked.word(place).unwrap_or(before.word(place));
        if machine.word(place) != wanted || machine.sandwich(place) != before.sandwich(place) {
            return Some(place);
        }
    }
    None
}

/// Checks the load of a tape of rows of one byte on a machine by the checker's report on the machine before.
fn expect_as_checked(
    rt: &impl Abort,
    machine: &mut Machine,
    before: &Machine,
    report: &Checked,
    tape: &str,
) {
    let end = Ok((report.entry(), report.orders()));
    expect(rt, loaded(rt, machine) == end, tape);
    let differs = first_difference(machine, before, report);
    expect(rt, differs.is_none(), tape);
    expect(rt, machine.word(42) == report.theta(), tape);
    let read = tape.len().checked_sub(machine.rows_left().len());
    expect(rt, read == Some(report.rows()), tape);
}

/// Checks the load of such a tape on a used machine of a size.
fn expect_checked(rt: &impl Abort, alloc: Global, size: Size, tape: &str) {
    let mut machine = used_machine(rt, alloc, size);
    let before = machine.copy().expect(rt, "memory");
    begin(&mut machine, rows_of(rt, alloc, tape));
    let told = checked(rt, alloc, before.size(), before.store(), tape);
    let report = told.ok().expect(rt, tape);
    expect_as_checked(rt, &mut machine, &before, &report, tape);
}

/// Sizes and tapes.
const TAPES: [(Size, &str); 7] = [
    (Size::Small, LETTER),
    (Size::Full, LETTER),
    (Size::Full, "..PKT64KGKO2@ZFAFEZPF"),
    (Size::Small, "T45KP100FT64KA1HT100KA1!E64KPF"),
    (Size::Full, "T45KP100FT64KA1HT100KA1!E64KPF"),
    (Size::Small, "T44K#FT500KP1DA2#DP3@E500KPD"),
    (Size::Full, "T44K#FT500KP1DA2#DP3@E500KPD"),
];

#[test]
fn the_store_at_the_entry_is_what_the_checker_tells(rt: HostRuntime) {
    for (size, tape) in &TAPES {
        expect_checked(&rt, rt.alloc(), *size, tape);
    }
}
