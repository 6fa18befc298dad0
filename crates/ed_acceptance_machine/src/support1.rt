//! What the tests of Initial Orders 1 share: machines started on rows, checks and loads.

use crate::support::rows_of;
use ed_codes::Code;
use ed_initial1::{Checked1, Loaded1, Tape1Cause, Tape1Fault, check1, is_started1, load1, orders1};
use ed_machine::Machine;
use std::alloc::Global;
use std::process::Abort;

/// The tape that prints A: it clears 35, prints the letter at 34 and stops.
pub const LETTER: &str = "T35SO34SZSAS";

/// What the check of few rows answers.
pub fn checked(rt: &impl Abort, alloc: Global, rows: &[Code]) -> Result<Checked1, Tape1Fault> {
    assert!(rt; rows.len() < 10000);
    check1(alloc, rows)
}

/// What the check of a tape's text answers.
pub fn checked_text(rt: &impl Abort, alloc: Global, tape: &str) -> Result<Checked1, Tape1Fault> {
    let rows = rows_of(rt, alloc, tape);
    checked(rt, alloc, &rows)
}

/// Starts a machine on rows with Initial Orders 1.
pub fn start(machine: &mut Machine, rows: Vec<Code>) {
    let _old_rows = machine.start(&orders1(), rows);
}

/// A cleared machine, started on rows with Initial Orders 1.
pub fn started(rt: &impl Abort, alloc: Global, rows: Vec<Code>) -> Machine {
    let mut machine = Machine::cleared(alloc).expect(rt, "memory");
    start(&mut machine, rows);
    machine
}

/// Loads the tape that a machine was started on: the orders until the entry, or until the load was lost.
pub fn loaded(rt: &impl Abort, machine: &mut Machine) -> Result<u64, u64> {
    assert!(rt; is_started1(machine));
    let done = machine.orders_done();
    let rows = machine.rows_left().len();
    assert!(rt; done < 1 << 20 && rows < 1 << 20);
    match load1(machine) {
        Loaded1::Entered { orders } => Ok(orders),
        Loaded1::Lost { orders } => Err(orders),
    }
}

/// The place of a cause among the causes of faults, from 1.
fn number_of(cause: Tape1Cause) -> u8 {
    match cause {
        Tape1Cause::EndOfTape => 1,
        Tape1Cause::BadRow => 2,
        Tape1Cause::NumberTooLarge => 3,
        Tape1Cause::FirstWord => 4,
    }
}

/// Whether a check reports this row and this cause, or no fault for None.
pub fn reports(
    rt: &impl Abort,
    told: &Result<Checked1, Tape1Fault>,
    wanted: Option<(usize, Tape1Cause)>,
) -> bool {
    match (told, wanted) {
        (Ok(_), wanted) => wanted.is_none(),
        (Err(Tape1Fault::At { row, cause }), Some((at, wanted))) => {
            *row == at && number_of(*cause) == number_of(wanted)
        }
        (Err(Tape1Fault::At { .. }), None) => false,
        (Err(Tape1Fault::Memory), _) => rt.panic("no memory"),
    }
}

/// The first location whose word is not the one that a check reports.
pub fn misplaced(machine: &Machine, checked: &Checked1) -> Option<u16> {
    for place in 31..1024 {
        if let Some(word) = checked.word(place) {
            if machine.word(place) != word {
                return Some(place);
            }
        }
    }
    None
}
