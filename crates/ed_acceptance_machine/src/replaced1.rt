//! Every row of a short tape for Initial Orders 1 replaced by every code: the check's answer, and what the orders do.

use crate::numbers::code;
use crate::support::rows_of;
use crate::support1::{checked, loaded, misplaced, reports, started};
use ed_codes::Code;
use ed_initial1::Tape1Cause::{BadRow, EndOfTape, FirstWord};
use ed_initial1::{Checked1, Tape1Cause, Tape1Fault};
use ed_machine::Machine;
use std::alloc::Global;
use std::process::Abort;

/// Two items, for 31 and 32.
const TAPE: &str = "T33SA5L";

/// The fault of that tape with this code as its row `place`, if it has one then.
fn wanted(place: usize, code: u8) -> Option<(usize, Tape1Cause)> {
    match (place, code) {
        (0, 5) => None,
        (0, _) => Some((3, FirstWord)),
        // T 13 S, T 23 S; T 33 S; T 43 S and more
        (1, 0..=2) => Some((3, FirstWord)),
        (1, 3) => None,
        (1, 4..=9) => Some((7, EndOfTape)),
        // T 30 S, T 31 S; T 32 S, which is the whole of a tape, and T 33 S; T 34 S and more
        (2, 0..=1) => Some((3, FirstWord)),
        (2, 2..=3) => None,
        (2, 4..=9) => Some((7, EndOfTape)),
        // the first item is longer, and A may not be a row of it
        (3, 0..=9) => Some((4, BadRow)),
        (3, 12) => None,
        (1 | 2 | 3, 12 | 25) => Some((place, FirstWord)),
        // any function
        (4, _) => None,
        (5 | 6, 12 | 25) => None,
        (5, 0..=9) => None,
        (6, 0..=9) => Some((7, EndOfTape)),
        _ => Some((place, BadRow)),
    }
}

/// The tape with another code as one of its rows.
fn replaced(rt: &impl Abort, alloc: Global, place: usize, code: Code) -> Vec<Code> {
    let mut rows = rows_of(rt, alloc, TAPE);
    assert!(rt; place < rows.len());
    rows[place] = code;
    rows
}

/// The number of orders that read rows without a fault up to the end of the tape, where the next order is I: one more
/// than they cost between two items, since T at 6 comes before it.
fn orders_to_the_end(rt: &impl Abort, rows: &[Code]) -> u64 {
    let mut orders = 4;
    let mut inside = false;
    for row in rows {
        let digit = row.value() < 10;
        assert!(rt; orders < 1 << 20);
        orders += match (inside, digit) {
            (false, _) => 5,
            (true, true) => 10,
            (true, false) => 14,
        };
        inside = !inside || digit;
    }
    assert!(rt; orders < 1 << 20);
    if inside { orders } else { orders + 1 }
}

/// Whether as many of some rows are loaded, and to the places, as the check reports, on a machine that was started on
/// them. If they have a fault other than their end, the orders may do anything.
fn is_loaded_as_told(
    rt: &impl Abort,
    machine: &mut Machine,
    rows: &[Code],
    told: &Result<Checked1, Tape1Fault>,
) -> bool {
    let loaded = loaded(rt, machine);
    let left = machine.rows_left().len();
    match told {
        Ok(report) => {
            loaded == Ok(report.orders())
                && rows.len().checked_sub(left) == Some(report.rows())
                && misplaced(machine, report).is_none()
        }
        Err(
            Tape1Fault::At {
                cause: EndOfTape,
                ..
            },
        ) => loaded == Err(orders_to_the_end(rt, rows)) && left == 0,
        Err(_) => true,
    }
}

/// Whether the rows of a list are loaded as the check reports.
fn are_loaded_as_told(
    rt: &impl Abort,
    alloc: Global,
    rows: &[Code],
    told: &Result<Checked1, Tape1Fault>,
) -> bool {
    let mut machine = started(rt, alloc, rows.to_vec(alloc).expect(rt, "memory"));
    is_loaded_as_told(rt, &mut machine, rows, told)
}

/// Whether the check of the tape with a code as one of its rows answers what is wanted, and the rows are loaded as it
/// reports.
fn is_as_wanted(rt: &impl Abort, alloc: Global, place: usize, number: u8) -> bool {
    let rows = replaced(rt, alloc, place, code(rt, number));
    let told = checked(rt, alloc, &rows);
    reports(rt, &told, wanted(place, number)) && are_loaded_as_told(rt, alloc, &rows, &told)
}

#[test]
fn every_code_at_every_place(rt: HostRuntime) {
    for place in 0..7 {
        for number in 0..32 {
            let told = is_as_wanted(&rt, rt.alloc(), place, number);
            assert!(rt; told, "{number} at {place}");
        }
    }
}
