//! The calendar of a month, compared with a plain computation.

use crate::support::{answers, expect_no_program, repeated};
use ed_programs::{Refusal, calendar_program};
use std::alloc::Global;
use std::process::Abort;

/// A month and its year, its three letters, the days of a week before its first, from Sunday on, and its days.
type Month = (u16, u16, &'static str, u32, u32);

/// Months, as another calendar has them.
const MONTHS: [Month; 20] = [
    (1, 1901, "JAN", 2, 31),
    (2, 1901, "FEB", 5, 28),
    (2, 1903, "FEB", 0, 28),
    (2, 1904, "FEB", 1, 29),
    (3, 1904, "MAR", 2, 31),
    (6, 1914, "JUN", 1, 30),
    (11, 1918, "NOV", 5, 30),
    (10, 1929, "OCT", 2, 31),
    (5, 1949, "MAY", 0, 31),
    (4, 1951, "APR", 0, 30),
    (7, 1976, "JUL", 4, 31),
    (8, 1976, "AUG", 0, 31),
    (9, 1984, "SEP", 6, 30),
    (12, 1999, "DEC", 3, 31),
    (1, 2000, "JAN", 6, 31),
    (2, 2000, "FEB", 2, 29),
    (10, 2011, "OCT", 6, 31),
    (2, 2096, "FEB", 3, 29),
    (8, 2098, "AUG", 5, 31),
    (12, 2099, "DEC", 2, 31),
];

/// Months and years that are refused, and why.
const NO_MONTHS: [(u16, u16, Refusal); 6] = [
    (0, 1949, Refusal::Month),
    (13, 1949, Refusal::Month),
    (65535, 1900, Refusal::Month),
    (5, 1900, Refusal::Year),
    (5, 2100, Refusal::Year),
    (1, 0, Refusal::Year),
];

/// The calendar of a month, with a new line after each Saturday.
fn calendar_text(rt: &impl Abort, alloc: Global, month: Month) -> String {
    let (_, year, name, before, days) = month;
    let gap = repeated(rt, alloc, &[("   ", before)]);
    let mut text = format!(in alloc;
        "      {name} {year}\r\n SU MO TU WE TH FR SA\r\n{gap}"
    ).expect(rt, "memory");
    for day in 1..days.saturating_add(1) {
        let space = if day < 10 { "  " } else { " " };
        let saturday = before.saturating_add(day) % 7 == 0;
        let end = if saturday { "\r\n" } else { "" };
        write!(text, "{space}{day}{end}").expect(rt, "memory");
    }
    text
}

#[test]
fn calendar_prints_its_month(rt: HostRuntime) {
    for row in &MONTHS {
        let (month, year, _, _, _) = *row;
        let wanted = calendar_text(&rt, rt.alloc(), *row);
        let tape = calendar_program(rt.alloc(), month, year);
        answers(&rt, rt.alloc(), "tape", tape, &wanted);
    }
}

#[test]
fn months_out_of_range_are_refused(rt: HostRuntime) {
    for row in &NO_MONTHS {
        let (month, year, cause) = *row;
        let tape = calendar_program(rt.alloc(), month, year);
        expect_no_program(&rt, tape, cause, &[month, year]);
    }
}
