//! Whole runs of the command `tape`.

use crate::support::{Row, expect, expect_beginning, expect_each, repeated};

const RUNS: [Row; 12] = [
    // A run ends as the machine does.
    (
        "tape",
        "T64KGKO2@ZFAFEZPF",
        0,
        "A",
        "stopped at 66 after 193\n",
    ),
    ("tape", "EZPF", 5, "", "no order at 0 after 51: PF\n"),
    ("tape", "", 6, "", "no tape at 34 after 9\n"),
    ("tape", "T64K%", 3, "", "byte 4: T1 no row\n"),
    ("tape", "PF[x", 3, "", "byte 2: T2 open comment\n"),
    (
        "tape",
        "T64KGKO4@O5@O6@ZF#FHFAFEZPF",
        0,
        "\u{a3}-",
        "stopped at 68 after 305\n",
    ),
    // At the limit, a word that is not an order and a tape without rows are not reported.
    ("tape --limit 51", "EZPF", 4, "", "limit at 0 after 51\n"),
    ("tape --limit 9", "", 4, "", "limit at 34 after 9\n"),
    // A tape that is cut ends the run where it is read.
    ("tape", "T", 6, "", "no tape at 9 after 15\n"),
    ("tape", "T6", 6, "", "no tape at 9 after 24\n"),
    ("tape", "T64", 6, "", "no tape at 9 after 33\n"),
    ("tape", "T64K", 6, "", "no tape at 34 after 49\n"),
];

#[test]
fn runs_of_a_tape(rt: HostRuntime) {
    expect_each(&rt, rt.alloc(), &RUNS);
}

#[test]
fn a_program_that_prints_for_ever_fills_the_paper(rt: HostRuntime) {
    let letters = repeated(&rt, rt.alloc(), &[("O", 1_000_000)]);
    let wanted = (7, letters.as_str(), "paper full at 64 after 2000159\n");
    expect(&rt, rt.alloc(), "tape", "T64KGKO@E@EZPF", wanted);
}

/// The numbers of blanks that are the longest input and one too long, the status, and the note.
const BLANKS: [(u32, u8, &str); 2] = [
    (262_144, 6, "no tape at 34 after 9\n"),
    (262_145, 11, "input too long\n"),
];

#[test]
fn an_input_of_too_many_bytes_is_refused(rt: HostRuntime) {
    for (blanks, status, note) in &BLANKS {
        let input = repeated(&rt, rt.alloc(), &[(" ", *blanks)]);
        expect(&rt, rt.alloc(), "tape", &input, (*status, "", note));
    }
}

/// The notes of a tape that is cut, between two items and within one.
const BETWEEN: &str = "no tape at 34 after ";

const WITHIN: &str = "no tape at 9 after ";

/// The first rows of the tape that prints A, and how the note begins if there is no more.
const CUT: [(&str, &str); 17] = [
    ("", BETWEEN),
    ("T", WITHIN),
    ("T6", WITHIN),
    ("T64", WITHIN),
    ("T64K", BETWEEN),
    ("T64KG", WITHIN),
    ("T64KGK", BETWEEN),
    ("T64KGKO", WITHIN),
    ("T64KGKO2", WITHIN),
    ("T64KGKO2@", BETWEEN),
    ("T64KGKO2@Z", WITHIN),
    ("T64KGKO2@ZF", BETWEEN),
    ("T64KGKO2@ZFA", WITHIN),
    ("T64KGKO2@ZFAF", BETWEEN),
    ("T64KGKO2@ZFAFE", WITHIN),
    ("T64KGKO2@ZFAFEZ", BETWEEN),
    ("T64KGKO2@ZFAFEZP", WITHIN),
];

#[test]
fn a_tape_that_is_cut_ends_the_run_where_it_is_read(rt: HostRuntime) {
    for (tape, note) in &CUT {
        expect_beginning(&rt, rt.alloc(), "tape", tape, (6, "", note));
    }
}

/// A tape of 36,097 rows: 900 words placed 20 times over, and then the tape that prints A. `T 64 K` costs 40 orders and
/// each `P F` 23; the rest costs 9 less than alone.
#[test]
fn a_tape_of_many_thousand_rows(rt: HostRuntime) {
    let block = repeated(&rt, rt.alloc(), &[("T64K", 1), ("PF", 900)]);
    let parts = [(block.as_str(), 20), ("T64KGKO2@ZFAFEZPF", 1)];
    let tape = repeated(&rt, rt.alloc(), &parts);
    let checked = (0, "entry 64 after 414991 orders, 36097 rows\n", "");
    expect(&rt, rt.alloc(), "check-tape", &tape, checked);
    let stopped = (0, "A", "stopped at 66 after 414993\n");
    expect(&rt, rt.alloc(), "tape", &tape, stopped);
}
