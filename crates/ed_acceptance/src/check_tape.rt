//! The answers of `check-tape`.

use crate::support::expect;
use ed_codes::{Code, byte_of};
use std::alloc::Global;
use std::process::Abort;

/// Command lines, tapes, and the lines that are due for them.
const VERDICTS: [(&str, &str, &str); 64] = [
    // The worked tapes.
    ("check-tape", "EZPF", "row 3: N10 entry in loader"),
    (
        "check-tape",
        "T64KGKO2@ZFAFEZPF",
        "entry 64 after 191 orders, 17 rows",
    ),
    (
        "check-tape",
        "T64KP32767DE64KPF",
        "entry 64 after 176 orders, 17 rows",
    ),
    ("check-tape", "P32768F", "row 5: N3 number too large"),
    (
        "check-tape",
        "T64KGKA2#@EZPF",
        "entry 64 after 160 orders, 14 rows",
    ),
    (
        "check-tape",
        "T45KP100FT64KA1HE64KPF",
        "entry 64 after 230 orders, 22 rows",
    ),
    ("check-tape", "E64KAF", "row 5: N9 entry negative"),
    ("check-tape", "T20KPF", "row 5: N6 loader store"),
    (
        "check-tape",
        "T20KT64KPFE64KPF",
        "entry 64 after 171 orders, 16 rows",
    ),
    ("check-tape", "T1023KPFPF", "row 9: N7 store end"),
    ("check-tape", "", "row 0: N1 end of tape"),
    (
        "check-tape",
        "..PKT64KGKO2@ZFAFEZPF",
        "entry 64 after 233 orders, 21 rows",
    ),
    (
        "check-tape",
        "...PKT64KGKO2@ZFAFEZPF",
        "entry 64 after 242 orders, 22 rows",
    ),
    ("check-tape", "PKAF", "row 3: N8 no place"),
    (
        "check-tape",
        "P1023ZT64KPFE64KPF",
        "entry 64 after 190 orders, 18 rows",
    ),
    ("check-tape", "P1024ZT64KPFE64KPF", "row 5: N7 store end"),
    (
        "check-tape",
        "T64K..PZGKO2@ZFAFEZPF",
        "entry 64 after 234 orders, 21 rows",
    ),
    // Each rule at its row.
    ("check-tape", "T64", "row 3: N1 end of tape"),
    ("check-tape", "T64KPF", "row 6: N1 end of tape"),
    ("check-tape", "P#J", "row 2: N2 bad row"),
    ("check-tape", ".5.", "row 2: N2 bad row"),
    ("check-tape", ".#.", "row 2: N2 bad row"),
    ("check-tape", "P32767F", "row 7: N1 end of tape"),
    ("check-tape", "P000032768F", "row 9: N3 number too large"),
    ("check-tape", "P327670F", "row 6: N3 number too large"),
    ("check-tape", "P5#5F", "row 3: N4 after mark"),
    ("check-tape", "P##F", "row 2: N4 after mark"),
    ("check-tape", "P#K", "row 2: N5 bad control"),
    ("check-tape", "T64#Z", "row 4: N5 bad control"),
    ("check-tape", "A5K", "row 2: N5 bad control"),
    ("check-tape", "G5Z", "row 2: N5 bad control"),
    ("check-tape", "T43KPF", "row 5: N6 loader store"),
    ("check-tape", "T44KPF", "row 6: N1 end of tape"),
    ("check-tape", "T1023K", "row 6: N1 end of tape"),
    ("check-tape", "T1024K", "row 5: N7 store end"),
    ("check-tape", "G1024K", "row 5: N7 store end"),
    ("check-tape", "T1023Z", "row 6: N1 end of tape"),
    ("check-tape", "T1024Z", "row 5: N7 store end"),
    ("check-tape", "T32767Z", "row 6: N7 store end"),
    ("check-tape", ".32767Z", "row 7: N1 end of tape"),
    ("check-tape", "T64KGK.32767Z", "row 12: N7 store end"),
    ("check-tape", "E43KPF", "row 5: N10 entry in loader"),
    ("check-tape", "E44KPF", "entry 44 after 68 orders, 6 rows"),
    (
        "check-tape",
        "E1023KPF",
        "entry 1023 after 86 orders, 8 rows",
    ),
    ("check-tape", "P6144ZPF", "row 7: N10 entry in loader"),
    ("check-tape", "P6208ZPF", "entry 64 after 87 orders, 8 rows"),
    // The first row, and then the first rule.
    ("check-tape", "P32768J", "row 5: N3 number too large"),
    ("check-tape", "T20KPFPJ", "row 5: N6 loader store"),
    ("check-tape", "PJP32768F", "row 1: N2 bad row"),
    ("check-tape", "P3276#8F", "row 6: N4 after mark"),
    ("check-tape", "P32767#9F", "row 7: N4 after mark"),
    ("check-tape", "A1024K", "row 5: N5 bad control"),
    ("check-tape", "P1024#K", "row 6: N5 bad control"),
    ("check-tape", "GZEZPF", "row 1: N5 bad control"),
    ("check-tape", "PKAFEZPF", "row 3: N8 no place"),
    ("check-tape", "E43KAF", "row 5: N9 entry negative"),
    ("check-tape", "E64KAFP", "row 5: N9 entry negative"),
    // A store of 512 locations ends sooner.
    ("check-tape --store 512", "T511KPFPF", "row 8: N7 store end"),
    ("check-tape", "T511KPFPF", "row 9: N1 end of tape"),
    ("check-tape --store=512", "E600KPF", "row 6: N7 store end"),
    ("check-tape --store=512", "E600KAF", "row 6: N7 store end"),
    ("check-tape", "E600KPF", "entry 600 after 77 orders, 7 rows"),
    ("check-tape", "E600KAF", "row 6: N9 entry negative"),
    ("--store=512 check-tape", "T1023K", "row 6: N1 end of tape"),
];

/// Checks that a command line gives this line for a tape: on `out` if the tape is well formed, otherwise on `note`.
fn says(rt: &impl Abort, alloc: Global, line: &str, tape: &str, verdict: &str) {
    let text = format!(in alloc; "{verdict}\n").expect(rt, "memory");
    let wanted = if verdict.starts_with("entry ") {
        (0, text.as_str(), "")
    } else {
        (3, "", text.as_str())
    };
    expect(rt, alloc, line, tape, wanted);
}

#[test]
fn the_entry_or_the_first_rule_at_its_row(rt: HostRuntime) {
    for (line, tape, verdict) in &VERDICTS {
        says(&rt, rt.alloc(), line, tape, verdict);
    }
}

/// The tape that prints A is cut before each of its rows.
#[test]
fn a_tape_that_is_cut_has_no_entry(rt: HostRuntime) {
    let mut cut = String::new(rt.alloc());
    for (rows, row) in "T64KGKO2@ZFAFEZPF".chars().enumerate() {
        let verdict = format!(in rt.alloc(); "row {rows}: N1 end of tape").expect(&rt, "memory");
        says(&rt, rt.alloc(), "check-tape", &cut, &verdict);
        cut.push(row).expect(&rt, "memory");
    }
}

/// The line for the tape of a function row and a row after it.
fn verdict_of_two(function: u8, row: u8) -> &'static str {
    let blanks = function == b'.' && row == b'.';
    if !blanks && b"JS*.".contains(&row) {
        "row 1: N2 bad row"
    } else if row == b'Z' && b"AG".contains(&function) || row == b'K' && function == b'A' {
        "row 1: N5 bad control"
    } else {
        "row 2: N1 end of tape"
    }
}

/// Checks the line for the tape of a function row and the row of a code after it.
fn expect_two(rt: &impl Abort, alloc: Global, function: u8, number: u8) {
    let row = byte_of(Code::new(number).expect(rt, "a code"), false);
    let (first, second) = (char::from(function), char::from(row));
    let tape = format!(in alloc; "{first}{second}").expect(rt, "memory");
    let verdict = verdict_of_two(function, row);
    says(rt, alloc, "check-tape", &tape, verdict);
}

#[test]
fn every_code_after_a_function_row(rt: HostRuntime) {
    for function in b"P.AG" {
        for number in 0..32 {
            expect_two(&rt, rt.alloc(), *function, number);
        }
    }
}
