//! The commands `tape1` and `check-tape1`.

use crate::support::{Row, expect_each};

const PRINTS_A: &str = "T35SO34SZSAS";

const RUNS: [Row; 21] = [
    ("tape1", PRINTS_A, 0, "A", "stopped at 34 after 123\n"),
    (
        "tape1 --limit 123",
        PRINTS_A,
        0,
        "A",
        "stopped at 34 after 123\n",
    ),
    (
        "tape1 --limit 122",
        PRINTS_A,
        4,
        "A",
        "limit at 33 after 122\n",
    ),
    ("--limit=4 tape1", PRINTS_A, 4, "", "limit at 6 after 4\n"),
    (
        "tape1 --resume 1",
        PRINTS_A,
        5,
        "A",
        "no order at 35 after 124: PF\n",
    ),
    ("tape1", "", 6, "", "no tape at 7 after 5\n"),
    ("tape1", "T35S", 6, "", "no tape at 7 after 44\n"),
    ("tape1", "T3", 6, "", "no tape at 11 after 19\n"),
    // The program reads a row after its own tape: I 35 S and Z S.
    (
        "tape1",
        "T36SI35SZSPSPSE",
        0,
        "",
        "stopped at 34 after 142\n",
    ),
    ("tape1", "T35%", 3, "", "byte 3: T1 no row\n"),
    ("tape1", "T35S[", 3, "", "byte 4: T2 open comment\n"),
    (
        "check-tape1",
        PRINTS_A,
        0,
        "entry 31 after 120 orders, 12 rows\n",
        "",
    ),
    (
        "check-tape1",
        "T35S O34S [prints A] ZS AS E",
        0,
        "entry 31 after 120 orders, 12 rows\n",
        "",
    ),
    (
        "check-tape1",
        "T32S",
        0,
        "entry 31 after 43 orders, 4 rows\n",
        "",
    ),
    ("check-tape1", "PSAS", 3, "", "row 1: K4 first word\n"),
    ("check-tape1", "T31S", 3, "", "row 3: K4 first word\n"),
    ("check-tape1", "T35F", 3, "", "row 3: K2 bad row\n"),
    (
        "check-tape1",
        "P32768S",
        3,
        "",
        "row 5: K3 number too large\n",
    ),
    ("check-tape1", "", 3, "", "row 0: K1 end of tape\n"),
    ("check-tape1", "T35SO34S", 3, "", "row 8: K1 end of tape\n"),
    ("check-tape1", "T35%", 3, "", "byte 3: T1 no row\n"),
];

#[test]
fn runs_and_checks_under_the_first_orders(rt: HostRuntime) {
    expect_each(&rt, rt.alloc(), &RUNS);
}
