//! `parts`: tapes whose programs return to the Initial Orders.

use crate::faults::{Device, Run, calls_fail};
use crate::support::{Row, expect, expect_each, expect_usage};
use ed_codes::tape_of_text;
use ed_tapes::started;
use ed_words::Size;
use std::alloc::Global;
use std::process::Abort;

/// The program of the first part prints A and returns with the order T 200 F; that of the second one stops.
const TWO_PARTS: &str = "T100KGKO4@A3@E25FT200FAFE100KPFGKZFE200KPF";

/// The lines of its run.
const LINES_OF_TWO: &str =
    "entry 100 after 326 orders, 31 rows\nreturned for 200 after 329 orders\n\
    entry 200 after 444 orders, 42 rows\n";

/// The same tape, cut before the last item.
const CUT: &str = "T100KGKO4@A3@E25FT200FAFE100KPFGK";

/// The lines of its run, up to the fault.
const LINES_OF_CUT: &str =
    "entry 100 after 326 orders, 31 rows\nreturned for 200 after 329 orders\n";

const FAULT_OF_CUT: &str = "part 2, row 33: N1 end of tape\n";

const STOPS: Run = Run {
    command: "parts",
    input: TWO_PARTS,
    status: 0,
    out: LINES_OF_TWO,
    note: "stopped at 201 after 445\n",
};

const FAILS: Run = Run {
    command: "parts",
    input: CUT,
    status: 3,
    out: LINES_OF_CUT,
    note: FAULT_OF_CUT,
};

/// The number of orders after which each line is written, and after which the run stops.
const LINES: [(u64, &str); 4] = [
    (326, "entry 100 after 326 orders, 31 rows\n"),
    (329, "returned for 200 after 329 orders\n"),
    (444, "entry 200 after 444 orders, 42 rows\n"),
    (445, ""),
];

const RUNS: [Row; 19] = [
    // A program returns, and the rest of the tape is read.
    (
        "parts",
        TWO_PARTS,
        0,
        LINES_OF_TWO,
        "stopped at 201 after 445\n",
    ),
    ("parts", CUT, 3, LINES_OF_CUT, FAULT_OF_CUT),
    // Tapes in three parts.
    (
        "parts",
        "T100KGKO4@A3@E25FT200FAFE100KPF GKA2@E25FT300FE200KPF GKZFE300KPF",
        0,
        "entry 100 after 326 orders, 31 rows\nreturned for 200 after 329 orders\n\
            entry 200 after 544 orders, 52 rows\nreturned for 300 after 546 orders\n\
            entry 300 after 661 orders, 63 rows\n",
        "stopped at 301 after 662\n",
    ),
    (
        "parts",
        "T100KGKO4@A3@E25FT200FAFE100KPF GKA2@E25FT300FE200KPF GKZFE900ZPF",
        3,
        "entry 100 after 326 orders, 31 rows\nreturned for 200 after 329 orders\n\
            entry 200 after 544 orders, 52 rows\nreturned for 300 after 546 orders\n",
        "part 3, row 60: N7 store end\n",
    ),
    // Faults of a part go before the limit.
    (
        "parts --limit 1",
        "T64K",
        3,
        "",
        "part 1, row 4: N1 end of tape\n",
    ),
    (
        "parts --limit 1",
        "EZPF",
        3,
        "",
        "part 1, row 3: N10 entry in loader\n",
    ),
    ("parts --limit 329", CUT, 3, LINES_OF_CUT, FAULT_OF_CUT),
    (
        "parts --limit 328",
        CUT,
        4,
        "entry 100 after 326 orders, 31 rows\n",
        "limit at 102 after 328\n",
    ),
    (
        "parts --limit 329",
        TWO_PARTS,
        4,
        LINES_OF_CUT,
        "limit at 25 after 329\n",
    ),
    ("parts", "T64K%", 3, "", "byte 4: T1 no row\n"),
    ("parts", "PF[x", 3, "", "byte 2: T2 open comment\n"),
    // Programs end as those of tapes do.
    (
        "parts",
        "T64KGKKFEZPF",
        5,
        "entry 64 after 136 orders, 12 rows\n",
        "no order at 64 after 136: KF\n",
    ),
    // A return at which no row is left.
    (
        "parts",
        "T100KGKO4@A3@E25FT200FAFE100KPF",
        3,
        LINES_OF_CUT,
        "part 2, row 31: N1 end of tape\n",
    ),
    // The directive T 1023 F is a return, and T 1024 F is not.
    (
        "parts",
        "T100KGKO4@A3@E25FT1023FAFE100KPF GKZFE1023KPF",
        0,
        "entry 100 after 335 orders, 32 rows\nreturned for 1023 after 338 orders\n\
            entry 1023 after 462 orders, 44 rows\n",
        "stopped at 0 after 463\n",
    ),
    (
        "parts",
        "T100KGKO4@A3@E25FT1024FAFE100KPF",
        6,
        "entry 100 after 335 orders, 32 rows\n",
        "no tape at 34 after 340\n",
    ),
    // The accumulator holds no order T.
    (
        "parts",
        "T100KGKE25FE100KPF",
        6,
        "entry 100 after 189 orders, 18 rows\n",
        "no tape at 34 after 192\n",
    ),
    // Location 43 does not hold 1.
    (
        "parts",
        "T100KGKT43FA3@E25FT200FE100KPF",
        6,
        "entry 100 after 312 orders, 30 rows\n",
        "no tape at 34 after 317\n",
    ),
    // The program jumps to 34, where the rest of the tape is read by its orders.
    (
        "parts",
        "T200KZFT100KGKE34FE100KPF E200KPF",
        0,
        "entry 100 after 261 orders, 25 rows\n",
        "stopped at 201 after 331\n",
    ),
    // The same, but an item that sets a T directive reaches 25 as a program that returns does.
    (
        "parts",
        "T100KGKE34FE100KPF T200KZFE200KPF",
        0,
        "entry 100 after 189 orders, 18 rows\nreturned for 200 after 237 orders\n\
            entry 200 after 330 orders, 32 rows\n",
        "stopped at 201 after 331\n",
    ),
];

/// Command lines with options that `parts` does not have.
const NO_LINES: [&str; 4] = [
    "parts --resume 1",
    "parts --store 512",
    "parts x",
    "parts --post-mortem 144,1",
];

#[test]
fn runs_of_tapes_in_parts(rt: HostRuntime) {
    expect_each(&rt, rt.alloc(), &RUNS);
}

/// Checks the run with a limit, at which the counter is at `at`.
fn expect_limit(rt: &impl Abort, alloc: Global, limit: u64, at: u16) {
    let mut out = String::new(alloc);
    for (orders, line) in &LINES {
        if *orders <= limit {
            out.push_str(line).expect(rt, "memory");
        }
    }
    let (status, name) = if limit < 445 {
        (4, "limit")
    } else {
        (0, "stopped")
    };
    let line = format!(in alloc; "parts --limit {limit}").expect(rt, "memory");
    let note = format!(in alloc; "{name} at {at} after {limit}\n").expect(rt, "memory");
    expect(rt, alloc, &line, TWO_PARTS, (status, &out, &note));
}

/// Each limit is checked beside a machine that was started on the same tape.
#[test]
fn every_limit_cuts_the_lines_where_it_falls(rt: HostRuntime) {
    let rows = tape_of_text(rt.alloc(), TWO_PARTS.as_bytes()).expect(&rt, "a tape");
    let mut machine = started(rt.alloc(), Size::Full, rows).expect(&rt, "memory");
    for limit in 1..446 {
        assert!(rt; machine.orders_done() < limit);
        machine.step();
        expect_limit(&rt, rt.alloc(), limit, machine.counter());
    }
}

#[test]
fn a_write_that_fails_leaves_a_part_of_the_lines(rt: HostRuntime) {
    calls_fail(&rt, rt.alloc(), &STOPS, Device::Lines);
    calls_fail(&rt, rt.alloc(), &FAILS, Device::Lines);
}

#[test]
fn a_tape_of_parts_has_no_other_options(rt: HostRuntime) {
    expect_usage(&rt, rt.alloc(), &NO_LINES, TWO_PARTS);
}
