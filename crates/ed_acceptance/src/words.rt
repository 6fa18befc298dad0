//! Command lines: the options, and words that are not a command.

use crate::support::{Row, expect_each, expect_usage};

const PRINTS_A: &str = "T64KGKO2@ZFAFEZPF";

const STOPS_TWICE: &str = "T64KGKZFZFEZPF";

const PRINTS_BY_SIZE: &str = "T64KGKO578FZFAFEZPF";

/// Words that are not a command line.
const NO_LINES: [&str; 56] = [
    "",
    "--",
    "-",
    "-h",
    "--help",
    "help",
    "tape x",
    "tape --",
    "tape --limit",
    "tape --limit 0",
    "tape --limit 5 --limit=5",
    "tape --limit 100000001",
    "tape --limit 1234567890",
    "--li 5 tape",
    "--limit= tape",
    "--limit=+5 tape",
    "--limit 1234567890 tape",
    "--resume=1001 tape",
    "tape --post-mortem 143,1",
    "tape --post-mortem 144,881",
    "tape --post-mortem 1025,0",
    "tape --post-mortem 511,2 --store 512",
    "tape --post-mortem 144",
    "tape --post-mortem 144,1 --post-mortem=144,1",
    "check-tape --post-mortem 144,1",
    "tape --store 0512",
    "tape --store 513",
    "check-tape --limit 5",
    "check-tape check-tape",
    "run --store 512 --post-mortem 513,0",
    "tape1 --store 512",
    "tape1 --post-mortem 144,1",
    "check-tape1 --limit 5",
    "check-tape1 T35S",
    "library x",
    "library --limit 5",
    "punch --limit 5",
    "listing x",
    "call",
    "call print",
    "call print 65536",
    "call print 5 6",
    "call read -1",
    "call newline 1",
    "call prin 5",
    "call print 5 --store 512",
    "call divide 458752 7",
    "call divide 5 0",
    "call divide 5 32768",
    "call root 65536",
    "demo",
    "demo 0",
    "demo 113",
    "demo 1 2",
    "demo 1 --resume 1",
    "demo 1 --store 512",
];

const RUNS: [Row; 12] = [
    ("tape", STOPS_TWICE, 0, "", "stopped at 65 after 160\n"),
    (
        "tape --resume 1",
        STOPS_TWICE,
        0,
        "",
        "stopped at 66 after 161\n",
    ),
    (
        "tape --limit 160",
        STOPS_TWICE,
        0,
        "",
        "stopped at 65 after 160\n",
    ),
    ("--limit=9 tape", PRINTS_A, 4, "", "limit at 34 after 9\n"),
    (
        "--limit 7 tape --resume=1000",
        PRINTS_A,
        4,
        "",
        "limit at 25 after 7\n",
    ),
    (
        "--limit=000000009 --resume=3 tape",
        PRINTS_A,
        4,
        "",
        "limit at 34 after 9\n",
    ),
    (
        "tape --limit 1000",
        "T64KGKE@EZPF",
        4,
        "",
        "limit at 64 after 1000\n",
    ),
    (
        "--store 512 --limit 1000 tape --resume 0",
        PRINTS_BY_SIZE,
        0,
        "A",
        "stopped at 66 after 211\n",
    ),
    (
        "--resume=1 --store=512 tape --limit=161",
        STOPS_TWICE,
        0,
        "",
        "stopped at 66 after 161\n",
    ),
    ("tape", PRINTS_BY_SIZE, 0, "P", "stopped at 66 after 211\n"),
    (
        "tape --store 512",
        PRINTS_BY_SIZE,
        0,
        "A",
        "stopped at 66 after 211\n",
    ),
    (
        "tape --store=1024",
        PRINTS_BY_SIZE,
        0,
        "P",
        "stopped at 66 after 211\n",
    ),
];

#[test]
fn words_that_are_no_line_read_nothing(rt: HostRuntime) {
    expect_usage(&rt, rt.alloc(), &NO_LINES, PRINTS_A);
}

#[test]
fn options_of_a_run(rt: HostRuntime) {
    expect_each(&rt, rt.alloc(), &RUNS);
}
