//! The option `--post-mortem`: what is printed after a run.

use crate::support::{Row, answer_of, expect, expect_each, expect_that, repeated};

/// Prints A, and leaves the words O 66 F and P 2047 D with function 15 at 144 and 145.
const SOURCE: &str = "segment main\nO mark F\nO letter F\nZ F\nmark: * F\nletter: A F\n\
    segment d at 144\nword 36996\nword 65535\nenter main\n";

/// A tape that does the same.
const TAPE: &str = "T144KO66F*2047DT64KGKO2@ZFAFEZPF";

/// A tape that leaves O 66 F at 144 and prints for ever.
const ENDLESS: &str = "T144KO66FT64KGKO@E@EZPF";

/// A tape that leaves O 66 F at 144 and ends in figure shift.
const FIGURES: &str = "T144KO66FT64KGKO4@O5@O6@ZF#FHFAFEZPF";

const RUNS: [Row; 13] = [
    // Words that a source and a tape leave.
    (
        "run --post-mortem 144,2",
        SOURCE,
        0,
        "AO66F\r\n2047D\r\n",
        "entered 56 after 434 orders, stopped at 59 after 437\n",
    ),
    (
        "run",
        SOURCE,
        0,
        "A",
        "entered 56 after 434 orders, stopped at 59 after 437\n",
    ),
    (
        "tape --limit 150 --post-mortem 144,2",
        TAPE,
        4,
        "O66F\r\nP0F\r\n",
        "limit at 19 after 150\n",
    ),
    // After each ending of a run.
    (
        "tape --post-mortem 144,2",
        TAPE,
        0,
        "AO66F\r\n2047D\r\n",
        "stopped at 66 after 342\n",
    ),
    (
        "tape --post-mortem=144,1 --limit 342",
        TAPE,
        0,
        "AO66F\r\n",
        "stopped at 66 after 342\n",
    ),
    (
        "--limit 120 tape --post-mortem 144,1",
        TAPE,
        4,
        "O66F\r\n",
        "limit at 6 after 120\n",
    ),
    (
        "tape --post-mortem 144,1",
        "T144KO66FEZPF",
        5,
        "O66F\r\n",
        "no order at 0 after 141: PF\n",
    ),
    (
        "--post-mortem 144,1 tape",
        "T144KO66F",
        6,
        "O66F\r\n",
        "no tape at 34 after 99\n",
    ),
    // In both sizes and both shifts.
    (
        "tape --post-mortem 144,1",
        FIGURES,
        0,
        "\u{a3}-O66F\r\n",
        "stopped at 68 after 395\n",
    ),
    (
        "tape --store 512 --post-mortem 511,1",
        "T511KO66FT64KGKO2@ZFAFEZPF",
        0,
        "AO66F\r\n",
        "stopped at 66 after 283\n",
    ),
    (
        "tape --post-mortem 512,0 --store=512",
        TAPE,
        0,
        "A",
        "stopped at 66 after 342\n",
    ),
    (
        "tape --post-mortem 1024,0",
        TAPE,
        0,
        "A",
        "stopped at 66 after 342\n",
    ),
    (
        "tape --post-mortem 144,0",
        TAPE,
        0,
        "A",
        "stopped at 66 after 342\n",
    ),
];

#[test]
fn words_are_printed_after_a_run(rt: HostRuntime) {
    expect_each(&rt, rt.alloc(), &RUNS);
}

#[test]
fn after_a_paper_that_is_full(rt: HostRuntime) {
    let line = "tape --post-mortem 144,1";
    let answer = answer_of(&rt, rt.alloc(), line, ENDLESS.as_bytes());
    let note = "paper full at 64 after 2000249\n";
    expect_that(&rt, answer.status == 7, "the status");
    expect_that(&rt, answer.out.len() == 1_000_006, "the length");
    expect_that(&rt, answer.out.ends_with(b"OO66F\r\n"), "the end");
    expect_that(&rt, answer.note.as_slice() == note.as_bytes(), "the note");
}

/// A post-mortem of 880 words, the most possible: the words from 146 upwards are 0.
#[test]
fn of_the_whole_store(rt: HostRuntime) {
    let parts = [("AO66F\r\n2047D\r\n", 1), ("P0F\r\n", 878)];
    let out = repeated(&rt, rt.alloc(), &parts);
    let printed = (0, out.as_str(), "stopped at 66 after 342\n");
    expect(&rt, rt.alloc(), "tape --post-mortem 144,880", TAPE, printed);
}
