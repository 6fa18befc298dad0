//! Sources: `run`, `punch` and `listing`.

use crate::support::{Row, expect, expect_beginning, expect_each};

/// Prints A, from two orders and two words of its one segment.
pub const LETTER: &str =
    "segment main\nO mark F\nO letter F\nZ F\nmark: * F\nletter: A F\nenter main\n";

/// The same with a stop as its first order.
const STOPS_FIRST: &str =
    "segment main\nZ F\nO mark F\nO letter F\nZ F\nmark: * F\nletter: A F\nenter main\n";

/// Two orders and a word in each of two segments, with local names.
const VERSION_2: &str =
    "version 2\nsegment main\nO _c F\nZ F\n_c: A F\nsegment t\n_c: long 5\n_d: P _d-_c F\nenter main\n";

const LAST_OF_512: &str = "segment s at 511\nZ F\nenter s\n";

const LAST_OF_1024: &str = "segment s at 1023\nZ F\nenter s\n";

const RUNS: [Row; 13] = [
    // Runs to their end and to their limit.
    (
        "run",
        LETTER,
        0,
        "A",
        "entered 56 after 263 orders, stopped at 59 after 266\n",
    ),
    (
        "run --limit 266",
        LETTER,
        0,
        "A",
        "entered 56 after 263 orders, stopped at 59 after 266\n",
    ),
    (
        "run --limit 263",
        LETTER,
        4,
        "",
        "entered 56 after 263 orders, limit at 56 after 263\n",
    ),
    (
        "run --limit=265",
        LETTER,
        4,
        "A",
        "entered 56 after 263 orders, limit at 58 after 265\n",
    ),
    (
        "run",
        VERSION_2,
        0,
        "A",
        "entered 56 after 380 orders, stopped at 58 after 382\n",
    ),
    // Tapes and listings.
    (
        "punch",
        LETTER,
        0,
        "T56K\nGK\nO3@\nO4@\nZF\n*F\nAF\nE56K\nPF\n",
        "",
    ),
    (
        "listing",
        LETTER,
        0,
        "  56  36982 O59F\n  57  36984 O60F\n  58  53248 ZF\n  59  61440 *F\n  60 114688 AF\n",
        "",
    ),
    (
        "punch",
        VERSION_2,
        0,
        "T56K\nGK\nO2@\nZF\nAF\nT59K\nGK\nPF\nP2D\nPF\nP2F\nE56K\nPF\n",
        "",
    ),
    // Sources at the end of the store.
    (
        "listing --store 512",
        LAST_OF_512,
        0,
        " 511  53248 ZF\n",
        "",
    ),
    ("listing", LAST_OF_1024, 0, "1023  53248 ZF\n", ""),
    (
        "run --store 512",
        LAST_OF_1024,
        3,
        "",
        "line 2: S12 store end\n",
    ),
    (
        "punch --store=512",
        LAST_OF_1024,
        3,
        "",
        "line 2: S12 store end\n",
    ),
    (
        "listing --store 512",
        LAST_OF_1024,
        3,
        "",
        "line 2: S12 store end\n",
    ),
];

/// Sources that are refused, and their faults.
const REFUSED: [(&str, &str); 6] = [
    ("", "line 1: S16 enter\n"),
    (
        "segment m\nA nowhere F\nsegment s at 20\nZ F\nenter m\n",
        "line 2: S7 unknown label\n",
    ),
    (
        "segment m\nsegment s at 20\nZ F\nenter m\n",
        "line 3: S10 loader store\n",
    ),
    (
        "segment m\nA nowhere F\nsegment s at 20\nZ F\nenter m\n%\n",
        "line 6: S3 not a statement\n",
    ),
    (
        "segment main\nO _c F\nZ F\n_c: A F\nenter main\n",
        "line 2: S3 not a statement\n",
    ),
    (
        "version 2\nsegment main\nlong 131072\nenter main\n",
        "line 3: S17 sandwich digit\n",
    ),
];

/// The commands that refuse them.
const COMMANDS: [&str; 4] = ["run", "punch", "listing", "run --store 512"];

#[test]
fn runs_tapes_and_listings_of_sources(rt: HostRuntime) {
    expect_each(&rt, rt.alloc(), &RUNS);
}

#[test]
fn a_run_is_resumed_after_a_stop(rt: HostRuntime) {
    expect_beginning(&rt, rt.alloc(), "run", STOPS_FIRST, (0, "", ""));
    expect_beginning(&rt, rt.alloc(), "run --resume 1", STOPS_FIRST, (0, "A", ""));
}

#[test]
fn a_limit_before_the_entry_ends_the_load(rt: HostRuntime) {
    let wanted = (4, "", "limit at ");
    expect_beginning(&rt, rt.alloc(), "run --limit 100", LETTER, wanted);
    expect_beginning(&rt, rt.alloc(), "run --limit 262", LETTER, wanted);
}

#[test]
fn refused_sources(rt: HostRuntime) {
    for (source, fault) in &REFUSED {
        for command in &COMMANDS {
            expect(&rt, rt.alloc(), command, source, (3, "", fault));
        }
    }
}
