//! `step` and `trace`: sessions on tapes and sources, and the letters of orders.

use crate::support::{Row, expect_each};

/// The worked tape, which prints A.
const TAPE: &str = "T64KGKO2@ZFAFEZPF";

const RUNS: [Row; 23] = [
    // Sessions on a tape.
    (
        "step",
        "go 9\nshow 22\nshow 43\ntape\nT64KGKO2@ZFAFEZPF",
        0,
        "at 34 after 9: went\n  22  20568 T44F\n  43      1 PD\n",
        "",
    ),
    (
        "step",
        "go 3\nback 3\ntape\nT64KGKO2@ZFAFEZPF",
        0,
        "at 21 after 3: went\nat 0 after 0: back\n",
        "",
    ),
    (
        "step",
        "go 2\ntape\nT64KGKO2@ZFAFEZPF",
        0,
        "at 20 after 2: went\n",
        "",
    ),
    ("step", "\n   \ntape\nT64KGKO2@ZFAFEZPF", 0, "", ""),
    (
        "step",
        "trace 9\ntape\nT64KGKO2@ZFAFEZPF",
        0,
        "TEHATAATE\nat 34 after 9: went\n",
        "",
    ),
    (
        "step",
        "entry\ngo 1\ngo 9\nshow last\ntape\nT64KGKO2@ZFAFEZPF",
        0,
        "at 64 after 191: entered\nat 65 after 192: went\nat 66 after 193: stopped\nlast 28\n",
        "",
    ),
    // Sessions that are refused.
    ("step", "", 3, "", "line 1: C3 no text line\n"),
    ("step", "go 0", 3, "", "line 2: C3 no text line\n"),
    ("step", "go 1\ntape x\n", 3, "", "line 3: C3 no text line\n"),
    ("step", "go 0\ntape\n", 3, "", "line 1: C1 bad command\n"),
    (
        "step",
        "go 1\n\ngo\nsource\nx\n",
        3,
        "",
        "line 3: C1 bad command\n",
    ),
    ("step", "go\t9\ntape\n", 3, "", "line 1: C1 bad command\n"),
    (
        "step",
        "go 1\n\t\ntape\n",
        3,
        "",
        "line 2: C1 bad command\n",
    ),
    ("step", "go 1\ntape\nT64K%", 3, "", "byte 4: T1 no row\n"),
    ("step", "tape\ntape\n", 3, "", "byte 0: T1 no row\n"),
    (
        "step",
        "go 1\nsource\nsegment s\nA x F\nenter s\n",
        3,
        "",
        "line 2: S7 unknown label\n",
    ),
    (
        "step",
        "go 1\nsource\n%\n",
        3,
        "",
        "line 1: S3 not a statement\n",
    ),
    (
        "step",
        "go 3\nback 4\ntape\n",
        3,
        "",
        "line 2: C2 back too far, 3 done\n",
    ),
    // Sessions on a source, and within a limit.
    (
        "step",
        "entry\nshow 56 57\ngo 9\nsource\r\n\
            segment main\nO mark F\nO letter F\nZ F\nmark: * F\nletter: A F\nenter main\n",
        0,
        "at 56 after 263: entered\n  56  36982 O59F\n  57  36984 O60F\nat 59 after 266: stopped\n",
        "",
    ),
    (
        "step --limit 9",
        "go 10\ntape\n",
        0,
        "at 34 after 9: limit\n",
        "",
    ),
    // Traces of tapes.
    (
        "trace --limit 9",
        TAPE,
        4,
        "TEHATAATE\n",
        "limit at 34 after 9\n",
    ),
    ("trace", "", 6, "TEHATAATE\n", "no tape at 34 after 9\n"),
    ("trace", "T64K%", 3, "", "byte 4: T1 no row\n"),
];

#[test]
fn sessions_and_traces(rt: HostRuntime) {
    expect_each(&rt, rt.alloc(), &RUNS);
}
