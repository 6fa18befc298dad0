//! Scripts on worked tapes, and what they write.

use crate::support::{LETTER, LOOP, expect, lines_of, session_on};
use ed_stepper::{ScriptFault, run_script};
use std::alloc::Global;
use std::process::Abort;

/// Scripts, the limits of their sessions, their tapes, and the texts that they write.
const SCRIPTS: [(&str, u64, &str, &str); 12] = [
    (
        "go 9\nshow 22\nshow 43\n",
        1_000,
        LETTER,
        "at 34 after 9: went\n  22  20568 T44F\n  43      1 PD\n",
    ),
    (
        "go 3\nback 3",
        1_000,
        LETTER,
        "at 21 after 3: went\nat 0 after 0: back\n",
    ),
    ("go 2", 1_000, LETTER, "at 20 after 2: went\n"),
    ("trace 9", 1_000, LETTER, "TEHATAATE\nat 34 after 9: went\n"),
    (
        "entry\ngo 5\nshow last\nshow 64 66",
        1_000,
        LETTER,
        "at 64 after 191: entered\nat 66 after 193: stopped\nlast 28\n  64  36996 O66F\n  65  53248 ZF\n  66 114688 AF\n",
    ),
    (
        "show acc\nshow mult\nshow last\nentry\nshow acc\nshow mult",
        1_000,
        LETTER,
        "acc 0\nmult 0\nlast none\nat 64 after 191: entered\nacc 0\nmult 5368709120\n",
    ),
    (
        "to 0\ngo 7\nback 200\nto 1",
        200,
        LOOP,
        "at 64 after 200: limit\nat 64 after 200: limit\nat 0 after 0: back\nat 1 after 1: there\n",
    ),
    (
        "entry\nto 64\ngo 70",
        200,
        LOOP,
        "at 64 after 136: entered\nat 64 after 137: there\nat 64 after 200: limit\n",
    ),
    (
        "go 4\nshow acc\nshow mult",
        1_000,
        LETTER,
        "at 22 after 4: went\nacc 18014398509481984\nmult 5368709120\n",
    ),
    (
        "entry\ngo 1",
        1_000,
        "EZPF",
        "at 0 after 51: entered\nat 0 after 51: no order\n",
    ),
    ("go 10", 1_000, "", "at 34 after 9: no tape\n"),
    // Copies of the machine lie on the way back.
    (
        "go 65537\nback 1\nback 1\nback 65535\n",
        100_000,
        LOOP,
        "at 64 after 65537: went\nat 64 after 65536: back\nat 64 after 65535: back\nat 0 after 0: back\n",
    ),
];

/// What a script writes.
fn written(rt: &impl Abort, alloc: Global, script: &str, limit: u64, tape: &str) -> Vec<u8> {
    let mut session = session_on(rt, alloc, tape, limit);
    let text = run_script(alloc, &mut session, script.as_bytes());
    text.ok().expect(rt, script)
}

/// Scripts, the number of lines of their texts, and their first and last line. There are 1,024 words, and 10,000
/// letters in 200 lines, between the lines of two moves.
const LONG: [(&str, usize, &str, &str); 2] = [
    (
        "show 0 1023",
        1_024,
        "   0  20480 TF\n",
        "\n1023      0 PF\n",
    ),
    (
        "entry\ntrace 10000",
        202,
        "at 64 after 136: entered\n",
        "\nat 64 after 10136: went\n",
    ),
];

/// Checks the text of a script on the tape that jumps to itself.
fn expect_long(rt: &impl Abort, alloc: Global, wanted: (&str, usize, &str, &str)) {
    let (script, lines, first, last) = wanted;
    let text = written(rt, alloc, script, 20_000, LOOP);
    expect(rt, lines_of(&text) == lines, script);
    expect(rt, text.starts_with(first.as_bytes()), script);
    expect(rt, text.ends_with(last.as_bytes()), script);
}

#[test]
fn the_longest_lists_and_traces(rt: HostRuntime) {
    for wanted in &LONG {
        expect_long(&rt, rt.alloc(), *wanted);
    }
}

/// Checks what a script writes in a session on a tape.
fn expect_script(rt: &impl Abort, alloc: Global, row: &(&str, u64, &str, &str)) {
    let (script, limit, tape, wanted) = *row;
    let text = written(rt, alloc, script, limit, tape);
    assert!(rt; text.as_slice() == wanted.as_bytes(), "{script}: {text:?}");
}

#[test]
fn scripts_write_their_texts(rt: HostRuntime) {
    for row in &SCRIPTS {
        expect_script(&rt, rt.alloc(), row);
    }
}

/// Two scripts that are refused, the faults and the counters of their sessions.
#[test]
fn a_script_that_is_refused(rt: HostRuntime) {
    let far = "go 3\nback 4\n";
    let fault = refused(&rt, rt.alloc(), far, 21);
    let is_far = matches!(fault, Some(ScriptFault::BackTooFar { line: 2, done: 3 }));
    expect(&rt, is_far, far);
    let bad = "go 3\nback 4\ngo 0\n";
    let fault = refused(&rt, rt.alloc(), bad, 0);
    let is_bad = matches!(fault, Some(ScriptFault::BadCommand { line: 3 }));
    expect(&rt, is_bad, bad);
}

/// The fault of a script, if it has one, checking where its session is then.
fn refused(rt: &impl Abort, alloc: Global, script: &str, at: u16) -> Option<ScriptFault> {
    let mut session = session_on(rt, alloc, LETTER, 1_000);
    let answer = run_script(alloc, &mut session, script.as_bytes());
    expect(rt, session.machine().counter() == at, script);
    answer.err()
}
