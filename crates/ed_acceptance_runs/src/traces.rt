//! Traces of runs, on sinks that take pieces and fail.

use crate::support::{LETTER, LOOP, expect, lines_of, started};
use ed_io::{MemorySink, WriteStop};
use ed_machine::Ending;
use ed_stepper::trace_run;
use ed_words::Size;
use std::alloc::Global;
use std::process::Abort;

/// The answer of a trace, and its sink, which takes at most seven bytes a call; these of the sink's calls fail.
fn traced(
    rt: &impl Abort,
    alloc: Global,
    tape: &str,
    limit: u64,
    failing: Vec<u64>,
) -> (Result<Ending, WriteStop>, MemorySink) {
    let mut out = MemorySink::in_pieces(alloc, 100_000, failing, 7).expect(rt, "memory");
    let mut machine = started(rt, alloc, Size::Full, tape);
    assert!(rt; machine.orders_done() == 0 && limit < 1 << 40);
    let answer = trace_run(alloc, &mut machine, limit, 0, &mut out);
    (answer, out)
}

/// A tape, the limit of its run, the name of the ending, and the bytes and the lines of the trace.
type Row = (&'static str, u64, &'static str, usize, usize);

const TRACES: [Row; 8] = [
    (LETTER, 9, "limit", 10, 1),
    (LETTER, 1_000, "stopped", 197, 4),
    (LETTER, 49, "limit", 50, 1),
    (LETTER, 50, "limit", 51, 1),
    (LETTER, 51, "limit", 53, 2),
    (LOOP, 5_000, "limit", 5_100, 100),
    ("", 1_000, "no tape", 10, 1),
    ("EZPF", 1_000, "no order", 53, 2),
];

/// The name of an ending.
fn name_of(ending: Ending) -> &'static str {
    match ending {
        Ending::Stopped => "stopped",
        Ending::Limit => "limit",
        Ending::NoOrder => "no order",
        Ending::NoTape => "no tape",
        Ending::PaperFull => "paper full",
    }
}

/// Checks a trace on a sink that takes pieces.
fn expect_trace(rt: &impl Abort, alloc: Global, row: &Row) {
    let (tape, limit, ending, bytes, lines) = *row;
    let (answer, out) = traced(rt, alloc, tape, limit, Vec::new(alloc));
    expect(rt, answer.ok().map(name_of) == Some(ending), tape);
    let text = out.bytes();
    assert!(rt; text.len() == bytes, "{tape} {limit}");
    expect(rt, lines_of(text) == lines, tape);
    expect(rt, text.starts_with(b"TEHATAATE"), tape);
}

#[test]
fn lines_of_fifty_letters(rt: HostRuntime) {
    for row in &TRACES {
        expect_trace(&rt, rt.alloc(), row);
    }
}

/// Checks a trace with this write failing.
fn expect_failure(rt: &impl Abort, alloc: Global, whole: &MemorySink, call: u64) {
    let failing = [call].to_vec(alloc).expect(rt, "memory");
    let (answer, out) = traced(rt, alloc, LETTER, 1_000, failing);
    assert!(rt; matches!(answer, Err(WriteStop::Failed)), "{call}");
    expect(rt, out.faults() == 1, "the faults");
    expect(rt, whole.bytes().starts_with(out.bytes()), "the bytes");
}

/// Each write of a trace fails in turn.
#[test]
fn a_failed_write_ends_a_trace_at_once(rt: HostRuntime) {
    let (answer, whole) = traced(&rt, rt.alloc(), LETTER, 1_000, Vec::new(rt.alloc()));
    assert!(rt; matches!(answer, Ok(Ending::Stopped)));
    for call in 0..31 {
        expect_failure(&rt, rt.alloc(), &whole, call);
    }
}
