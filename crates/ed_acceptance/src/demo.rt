//! The large source from a number, and the sources of calls, to the byte.

use crate::support::{Answer, answer_of, expect_beginning, expect_that};
use ed_library::Call;
use ed_sources::{call_source, demo_source};
use std::alloc::Global;
use std::process::Abort;

/// The source of `demo 1`.
const FIRST: &str =
    "segment main\nloop: T junk F\nA total F\nadd: A s1 F\nT total F\nA add F\nA 2 F\nU add F\n\
    S stop F\nG loop F\nT junk F\nhere: A here F\nG p F\nZ F\nstop: A s1+8 F\njunk: P F\ntotal: P F\n\
    use print as p with H=total\nsegment s1\nword 13\nword 61\nword 10\nword 63\nword 61\nword 55\nword 54\nword 22\n\
    enter main\n";

/// The source of `call print 4096`.
const PRINTS_4096: &str =
    "segment main\nhere: A here F\nG p F\nZ F\nvalue: word 4096\nuse print as p with H=value\nenter main\n";

#[test]
fn the_sources_of_a_demo_and_of_a_call_to_the_byte(rt: HostRuntime) {
    let first = demo_source(rt.alloc(), 1).expect(&rt, "memory");
    assert!(rt; first.as_slice() == FIRST.as_bytes());
    let source = call_source(rt.alloc(), &Call::Print(4096)).expect(&rt, "memory");
    assert!(rt; source.as_slice() == PRINTS_4096.as_bytes());
}

#[test]
fn the_largest_source_of_a_demo(rt: HostRuntime) {
    let largest = demo_source(rt.alloc(), 112).expect(&rt, "memory");
    let mut lines = 0u32;
    for byte in largest.as_slice() {
        if *byte == b'\n' {
            lines = lines.saturating_add(1);
        }
    }
    expect_that(&rt, largest.ends_with(b"\nenter main\n"), "the end");
    expect_that(&rt, lines == 1027, "the lines");
}

/// The answer of `run` to the source of a demo, on a store of 512 locations.
fn answer_in_512(rt: &impl Abort, alloc: Global, number: u32) -> Answer {
    assert!(rt; 1 <= number && number <= 112);
    let source = demo_source(alloc, number).expect(rt, "memory");
    answer_of(rt, alloc, "run --store 512", &source)
}

/// The source of demo 48 still fits on a store of 512 locations, and that of 49 does not.
#[test]
fn the_source_is_one_that_run_takes(rt: HostRuntime) {
    expect_beginning(&rt, rt.alloc(), "run", FIRST, (0, "339", ""));
    let answer = answer_in_512(&rt, rt.alloc(), 48);
    expect_that(&rt, answer.status == 0, "the status of 48");
    let answer = answer_in_512(&rt, rt.alloc(), 49);
    let note = "line 457: S12 store end\n";
    expect_that(&rt, answer.status == 3, "the status of 49");
    expect_that(&rt, answer.note.as_slice() == note.as_bytes(), "the note");
}

/// The least and the greatest demo, and the sum that each prints.
const SUMS: [(&str, &str); 2] = [("demo 1", "339"), ("demo 112", "28190")];

/// A demo prints its sum, and reads no input.
#[test]
fn the_least_and_the_greatest_sum(rt: HostRuntime) {
    for (line, sum) in &SUMS {
        let unread = expect_beginning(&rt, rt.alloc(), line, "no source", (0, sum, ""));
        expect_that(&rt, unread == 9, line);
    }
}

#[test]
fn a_demo_at_its_limit(rt: HostRuntime) {
    let wanted = (4, "", "limit at ");
    expect_beginning(&rt, rt.alloc(), "demo 1 --limit 100", "", wanted);
}
