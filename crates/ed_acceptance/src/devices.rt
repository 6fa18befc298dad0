//! Each device through the trait by which the program uses it.

use crate::support::expect_that;
use ed_io::{MemorySink, MemorySource, Sink, Source, StdSink, StdSource, SureSink, SureSource};
use std::process::Abort;

/// Checks what the calls of `read` answer one after the other, with pieces of two bytes; None for a call that fails.
fn reads(rt: &impl Abort, source: &mut impl Source, answers: &[Option<usize>]) {
    for (call, answer) in answers.iter().enumerate() {
        let mut piece = [0; 2];
        assert!(rt; source.read(&mut piece).ok() == *answer, "read {call}");
    }
}

/// Checks what a call of `write` answers; None for a call that fails.
pub fn writes(rt: &impl Abort, sink: &mut impl Sink, piece: &str, answer: Option<usize>) {
    assert!(rt;
        sink.write(piece.as_bytes()).ok() == answer,
        "write of {piece}"
    );
}

/// The second call of this source fails.
#[test]
fn a_source_in_memory(rt: HostRuntime) {
    let text = b"ABC".to_vec(rt.alloc()).expect(&rt, "memory");
    let faults = [1].to_vec(rt.alloc()).expect(&rt, "memory");
    let mut source = MemorySource::new(text, faults);
    reads(&rt, &mut source, &[Some(2), None, Some(1), Some(0)]);
    expect_that(&rt, source.faults() == 1, "the faults");
    expect_that(&rt, source.bytes().is_empty(), "the bytes left");
}

/// The first of these sources gives one byte a call.
#[test]
fn a_source_in_pieces_and_one_of_std(rt: HostRuntime) {
    let text = b"ABC".to_vec(rt.alloc()).expect(&rt, "memory");
    let mut source = MemorySource::in_pieces(text, Vec::new(rt.alloc()), 1);
    reads(&rt, &mut source, &[Some(1), Some(1), Some(1), Some(0)]);
    let mut source = StdSource::new(&b"ABC"[..]);
    reads(&rt, &mut source, &[Some(2), Some(1), Some(0)]);
}

#[test]
fn a_source_that_never_fails(rt: HostRuntime) {
    let text = b"ABC".to_vec(rt.alloc()).expect(&rt, "memory");
    let mut source = SureSource::new(text);
    reads(&rt, &mut source, &[Some(2)]);
    expect_that(&rt, source.bytes() == b"C".as_slice(), "the bytes left");
    reads(&rt, &mut source, &[Some(1), Some(0)]);
    expect_that(&rt, source.faults() == 0, "the faults");
}

/// This sink has room for three bytes.
#[test]
fn a_sink_in_memory(rt: HostRuntime) {
    let mut sink = MemorySink::new(rt.alloc(), 3).expect(&rt, "memory");
    writes(&rt, &mut sink, "AB", Some(2));
    writes(&rt, &mut sink, "CD", Some(1));
    writes(&rt, &mut sink, "E", None);
    writes(&rt, &mut sink, "", Some(0));
    expect_that(&rt, sink.bytes() == b"ABC".as_slice(), "the bytes");
    expect_that(&rt, sink.faults() == 1, "the faults");
}

/// The first call of one sink fails, and the other takes at most two bytes a call.
#[test]
fn a_sink_with_faults_and_one_in_pieces(rt: HostRuntime) {
    let faults = [0].to_vec(rt.alloc()).expect(&rt, "memory");
    let mut sink = MemorySink::with_faults(rt.alloc(), 3, faults).expect(&rt, "memory");
    writes(&rt, &mut sink, "A", None);
    writes(&rt, &mut sink, "A", Some(1));
    let none = Vec::new(rt.alloc());
    let mut sink = MemorySink::in_pieces(rt.alloc(), 3, none, 2).expect(&rt, "memory");
    writes(&rt, &mut sink, "ABC", Some(2));
}

/// The first of these sinks keeps two bytes.
#[test]
fn a_sink_that_never_fails_and_one_of_std(rt: HostRuntime) {
    let mut sink = SureSink::new(rt.alloc(), 2).expect(&rt, "memory");
    writes(&rt, &mut sink, "ABC", Some(3));
    expect_that(&rt, sink.bytes() == b"AB".as_slice(), "the bytes");
    expect_that(&rt, sink.faults() == 0, "the faults");
    let mut room = [0; 3];
    let mut sink = StdSink::new(&mut room[..]);
    writes(&rt, &mut sink, "ABCD", Some(3));
    writes(&rt, &mut sink, "D", None);
}
