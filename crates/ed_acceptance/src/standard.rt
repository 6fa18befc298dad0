//! The devices over readers and writers of std that give and take few bytes a call, fail, or refuse to flush.

use crate::devices::writes;
use crate::support::expect_that;
use ed_io::{Sink, Source, StdSink, StdSource, SteadyRead, SteadyWrite};
use std::io;
use std::io::{Read, Write};
use std::process::Abort;

/// Gives its text one byte a call, except that the call with this number fails.
#[derive(Drop)]
struct Dripping<'a> {
    text: &'a [u8],
    calls: usize,
    failing: Option<usize>,
}

impl<'a> Read for Dripping<'a> {
    fn read(&mut self, into: &mut [u8]) -> io::Result<usize> {
        let call = self.calls;
        self.calls = self.calls.saturating_add(1);
        if self.failing == Some(call) {
            return Err(io::Error::from(io::ErrorKind::BrokenPipe));
        }
        match (self.text.split_first(), into.first_mut()) {
            (Some((byte, rest)), Some(place)) => {
                *place = *byte;
                self.text = rest;
                Ok(1)
            }
            _ => Ok(0),
        }
    }
}

impl<'a> SteadyRead for Dripping<'a> {
    ghost steady = { λ _ _. tt };
}

fn source_of(text: &[u8], failing: Option<usize>) -> StdSource<Dripping<'_>> {
    StdSource::new(Dripping {
        text,
        calls: 0,
        failing,
    })
}

/// What a writer has been given: the bytes that it took, and the number of flushes.
#[derive(Drop)]
struct Tally {
    held: [u8; 4],
    count: usize,
    flushes: usize,
}

/// Takes the first two bytes of a piece, and refuses the flush with this number.
#[derive(Drop)]
struct Choosy<'a> {
    tally: &'a mut Tally,
    refused: Option<usize>,
}

impl<'a> Write for Choosy<'a> {
    fn write(&mut self, piece: &[u8]) -> io::Result<usize> {
        let taken = piece.len().min(2);
        for byte in piece.iter().take(taken) {
            let count = self.tally.count;
            if let Some(place) = self.tally.held.get_mut(count) {
                *place = *byte;
            }
            self.tally.count = count.saturating_add(1);
        }
        Ok(taken)
    }

    fn flush(&mut self) -> io::Result<()> {
        let flush = self.tally.flushes;
        self.tally.flushes = self.tally.flushes.saturating_add(1);
        if self.refused == Some(flush) {
            return Err(io::Error::from(io::ErrorKind::BrokenPipe));
        }
        Ok(())
    }
}

impl<'a> SteadyWrite for Choosy<'a> {
    ghost steady = { λ _ _. tt };
}

/// A tally of a writer that has been given nothing.
fn no_tally() -> Tally {
    Tally {
        held: [0; 4],
        count: 0,
        flushes: 0,
    }
}

/// Checks what a read answers, None if it fails, and what it leaves in a piece.
fn expect_read(
    rt: &impl Abort,
    source: &mut impl Source,
    piece: &mut [u8; 4],
    byte: u8,
    answer: Option<usize>,
) {
    expect_that(rt, source.read(piece).ok() == answer, "the answer");
    expect_that(rt, *piece == [byte, 0, 0, 0], "the piece");
}

#[test]
fn a_reader_of_std_is_read_to_its_end(rt: HostRuntime) {
    let mut source = StdSource::new(&b"AB"[..]);
    let mut piece = [0; 4];
    expect_that(&rt, source.read(&mut piece).ok() == Some(2), "two bytes");
    expect_that(&rt, piece == [b'A', b'B', 0, 0], "the piece");
    expect_that(&rt, source.read(&mut piece).ok() == Some(0), "the end");
}

#[test]
fn a_reader_that_gives_a_byte_a_call_gives_each_once(rt: HostRuntime) {
    let mut source = source_of(b"AB", None);
    let mut piece = [0; 4];
    expect_read(&rt, &mut source, &mut piece, b'A', Some(1));
    expect_read(&rt, &mut source, &mut piece, b'B', Some(1));
    expect_read(&rt, &mut source, &mut piece, b'B', Some(0));
}

#[test]
fn a_reader_that_fails_has_failed_and_has_not_ended(rt: HostRuntime) {
    let mut source = source_of(b"AB", Some(1));
    let mut piece = [0; 4];
    expect_read(&rt, &mut source, &mut piece, b'A', Some(1));
    expect_read(&rt, &mut source, &mut piece, b'A', None);
    expect_read(&rt, &mut source, &mut piece, b'B', Some(1));
    expect_read(&rt, &mut source, &mut piece, b'B', Some(0));
}

#[test]
fn a_writer_of_std_is_written_until_it_is_full(rt: HostRuntime) {
    let mut room = [0; 3];
    let mut sink = StdSink::new(&mut room[..]);
    writes(&rt, &mut sink, "AB", Some(2));
    writes(&rt, &mut sink, "CD", Some(1));
    writes(&rt, &mut sink, "D", None);
    writes(&rt, &mut sink, "", Some(0));
    expect_that(&rt, room == [b'A', b'B', b'C'], "the room");
}

#[test]
fn a_writer_that_takes_some_bytes_is_flushed_after_each_write(rt: HostRuntime) {
    let mut tally = no_tally();
    let refused = None;
    let mut sink = StdSink::new(Choosy {
        tally: &mut tally,
        refused,
    });
    writes(&rt, &mut sink, "ABC", Some(2));
    drop(sink);
    expect_that(&rt, tally.flushes == 1, "the first flush");
    let mut sink = StdSink::new(Choosy {
        tally: &mut tally,
        refused,
    });
    writes(&rt, &mut sink, "C", Some(1));
    drop(sink);
    expect_that(&rt, tally.flushes == 2, "the second flush");
    expect_that(&rt, tally.held == [b'A', b'B', b'C', 0], "the bytes");
}

#[test]
fn a_refused_flush_is_a_failed_write(rt: HostRuntime) {
    let mut tally = no_tally();
    let refused = Some(1);
    let tally = &mut tally;
    let mut sink = StdSink::new(Choosy { tally, refused });
    writes(&rt, &mut sink, "AB", Some(2));
    writes(&rt, &mut sink, "AB", None);
    writes(&rt, &mut sink, "AB", Some(2));
    drop(sink);
    expect_that(&rt, tally.count == 6, "no piece is written twice");
}
