ghost use Rattle.std.specs.Prelude.{◌≡◌, ◌<◌, ◌≤◌, IfSome, length, take};
ghost use Rattle.std.specs.Io.KnownBytes.{Appends};
ghost use Rattle.ed_io.specs.Bytes.{IsWithin, Reads, TakesSome, Writes};
ghost use Rattle.ed_io.specs.Causes.{HasCause, faults_after};
ghost use Rattle.ed_io.specs.Streams.{Alike};

use crate::{Failed, Sink, Source};
use std::io::{Read, Stderr, Stdin, Stdout, Write};
use std::marker::Model;

/// A reader of a type all of whose values report the bytes that are left, or none of whose values do.
pub trait SteadyRead: Read {
    ghost steady: { (s t : Self) → Alike (Self.remaining s) (Self.remaining t) };
}

impl SteadyRead for &[u8] {
    ghost steady = { λ _ _. tt };
}

impl SteadyRead for Stdin {
    ghost steady = { λ _ _. tt };
}

/// A writer of a type all of whose values report the bytes that they hold, or none of whose values do.
pub trait SteadyWrite: Write {
    ghost steady: { (s t : Self) → Alike (Self.contents s) (Self.contents t) };
}

impl SteadyWrite for &mut [u8] {
    ghost steady = { λ _ _. tt };
}

impl SteadyWrite for Stdout {
    ghost steady = { λ _ _. tt };
}

impl SteadyWrite for Stderr {
    ghost steady = { λ _ _. tt };
}

/// A source over a reader of std. Its bytes are those that the reader reports.
#[derive(Drop)]
pub struct StdSource<R: SteadyRead> {
    reader: R,
    faults: u64,
}

impl<R: SteadyRead> Model for StdSource<R> {
    ghost use Rattle.ed_io.specs.Streams.{Stream};

    ghost Value = { Stream };

    ghost view = { λ s. record { known = R.remaining s.reader; faults = s.faults } };
}

impl<R: SteadyRead> StdSource<R> {
    /// A source over this reader. No call of it has failed yet.
    pub fn new(reader: R) -> StdSource<R>
        ensures { result ≡ record { known = R.remaining reader; faults = 0 } }
    {
        StdSource { reader, faults: 0 }
    }
}

impl<R: SteadyRead> Source for StdSource<R> {
    ghost left = { λ s. s.known };

    ghost faults = { λ s. s.faults };

    fn read(&mut self, into: &mut [u8]) -> Result<usize, Failed>
        ensures within { IsWithin result into.new }
        ensures bytes { Reads self.old.known self.new.known result into.new }
        ensures cause { HasCause self.old.faults self.new.faults result }
        ensures faults { self.new.faults ≡ faults_after result self.old.faults }
    {
        match self.reader.read(into) {
            Ok(count) => Ok(count),
            Err(_) => {
                self.faults = self.faults.saturating_add(1);
                Err(Failed)
            }
        }
    }
}

/// A sink over a writer of std. Its bytes are those that the writer reports, until a call fails; from then on it
/// reports no bytes, since a writer that refuses a flush may have taken them.
#[derive(Drop)]
pub struct StdSink<W: SteadyWrite> {
    writer: W,
    faults: u64,
}

impl<W: SteadyWrite> Model for StdSink<W> {
    ghost use Rattle.ed_io.specs.Streams.{Stream, unless_failed};

    ghost Value = { Stream };

    ghost view = { λ s. record { known = unless_failed s.faults (W.contents s.writer); faults = s.faults } };
}

impl<W: SteadyWrite> StdSink<W> {
    /// A sink over this writer. No call of it has failed yet.
    pub fn new(writer: W) -> StdSink<W>
        ensures { result ≡ record { known = W.contents writer; faults = 0 } }
    {
        StdSink { writer, faults: 0 }
    }
}

impl<W: SteadyWrite> Sink for StdSink<W> {
    ghost held = { λ s. s.known };

    ghost faults = { λ s. s.faults };

    /// Writes and flushes. A writer has failed if it takes no byte of a piece that is not empty, or if it refuses to
    /// flush.
    fn write(&mut self, piece: &[u8]) -> Result<usize, Failed>
        ensures within { IsWithin result piece.now }
        ensures some { TakesSome result piece.now }
        ensures bytes { Writes self.old.known self.new.known result piece.now }
        ensures cause { HasCause self.old.faults self.new.faults result }
        ensures faults { self.new.faults ≡ faults_after result self.old.faults }
    {
        match write_through(&mut self.writer, piece) {
            Some(count) => Ok(count),
            None => {
                self.faults = self.faults.saturating_add(1);
                Err(Failed)
            }
        }
    }
}

/// Writes and flushes, and gives the number of bytes taken; None if the writer failed.
fn write_through<W: Write>(writer: &mut W, piece: &[u8]) -> Option<usize>
    ensures within { IfSome result (λ k. k ≤ length piece.now) }
    ensures some { IfSome result (λ k. 0 < length piece.now → 0 < k) }
    ensures bytes { IfSome result
        (λ k. Appends (W.contents writer.old) (W.contents writer.new) (take k piece.now)) }
{
    let Ok(count) = writer.write(piece) else {
        return None;
    };
    if count == 0 && !piece.is_empty() {
        return None;
    }
    let Ok(()) = writer.flush() else {
        return None;
    };
    Some(count)
}
