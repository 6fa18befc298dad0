ghost use Rattle.std.specs.Prelude.{◌≡◌, ◌<◌, ◌↔◌, Some, Contains, IfOk, IsErr, length, min};
ghost use Rattle.ed_io.specs.Bytes.{IsWithin, Reads};
ghost use Rattle.ed_io.specs.Causes.{HasCause, faults_after, next_count};
ghost use Rattle.ed_io.specs.Memory.{new_supply};

use crate::pieces::hand_over;
use crate::{Failed, Source};
use std::marker::Model;

/// A source over bytes in memory, whose calls fail if their numbers are in a list.
#[derive(Drop)]
pub struct MemorySource {
    bytes: Vec<u8>,
    at: usize,
    most: usize,
    failing: Vec<u64>,
    call: u64,
    faults: u64,
}

impl Model for MemorySource {
    ghost use Rattle.std.specs.Prelude.{◌≤◌, ◌<◌, drop, length};
    ghost use Rattle.ed_io.specs.Memory.{Supply};

    ghost Value = { Supply };

    ghost view = { λ s. record {
      left = drop s.at s.bytes.items;
      most = s.most;
      failing = s.failing.items;
      call = s.call;
      faults = s.faults;
    } };

    ghost invariant = { λ s. (s.at ≤ length s.bytes.items) × (0 < s.most) };
}

impl MemorySource {
    /// A source with these bytes left. The calls of `read` whose numbers, counted from 0, are in `failing` fail.
    pub fn new(bytes: Vec<u8>, failing: Vec<u64>) -> MemorySource
        ensures { result ≡ new_supply bytes.items failing.items usize.MAX }
    {
        MemorySource::in_pieces(bytes, failing, usize::MAX)
    }

    /// A source that hands over at most `most` bytes a call.
    pub fn in_pieces(bytes: Vec<u8>, failing: Vec<u64>, most: usize) -> MemorySource
        requires { 0 < most }
        ensures { result ≡ new_supply bytes.items failing.items most }
    {
        MemorySource {
            bytes,
            at: 0,
            most,
            failing,
            call: 0,
            faults: 0,
        }
    }

    /// The bytes left.
    pub fn bytes(&self) -> &[u8]
        ensures { result.now ≡ self.now.left }
    {
        &self.bytes[self.at..]
    }

    /// The number of calls that have failed, at most 2^64 - 1.
    pub fn faults(&self) -> u64
        ensures { result ≡ self.now.faults }
    {
        self.faults
    }
}

impl Source for MemorySource {
    ghost left = { λ s. Some s.left };

    ghost faults = { λ s. s.faults };

    fn read(&mut self, into: &mut [u8]) -> Result<usize, Failed>
        ensures within { IsWithin result into.new }
        ensures bytes { Reads (Some self.old.left) (Some self.new.left) result into.new }
        ensures cause { HasCause self.old.faults self.new.faults result }
        ensures fails { IsErr result ↔ Contains self.old.failing self.old.call }
        ensures count { IfOk result (λ k. k ≡ min self.old.most (min (length into.old) (length self.old.left))) }
        ensures faults { self.new.faults ≡ faults_after result self.old.faults }
        ensures next { self.new.call ≡ next_count self.old.call }
        ensures same { (self.new.failing ≡ self.old.failing) × (self.new.most ≡ self.old.most) }
    {
        let fails = self.failing.contains(&self.call);
        self.call = self.call.saturating_add(1);
        if fails {
            self.faults = self.faults.saturating_add(1);
            return Err(Failed);
        }
        let count = hand_over(into, &self.bytes[self.at..], self.most);
        self.at += count;
        Ok(count)
    }
}
