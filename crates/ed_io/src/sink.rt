ghost use Rattle.std.specs.Prelude.{◌≡◌, ◌⊎◌, ◌≤◌, ◌<◌, ◌↔◌, ◌-◌, [], Some, Contains, IfOk, IsErr, length, min};
ghost use Rattle.ed_io.specs.Bytes.{IsWithin, TakesSome, Writes};
ghost use Rattle.ed_io.specs.Causes.{HasCause, faults_after, next_count};
ghost use Rattle.ed_io.specs.Memory.{new_page};

use crate::pieces::keep;
use crate::{Failed, Sink};
use ed_words::NoMemory;
use std::alloc::Global;
use std::marker::Model;

/// A sink over memory that is reserved when it is made. A call fails if its number is in a list, or if the sink is full
/// and the piece is not empty.
#[derive(Drop)]
pub struct MemorySink {
    bytes: Vec<u8>,
    room: usize,
    most: usize,
    failing: Vec<u64>,
    call: u64,
    faults: u64,
}

impl Model for MemorySink {
    ghost use Rattle.std.specs.Prelude.{◌≤◌, ◌<◌, vec_capacity, vec_len};
    ghost use Rattle.ed_io.specs.Memory.{Page};

    ghost Value = { Page };

    ghost view = { λ s. record {
      held = s.bytes.items;
      room = s.room;
      most = s.most;
      failing = s.failing.items;
      call = s.call;
      faults = s.faults;
    } };

    ghost invariant = { λ s. (s.room ≤ vec_capacity s.bytes) × (vec_len s.bytes ≤ s.room) × (0 < s.most) };
}

impl MemorySink {
    /// A sink with room for `room` bytes, whose calls never fail before it is full.
    pub fn new(alloc: Global, room: usize) -> Result<MemorySink, NoMemory>
        ensures { IfOk result (λ s. s ≡ new_page room [] usize.MAX) }
    {
        MemorySink::with_faults(alloc, room, Vec::new(alloc))
    }

    /// A sink whose calls of `write` fail if their numbers, counted from 0, are in `failing`. If no memory is found,
    /// the list is dropped.
    pub fn with_faults(
        alloc: Global,
        room: usize,
        failing: Vec<u64>,
    ) -> Result<MemorySink, NoMemory>
        ensures { IfOk result (λ s. s ≡ new_page room failing.items usize.MAX) }
    {
        MemorySink::in_pieces(alloc, room, failing, usize::MAX)
    }

    /// Such a sink that takes at most `most` bytes a call.
    pub fn in_pieces(
        alloc: Global,
        room: usize,
        failing: Vec<u64>,
        most: usize,
    ) -> Result<MemorySink, NoMemory>
        requires { 0 < most }
        ensures { IfOk result (λ s. s ≡ new_page room failing.items most) }
    {
        let bytes = Vec::with_capacity(alloc, room)?;
        Ok(MemorySink {
            bytes,
            room,
            most,
            failing,
            call: 0,
            faults: 0,
        })
    }

    /// The bytes held.
    pub fn bytes(&self) -> &[u8]
        ensures { result.now ≡ self.now.held }
    {
        &self.bytes
    }

    /// The number of calls that have failed, at most 2^64 - 1.
    pub fn faults(&self) -> u64
        ensures { result ≡ self.now.faults }
    {
        self.faults
    }
}

impl Sink for MemorySink {
    ghost held = { λ s. Some s.held };

    ghost faults = { λ s. s.faults };

    fn write(&mut self, piece: &[u8]) -> Result<usize, Failed>
        ensures within { IsWithin result piece.now }
        ensures some { TakesSome result piece.now }
        ensures bytes { Writes (Some self.old.held) (Some self.new.held) result piece.now }
        ensures cause { HasCause self.old.faults self.new.faults result }
        ensures fails { IsErr result
            ↔ (Contains self.old.failing self.old.call
            ⊎ ((self.old.room ≤ length self.old.held) × (0 < length piece.now))) }
        ensures count { IfOk result
            (λ k. k ≡ min self.old.most (min (length piece.now) (self.old.room - length self.old.held))) }
        ensures faults { self.new.faults ≡ faults_after result self.old.faults }
        ensures next { self.new.call ≡ next_count self.old.call }
        ensures same { (self.new.failing ≡ self.old.failing) × (self.new.most ≡ self.old.most)
            × (self.new.room ≡ self.old.room) }
    {
        let fails = self.failing.contains(&self.call);
        self.call = self.call.saturating_add(1);
        let free = self.room - self.bytes.len();
        if fails || (free == 0 && !piece.is_empty()) {
            self.faults = self.faults.saturating_add(1);
            return Err(Failed);
        }
        let count = self.most.min(piece.len().min(free));
        keep(&mut self.bytes, &piece[..count]);
        Ok(count)
    }
}
