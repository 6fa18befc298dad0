ghost use Rattle.std.specs.Prelude.{◌≡◌, ◌↔◌, ◌+◌, ◌-◌, ◌<◌, ◌≤◌, ◌++◌, ◌∷◌, []};
ghost use Rattle.std.specs.Prelude.{IsFalse, IfOk, length, vec_len, vec_capacity};
ghost use Rattle.std.specs.Bool.{OnTrue, OnFalse};
ghost use Rattle.ed_machine.specs.Sheet.{Sheet};

use ed_codes::Code;
use ed_words::NoMemory;
use std::alloc::Global;
use std::marker::Model;

/// The codes printed so far, and room for a fixed number of them. The room is allocated when the paper is made.
#[derive(Drop)]
pub struct Paper {
    codes: Vec<Code>,
    room: usize,
}

impl Model for Paper {
    ghost Value = { Sheet };

    ghost view = { λ p. record { codes = p.codes.items; room = p.room } };

    ghost invariant = { λ p. (p.room ≤ vec_capacity p.codes) × (vec_len p.codes ≤ p.room) };
}

impl Paper {
    /// A paper with no codes and room for `room` of them.
    pub fn new(alloc: Global, room: usize) -> Result<Paper, NoMemory>
        ensures { IfOk result (λ p. p ≡ record { codes = []; room = room }) }
    {
        let codes = Vec::with_capacity(alloc, room)?;
        Ok(Paper { codes, room })
    }

    /// Adds a code at the end if there is room, and answers whether there was.
    pub fn push(&mut self, code: Code) -> bool
        ensures full { IsFalse result ↔ (self.old.room ≤ length self.old.codes) }
        ensures added { OnTrue result (self.new ≡ record self.old { codes = self.old.codes ++ code ∷ [] }) }
        ensures same { OnFalse result (self.new ≡ self.old) }
    {
        if self.codes.len() == self.room {
            return false;
        }
        self.push_reserved(code);
        true
    }

    /// Adds a code at the end of a paper that has room for it.
    pub fn push_reserved(&mut self, code: Code)
        requires { length self.old.codes < self.old.room }
        ensures { self.new ≡ record self.old { codes = self.old.codes ++ code ∷ [] } }
    {
        self.codes.push_reserved(code);
    }

    /// The codes, the first printed first.
    pub fn codes(&self) -> &[Code]
        ensures is { result.now ≡ self.now.codes }
        ensures fits { length self.now.codes ≤ self.now.room }
    {
        &self.codes
    }

    /// The number of codes for which there still is room.
    pub fn room_left(&self) -> usize
        ensures is { result ≡ self.now.room - length self.now.codes }
        ensures fits { length self.now.codes ≤ self.now.room }
    {
        self.room - self.codes.len()
    }
}
