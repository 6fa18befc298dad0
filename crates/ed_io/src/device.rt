ghost use Rattle.std.specs.Prelude.{◌≡◌, List, Option, ℕ};
ghost use Rattle.ed_io.specs.Bytes.{IsWithin, Reads, TakesSome, Writes};
ghost use Rattle.ed_io.specs.Causes.{HasCause, faults_after};

/// The answer of a read or a write that failed. The device has counted it.
#[derive(Clone, Copy)]
pub struct Failed;

/// A device that input is read from.
pub trait Source {
    /// The bytes that are left, if the source reports them.
    ghost left: { Self → Option (List ℕ) };

    /// The number of calls that have failed, at most 2^64 - 1. A call raises it by one if it fails, and only then.
    ghost faults: { Self → ℕ };

    /// Hands over the next bytes at the front of a piece, and answers their number. For a piece that is not empty, 0
    /// means the end of the input.
    fn read(&mut self, into: &mut [u8]) -> Result<usize, Failed>
        ensures within { IsWithin result into.new }
        ensures bytes { Reads (left self.old) (left self.new) result into.new }
        ensures cause { HasCause (faults self.old) (faults self.new) result }
        ensures faults { faults self.new ≡ faults_after result (faults self.old) };
}

/// A device that output is written to.
pub trait Sink {
    /// The bytes that it holds, if the sink reports them.
    ghost held: { Self → Option (List ℕ) };

    /// The number of calls that have failed, at most 2^64 - 1. A call raises it by one if it fails, and only then.
    ghost faults: { Self → ℕ };

    /// Takes the first bytes of a piece, and answers their number: at least 1 if the piece is not empty.
    fn write(&mut self, piece: &[u8]) -> Result<usize, Failed>
        ensures within { IsWithin result piece.now }
        ensures some { TakesSome result piece.now }
        ensures bytes { Writes (held self.old) (held self.new) result piece.now }
        ensures cause { HasCause (faults self.old) (faults self.new) result }
        ensures faults { faults self.new ≡ faults_after result (faults self.old) };
}
