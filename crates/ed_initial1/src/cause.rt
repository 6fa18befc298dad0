use std::alloc::AllocFailed;

/// What is wrong with a tape of Initial Orders 1. If several apply at one row, the first is the fault.
#[derive(Clone, Copy)]
pub enum Tape1Cause {
    /// The rows end before loading has ended: the row is the number of rows.
    EndOfTape,
    /// After a function row, a row that is neither a digit nor S nor L.
    BadRow,
    /// A digit row that brings the number of its item above 32767.
    NumberTooLarge,
    /// The ending row of the first item, if that item is not T e S with e from 32 to 1023.
    FirstWord,
}

/// Why a tape of Initial Orders 1 was not accepted.
#[derive(Clone, Copy)]
pub enum Tape1Fault {
    /// The fault of the tape.
    At {
        /// The row, which counts from 0.
        row: usize,
        /// What is wrong there.
        cause: Tape1Cause,
    },
    /// No memory was found.
    Memory,
}

impl<T: Drop> From<AllocFailed<T>> for Tape1Fault {
    ghost use Rattle.std.specs.Prelude.{◌≡◌};
    ghost use Rattle.ed_initial1.specs.declared.cause.Tape1Fault.TheVariants.{Memory};

    ghost from_gives = { λ _ e. e ≡ Memory };

    fn from(_failed: AllocFailed<T>) -> Tape1Fault {
        Tape1Fault::Memory
    }
}
