use ed_words::NoMemory;
use std::alloc::AllocError;

/// How a move of a session ended.
#[derive(Clone, Copy)]
pub enum MoveEnd {
    /// The move obeyed as many orders as it asked for.
    Went,
    /// The counter is the address that the move asked for.
    There,
    /// The program was entered: an E order at 22 jumped.
    Entered,
    /// The session went back.
    Back,
    /// A Z order was obeyed.
    Stopped,
    /// The word at the counter is not an order.
    NoOrder,
    /// The order at the counter reads the tape, and no row is left.
    NoTape,
    /// The session has obeyed as many orders as its limit.
    Limit,
}

/// The state of a session after a move, and how the move ended.
#[derive(Clone, Copy)]
pub struct Moved {
    /// The location of the next order.
    pub at: u16,
    /// The number of orders obeyed since the session's start.
    pub done: u64,
    /// How the move ended.
    pub end: MoveEnd,
}

/// Where a move aims.
#[derive(Clone, Copy)]
pub enum MoveTarget {
    /// This number of orders.
    Orders(u64),
    /// An address, after at least one order.
    Address(u16),
    /// The entry of a program.
    Entry,
}

/// Why a session did not go back.
#[derive(Clone, Copy)]
pub enum BackFault {
    /// Fewer orders were obeyed so far.
    TooFar {
        /// The number of orders obeyed since the session's start.
        done: u64,
    },
    /// No memory was found for a copy of the machine.
    Memory,
}

impl From<NoMemory> for BackFault {
    ghost use Rattle.std.specs.Prelude.{◌≡◌};
    ghost use Rattle.ed_stepper.specs.declared.moves.BackFault.TheVariants.{Memory};

    ghost from_gives = { λ _ e. e ≡ Memory };

    fn from(_none: NoMemory) -> BackFault {
        BackFault::Memory
    }
}

impl From<AllocError> for BackFault {
    ghost use Rattle.std.specs.Prelude.{◌≡◌};
    ghost use Rattle.ed_stepper.specs.declared.moves.BackFault.TheVariants.{Memory};

    ghost from_gives = { λ _ e. e ≡ Memory };

    fn from(_error: AllocError) -> BackFault {
        BackFault::Memory
    }
}
