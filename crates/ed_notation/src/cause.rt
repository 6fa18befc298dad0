use ed_words::NoMemory;
use std::alloc::AllocError;

/// Why a tape is not well formed, in the order of the rules' numbers: if two rules are broken at one row, the first is
/// reported.
#[derive(Clone, Copy)]
pub enum TapeCause {
    /// The rows end before an entry item is complete.
    EndOfTape,
    /// A row that is not allowed there: J, S or erase inside an item, or a blank that makes no blank pair.
    BadRow,
    /// A digit row that brings the number above 32767.
    NumberTooLarge,
    /// A digit row or π after the item's π.
    AfterMark,
    /// K or Z after π, after a function other than P, E, T, blank and G, or Z after G.
    BadControl,
    /// A word to be placed below location 44.
    LoaderStore,
    /// A word or an entry beyond the end of the store, or a K or Z whose number or sum is too large.
    StoreEnd,
    /// A code letter under a P directive.
    NoPlace,
    /// An entry item whose word is 65536 or more.
    EntryNegative,
    /// An entry below location 44.
    EntryInLoader,
}

/// Why a tape was not accepted.
#[derive(Clone, Copy)]
pub enum TapeFault {
    /// The fault of the tape. Rows count from 0.
    At {
        /// The row; if the tape ends too early, the number of rows.
        row: usize,
        /// The rule that is broken there.
        cause: TapeCause,
    },
    /// No memory was found.
    Memory,
}

impl From<AllocError> for TapeFault {
    ghost use Rattle.std.specs.Prelude.{◌≡◌};
    ghost use Rattle.ed_notation.specs.declared.cause.TapeFault.TheVariants.{Memory};

    ghost from_gives = { λ _ e. e ≡ Memory };

    fn from(_error: AllocError) -> TapeFault {
        TapeFault::Memory
    }
}

impl From<NoMemory> for TapeFault {
    ghost use Rattle.std.specs.Prelude.{◌≡◌};
    ghost use Rattle.ed_notation.specs.declared.cause.TapeFault.TheVariants.{Memory};

    ghost from_gives = { λ _ e. e ≡ Memory };

    fn from(_none: NoMemory) -> TapeFault {
        TapeFault::Memory
    }
}
