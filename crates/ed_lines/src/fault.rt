use ed_words::NoMemory;
use std::alloc::AllocFailed;

/// Why a source is refused. S1 to S5 are faults of form; the others are faults of meaning, found by the crates above.
#[derive(Clone, Copy, PartialEq, Eq)]
pub enum SourceCause {
    /// S1: a byte of the line is neither a tab nor 32 to 126.
    BadByte,
    /// S2: the line has more than 120 bytes.
    LongLine,
    /// S3: the line has none of the forms, whatever the size of its numbers.
    NotAStatement,
    /// S4: the line has a form, and one of its numbers is out of its range.
    NumberRange,
    /// S5: there is a line 2001.
    TooManyLines,
    /// S6: the line defines a name that is defined already.
    LabelTwice,
    /// S7: an operand or `enter` has a name that is unknown on its line.
    LabelUnknown,
    /// S8: the value of an operand with a name is outside 0 to 1023.
    AddressRange,
    /// S9: the line must be in a segment, and isn't.
    OutsideSegment,
    /// S10: a word of the line, or the location that an `enter` names, is below 44.
    LoaderStore,
    /// S11: the same for 44 to 55.
    ParameterStore,
    /// S12: the same for the size of the store and above.
    StoreEnd,
    /// S13: a word of the line is at the location of a word of an earlier line.
    Overlap,
    /// S14: `use` of a name that isn't in the catalogue.
    NoSuchRoutine,
    /// S15: the letters set aren't exactly the routine's parameters, each once.
    Parameters,
    /// S16: `enter` twice, missing or out of order.
    Enter,
    /// S17: a `long` whose sandwich digit is 1, which no tape can place.
    SandwichDigit,
}

/// What is wrong with a source.
#[derive(Clone, Copy)]
pub enum SourceFault {
    /// A fault at a line, counted from 1.
    At { line: u32, cause: SourceCause },
    /// No memory was found.
    Memory,
}

impl From<NoMemory> for SourceFault {
    ghost use Rattle.std.specs.Prelude.{◌≡◌};
    ghost use Rattle.ed_lines.specs.declared.fault.SourceFault.TheVariants.{Memory};

    ghost from_gives = { λ _ e. e ≡ Memory };

    fn from(_none: NoMemory) -> SourceFault {
        SourceFault::Memory
    }
}

impl<T: Drop> From<AllocFailed<T>> for SourceFault {
    ghost use Rattle.std.specs.Prelude.{◌≡◌};
    ghost use Rattle.ed_lines.specs.declared.fault.SourceFault.TheVariants.{Memory};

    ghost from_gives = { λ _ e. e ≡ Memory };

    fn from(_failed: AllocFailed<T>) -> SourceFault {
        SourceFault::Memory
    }
}
