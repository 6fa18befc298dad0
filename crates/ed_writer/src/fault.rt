use ed_words::NoMemory;

/// Why a program is not written.
#[derive(Clone, Copy)]
pub enum WriteFault {
    /// The program is of version 2 and its first line is not bare, or there is none. No text says its lines.
    NoVersionLine,
    /// The text of this line, counted from 1, would have more than 120 bytes.
    LongLine { line: u32 },
    /// No memory was found.
    Memory,
}

impl From<NoMemory> for WriteFault {
    ghost use Rattle.std.specs.Prelude.{◌≡◌};
    ghost use Rattle.ed_writer.specs.declared.fault.WriteFault.TheVariants.{Memory};

    ghost from_gives = { λ _ e. e ≡ Memory };

    fn from(_none: NoMemory) -> WriteFault {
        WriteFault::Memory
    }
}
