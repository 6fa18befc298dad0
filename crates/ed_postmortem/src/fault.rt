use ed_words::NoMemory;
use std::fmt;
use thiserror::Error;

/// Why no post-mortem was printed. The message of each variant is its name.
#[derive(Clone, Copy, Error)]
pub enum PmFault {
    /// The first location is below 144: the post-mortem's own tape takes the store up to 139.
    #[error("InItsOwnStore")]
    InItsOwnStore,
    /// The words go past the end of the store.
    #[error("StoreEnd")]
    StoreEnd,
    /// The paper has room for fewer codes than are needed.
    #[error("PaperFull")]
    PaperFull { needed: usize, room: usize },
    /// No memory for the tape.
    #[error("Memory")]
    Memory,
}

impl fmt::Debug for PmFault {
    fn fmt<W: fmt::Write>(&self, f: &mut fmt::Formatter<W>) -> fmt::Result {
        fmt::Display::fmt(self, f)
    }
}

impl From<NoMemory> for PmFault {
    ghost use Rattle.std.specs.Prelude.{◌≡◌};
    ghost use Rattle.ed_postmortem.specs.declared.fault.PmFault.TheVariants.{Memory};

    ghost from_gives = { λ _ e. e ≡ Memory };

    fn from(_none: NoMemory) -> PmFault {
        PmFault::Memory
    }
}
