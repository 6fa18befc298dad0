use crate::Failed;
use ed_words::NoMemory;
use std::alloc::AllocError;

/// Why a text was not written whole.
#[derive(Clone, Copy)]
pub enum WriteStop {
    /// A write failed.
    Failed,
    /// No memory was found for what was to be written.
    Memory,
}

impl From<Failed> for WriteStop {
    ghost use Rattle.std.specs.Prelude.{◌≡◌};
    ghost use Rattle.ed_io.specs.declared.stop.WriteStop.TheVariants.{Failed};

    ghost from_gives = { λ _ e. e ≡ Failed };

    fn from(_failed: Failed) -> WriteStop {
        WriteStop::Failed
    }
}

impl From<NoMemory> for WriteStop {
    ghost use Rattle.std.specs.Prelude.{◌≡◌};
    ghost use Rattle.ed_io.specs.declared.stop.WriteStop.TheVariants.{Memory};

    ghost from_gives = { λ _ e. e ≡ Memory };

    fn from(_none: NoMemory) -> WriteStop {
        WriteStop::Memory
    }
}

impl From<AllocError> for WriteStop {
    ghost use Rattle.std.specs.Prelude.{◌≡◌};
    ghost use Rattle.ed_io.specs.declared.stop.WriteStop.TheVariants.{Memory};

    ghost from_gives = { λ _ e. e ≡ Memory };

    fn from(_error: AllocError) -> WriteStop {
        WriteStop::Memory
    }
}
