ghost use Rattle.std.specs.Prelude.{◌≡◌, IfOk, IsErr};
ghost use Rattle.ed_tapes.specs.Replies.{Gives, Refuses};
ghost use Rattle.ed_tapes.specs.Outcome.{done, refusal};

use ed_words::NoMemory;
use std::alloc::Global;

/// The answer to an input, in memory.
#[derive(Drop)]
pub struct Reply {
    /// The text of the answer.
    pub out: Vec<u8>,
    /// The line on how the command ended, or on the fault.
    pub note: Vec<u8>,
    /// The status of the program: 0, or 3 to 7.
    pub status: u8,
}

/// Why a text gives no rows, or no linked program.
#[derive(Drop)]
pub enum Rejection {
    /// The text is refused, with this reply.
    Refused(Reply),
    /// No memory was found.
    Memory,
}

impl Reply {
    /// The reply of a command that is finished, with a text.
    pub fn done(alloc: Global, out: Vec<u8>) -> Reply
        ensures { Gives result (done out.items) }
    {
        Reply {
            out,
            note: Vec::new(alloc),
            status: 0,
        }
    }

    /// The reply that refuses an input, with a line.
    pub fn refusal(alloc: Global, line: Vec<u8>) -> Reply
        ensures { Gives result (refusal line.items) }
    {
        Reply {
            out: Vec::new(alloc),
            note: line,
            status: 3,
        }
    }
}

impl Rejection {
    /// The rejection with a line, or the one that no memory was found if there was none for the line.
    pub fn with_line(alloc: Global, line: Result<Vec<u8>, NoMemory>) -> Rejection
        ensures line { IfOk line (λ v. Refuses v.items result) }
        ensures memory { IsErr line → result ≡ Rejection.Memory }
    {
        match line {
            Ok(line) => Rejection::Refused(Reply::refusal(alloc, line)),
            Err(NoMemory) => Rejection::Memory,
        }
    }
}

impl From<NoMemory> for Rejection {
    ghost use Rattle.std.specs.Prelude.{◌≡◌};
    ghost use Rattle.ed_tapes.specs.declared.reply.Rejection.TheVariants.{Memory};

    ghost from_gives = { λ _ e. e ≡ Memory };

    fn from(_none: NoMemory) -> Rejection {
        Rejection::Memory
    }
}
