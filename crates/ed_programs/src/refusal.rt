ghost use Rattle.std.specs.Prelude.{◌≡◌};
ghost use Rattle.ed_programs.specs.declared.refusal.Refusal.TheVariants.{Memory};
ghost use Rattle.ed_programs.specs.Programs.{AnswersWritten};

use std::alloc::AllocError;

/// Why there is no program for some data.
#[derive(Clone, Copy, PartialEq, Eq)]
pub enum Refusal {
    /// The text has no letter, or more letters than the program takes.
    Length,
    /// The text has a character that is not a capital letter.
    Letter,
    /// There are fewer or more numbers than the program's list has.
    Count,
    /// A number, or what the program makes of the numbers, is 65,536 or more.
    Number,
    /// A number before the end of a list would end it, or the one at the end would not.
    End,
    /// The numbers of a list do not fit on one line of a source.
    Line,
    /// The lower number of a fraction is 0 or above 6,553.
    Divisor,
    /// The words of the program would not be in the store beside its orders.
    Place,
    /// The month is not 1 to 12.
    Month,
    /// The year is not 1901 to 2099.
    Year,
    /// No memory was found for the text of the program.
    Memory,
}

impl From<AllocError> for Refusal {
    ghost from_gives = { λ _ e. e ≡ Memory };

    fn from(_error: AllocError) -> Refusal {
        Refusal::Memory
    }
}

/// The bound for a number that `print` prints: it must be below this.
pub const LIMIT: u32 = 65536;

/// The text that `format!` made, or that there was no memory for it.
pub fn program_of_text(text: Result<String, AllocError>) -> Result<String, Refusal>
    ensures { AnswersWritten text result }
{
    match text {
        Ok(text) => Ok(text),
        Err(_) => Err(Refusal::Memory),
    }
}
