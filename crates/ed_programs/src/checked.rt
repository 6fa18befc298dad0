ghost use Rattle.std.specs.Prelude.{None};
ghost use Rattle.ed_programs.specs.Guests.{ChecksItsGuest, EachGuestIsChecked, SampleIsChecked, checked_text};
ghost use Rattle.ed_programs.specs.Programs.{GivesProgram};

use crate::refusal::{Refusal, program_of_text};
use std::alloc::Global;

/// The source that has the orders of a guest checked, beginning at its label `main`: `examples/checked.edsac` with
/// these lines instead of its own. The guest is a text of lines; the last one needs no line end.
pub fn checked_program(alloc: Global, guest: &str) -> Result<String, Refusal>
    ensures is { GivesProgram None (checked_text guest.now) result }
    ensures law { ChecksItsGuest result }
    ensures sources { EachGuestIsChecked }
    ensures sample { SampleIsChecked }
{
    program_of_text(format!(in alloc;
        "{guest}\n\
        use check as c with H=main\n\
        enter c\n"
    ))
}
