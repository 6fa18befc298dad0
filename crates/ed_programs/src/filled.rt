//! The text of a program with numbers between its pieces.

ghost use Rattle.std.specs.Prelude.{◌≡◌, ◌+◌, None, length, map};
ghost use Rattle.std.specs.Fmt.{decimal};
ghost use Rattle.ed_sources.specs.CallSources.{filled_text};
ghost use Rattle.ed_programs.specs.Programs.{GivesProgram};

use crate::refusal::Refusal;
use ed_sources::filled;
use ed_words::NoMemory;
use std::alloc::Global;

/// The program whose text is these pieces, with a number between each two of them.
pub fn filled_program(alloc: Global, pieces: &[&str], numbers: &[u16]) -> Result<String, Refusal>
    requires { length pieces.now ≡ length numbers.now + 1 }
    ensures { GivesProgram None (filled_text (map (λ piece. piece.now) pieces.now) (map decimal numbers.now)) result }
{
    match filled(alloc, pieces, numbers) {
        Ok(text) => Ok(text),
        Err(NoMemory) => Err(Refusal::Memory),
    }
}
