ghost use Rattle.std.specs.Prelude.{◌≡◌, ◌≤◌, IfOk, MatchResult, length};
ghost use Rattle.ed_codes.specs.Reading.{reading, rows};
ghost use Rattle.ed_tapes.specs.Replies.{RefusesText};

use crate::reply::Rejection;
use ed_codes::{Code, TextFault, tape_of_text};
use ed_report::text_fault;
use std::alloc::Global;

/// The rows of a tape's text.
pub fn rows_of(alloc: Global, input: &[u8]) -> Result<Vec<Code>, Rejection>
    ensures is { MatchResult result (λ v. reading input.now ≡ rows v.items) (RefusesText (reading input.now)) }
    ensures few { IfOk result (λ v. length v.items ≤ length input.now) }
{
    match tape_of_text(alloc, input) {
        Ok(rows) => Ok(rows),
        Err(TextFault::Memory) => Err(Rejection::Memory),
        Err(fault) => Err(Rejection::with_line(alloc, text_fault(alloc, &fault))),
    }
}
