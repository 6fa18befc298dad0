ghost use Rattle.std.specs.Prelude.{[]};
ghost use Rattle.ed_report.specs.Catalogue.{library_text};
ghost use Rattle.ed_tapes.specs.Answer.{known};
ghost use Rattle.ed_tapes.specs.Outcome.{done};
ghost use Rattle.ed_tapes.specs.Replies.{Replies};

use ed_report::library_text;
use ed_tapes::{Rejection, Reply};
use std::alloc::Global;

/// `library`: a line for each routine.
pub fn list_library(alloc: Global) -> Result<Reply, Rejection>
    ensures { Replies (known (done library_text)) [] result }
{
    Ok(Reply::done(alloc, library_text(alloc)?))
}
