ghost use Rattle.std.specs.Prelude.{◌≡◌, IfOk, List};
ghost use Rattle.ed_lines.specs.declared.program.Line.{Line};
ghost use Rattle.ed_link.specs.Answers.{IsLinked};
ghost use Rattle.ed_headline.specs.EntryState.{EachSourceComes, EachSourceEnters, entry_state};
ghost use Rattle.ed_headline.specs.Refusals.{EachSourceHasOneAnswer};
ghost use Rattle.ed_headline.specs.EntryWords.{EachEntryStoreIs};

use ed_initial::load;
use ed_link::Linked;
use ed_machine::Machine;
use ed_tapes::started;
use ed_words::{NoMemory, Size};
use std::alloc::Global;

/// A cleared machine of this size, started on the tape of a linked program and led to its entry by the Initial Orders.
pub fn enter(alloc: Global, size: Size, linked: &Linked) -> Result<Machine, NoMemory>
    ensures entry { IfOk result
        (λ m. (lines : List Line) → IsLinked size lines linked.now → m ≡ entry_state size lines) }
    ensures one { EachSourceHasOneAnswer }
    ensures comes { EachSourceComes }
    ensures law { EachSourceEnters }
    ensures words { EachEntryStoreIs }
{
    let mut machine = started(alloc, size, linked.rows()?)?;
    load(&mut machine);
    Ok(machine)
}
