ghost use Rattle.std.specs.Prelude.{◌≡◌, ◌≤◌, ◌^◌, IfOk, length};
ghost use Rattle.ed_tapes.specs.Replies.{Gives, Replies};
ghost use Rattle.ed_tapes.specs.Outcome.{Outcome, done};
ghost use Rattle.ed_report.specs.Entries.{entry_line};
ghost use Rattle.ed_tapes.specs.Tapes.{IsChecked, check_tape_answer, opening_notation};
ghost use Rattle.ed_notation.specs.Checks.{AnswersCheck};
ghost use Rattle.ed_store.specs.Cells.{cleared_cells};

use crate::reply::{Rejection, Reply};
use crate::rows::rows_of;
use ed_codes::Code;
use ed_notation::{Checked, TapeFault, check};
use ed_report::{entry_text, tape_fault};
use ed_run::Settings;
use ed_store::Store;
use ed_words::{NoMemory, Size};
use std::alloc::Global;

/// `check-tape`: the entry that a text's rows reach from a cleared store, or their fault.
pub fn check_tape(alloc: Global, settings: Settings, input: &[u8]) -> Result<Reply, Rejection>
    requires { length input.now ≤ 2 ^ 32 }
    ensures { Replies (check_tape_answer settings) input.now result }
{
    let rows = rows_of(alloc, input)?;
    Ok(check_rows(alloc, settings, &rows)?)
}

fn check_rows(alloc: Global, settings: Settings, rows: &[Code]) -> Result<Reply, NoMemory>
    requires { length rows.now ≤ 2 ^ 32 }
    ensures { IfOk result (λ reply. (o : Outcome) × IsChecked settings rows.now o × Gives reply o) }
{
    match check_from_cleared(alloc, settings.size, rows) {
        Ok(checked) => entry_reply(alloc, checked.entry(), checked.orders(), checked.rows()),
        Err(TapeFault::Memory) => Err(NoMemory),
        Err(fault) => Ok(Reply::refusal(alloc, tape_fault(alloc, &fault)?)),
    }
}

/// Whether a whole tape is well formed from a cleared store: its entry and words, or its fault.
pub fn check_from_cleared(alloc: Global, size: Size, rows: &[Code]) -> Result<Checked, TapeFault>
    requires { length rows.now ≤ 2 ^ 32 }
    ensures { AnswersCheck size cleared_cells.words opening_notation 9 rows.now result }
{
    check(alloc, size, &Store::cleared(alloc)?, rows)
}

/// The reply to a well-formed tape.
pub fn entry_reply(alloc: Global, entry: u16, orders: u64, rows: usize) -> Result<Reply, NoMemory>
    ensures { IfOk result (λ reply. Gives reply (done (entry_line entry orders rows))) }
{
    Ok(Reply {
        out: entry_text(alloc, entry, orders, rows)?,
        note: Vec::new(alloc),
        status: 0,
    })
}
