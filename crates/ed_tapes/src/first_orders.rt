ghost use Rattle.std.specs.Prelude.{◌≡◌, ◌≤◌, ◌^◌, IfOk, length};
ghost use Rattle.ed_tapes.specs.FirstOrders.{IsChecked1, check_tape1_answer, first_state1, tape1_answer};
ghost use Rattle.ed_tapes.specs.FirstOrders.{run1_of};
ghost use Rattle.ed_tapes.specs.Outcome.{Outcome};
ghost use Rattle.ed_tapes.specs.Replies.{Gives, IsRunResult, Replies};

use crate::check::entry_reply;
use crate::reply::{Rejection, Reply};
use crate::rows::rows_of;
use crate::running::{FinishedRun, ended_reply, run_machine};
use ed_codes::Code;
use ed_initial1::{Tape1Fault, check1, orders1};
use ed_machine::Machine;
use ed_report::tape1_fault;
use ed_run::Settings;
use ed_words::{NoMemory, Size};
use std::alloc::Global;

/// The location at which the program of a tape of Initial Orders 1 is entered.
const ENTRY: u16 = 31;

/// `tape1`: the run of a text's rows under Initial Orders 1.
pub fn tape1(alloc: Global, settings: Settings, input: &[u8]) -> Result<Reply, Rejection>
    ensures { Replies (tape1_answer settings) input.now result }
{
    let ran = run_rows1(alloc, settings, rows_of(alloc, input)?)?;
    Ok(ended_reply(alloc, None, ran)?)
}

/// Runs a cleared machine of full size, started on rows with Initial Orders 1. This is a function of its own for the
/// same reason as the run of a tape.
#[inline(never)]
pub fn run_rows1(
    alloc: Global,
    settings: Settings,
    rows: Vec<Code>,
) -> Result<FinishedRun, NoMemory>
    ensures { IfOk result (λ ran. IsRunResult (run1_of settings rows.items) ran) }
{
    run_machine(alloc, settings, started1(alloc, rows)?)
}

/// A cleared machine of full size, started on rows with Initial Orders 1.
#[tactic(auto, unfolding(crate::specs::FirstOrders::first_state1))]
fn started1(alloc: Global, rows: Vec<Code>) -> Result<Machine, NoMemory>
    ensures is { IfOk result (λ m. m ≡ first_state1 rows.items) }
    ensures orders { IfOk result (λ m. m.orders ≡ 0) }
{
    let mut machine = Machine::cleared_of(alloc, Size::Full)?;
    machine.start(&orders1(), rows);
    Ok(machine)
}

/// `check-tape1`: the entry at 31 that a text's rows reach under Initial Orders 1, or their fault.
pub fn check_tape1(alloc: Global, input: &[u8]) -> Result<Reply, Rejection>
    requires { length input.now ≤ 2 ^ 32 }
    ensures { Replies check_tape1_answer input.now result }
{
    let rows = rows_of(alloc, input)?;
    Ok(check_rows1(alloc, &rows)?)
}

fn check_rows1(alloc: Global, rows: &[Code]) -> Result<Reply, NoMemory>
    requires { length rows.now ≤ 2 ^ 32 }
    ensures { IfOk result (λ reply. (o : Outcome) × IsChecked1 rows.now o × Gives reply o) }
{
    match check1(alloc, rows) {
        Ok(checked) => entry_reply(alloc, ENTRY, checked.orders(), checked.rows()),
        Err(Tape1Fault::Memory) => Err(NoMemory),
        Err(fault) => Ok(Reply::refusal(alloc, tape1_fault(alloc, &fault)?)),
    }
}
