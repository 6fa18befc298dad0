ghost use Rattle.std.specs.Prelude.{◌≡◌, ◌<◌, ◌≤◌, ◌+◌, ◌-◌, ◌^◌, ◌++◌, IfErr, IfOk, IfSome};
ghost use Rattle.ed_run.specs.Run.{run_end};
ghost use Rattle.ed_initial.specs.Entry.{IsStarted, first_state};
ghost use Rattle.ed_printer.specs.Paper.{paper};
ghost use Rattle.ed_run.specs.SettingRanges.{IsWindowOf};
ghost use Rattle.ed_postmortem.specs.Answers.{enough_orders};
ghost use Rattle.ed_postmortem.specs.Codes.{printed_codes};
ghost use Rattle.ed_report.specs.Notes.{ending_line};
ghost use Rattle.ed_tapes.specs.Replies.{Gives, IsPrintableIn, IsRunResult};
ghost use Rattle.ed_tapes.specs.Runs.{paper_room, post_mortem_codes, run_of, status_of};

use crate::reply::Reply;
use ed_codes::Code;
use ed_initial::begin;
use ed_machine::{Ending, Machine, Paper};
use ed_postmortem::{PmFault, post_mortem};
use ed_report::{ending_text, paper_text, papers_text};
use ed_run::{Settings, Window, run};
use ed_words::{NoMemory, Size};
use std::alloc::Global;

/// The number of codes that the paper of a run holds.
const PAPER_ROOM: usize = 1_000_000;

/// The number of codes that the paper of a post-mortem holds: enough for all words that can be printed.
const POST_MORTEM_ROOM: usize = 9_680;

/// A run that ended, with the machine and the paper that it leaves.
#[derive(Drop)]
pub struct FinishedRun {
    pub ending: Ending,
    pub machine: Machine,
    pub paper: Paper,
}

/// A cleared machine of this size, started on rows with the Initial Orders.
#[tactic(auto, unfolding(ed_initial::specs::Entry::first_state))]
pub fn started(alloc: Global, size: Size, rows: Vec<Code>) -> Result<Machine, NoMemory>
    ensures is { IfOk result (λ m. m ≡ first_state size rows.items) }
    ensures stands { IfOk result (λ m. IsStarted m) }
    ensures tape { IfOk result (λ m. m.tape ≡ rows.items) }
    ensures orders { IfOk result (λ m. m.orders ≡ 0) }
{
    let mut machine = Machine::cleared_of(alloc, size)?;
    begin(&mut machine, rows);
    Ok(machine)
}

/// Runs a cleared machine of this size, started on the rows with the Initial Orders. This is a function of its own
/// because inlined into `main` it would run out of registers and take longer.
#[inline(never)]
pub fn run_rows(alloc: Global, settings: Settings, rows: Vec<Code>) -> Result<FinishedRun, NoMemory>
    ensures is { IfOk result (λ ran. IsRunResult (run_of settings rows.items) ran) }
    ensures size { IfOk result (λ ran. ran.machine.size ≡ settings.size) }
    ensures orders { IfOk result (λ ran. ran.machine.orders ≤ settings.limit) }
{
    run_machine(alloc, settings, started(alloc, settings.size, rows)?)
}

/// Runs a machine until it has obeyed as many orders as the limit, including those that it obeyed before.
#[inline(always)]
pub fn run_machine(
    alloc: Global,
    settings: Settings,
    mut machine: Machine,
) -> Result<FinishedRun, NoMemory>
    requires { machine.orders ≤ settings.limit }
    ensures is { IfOk result (λ left.
        IsRunResult (run_end (settings.limit - machine.orders) settings.resumes paper_room machine) left) }
    ensures size { IfOk result (λ left. left.machine.size ≡ machine.size) }
    ensures orders { IfOk result (λ left. left.machine.orders ≤ settings.limit) }
{
    let mut paper = Paper::new(alloc, PAPER_ROOM)?;
    let left = u64::from(settings.limit) - machine.orders_done();
    let ending = run(&mut machine, left, settings.resumes, &mut paper);
    Ok(FinishedRun {
        ending,
        machine,
        paper,
    })
}

/// The reply of a run, with its note.
pub fn ran_reply(alloc: Global, ran: &FinishedRun, note: Vec<u8>) -> Result<Reply, NoMemory>
    ensures { IfOk result (λ reply.
        Gives reply (record {
          out = paper ran.now.paper.codes;
          note = note.items;
          status = status_of ran.now.ending;
        })) }
{
    Ok(Reply {
        out: paper_text(alloc, ran.paper.codes())?,
        note,
        status: status_of(ran.ending),
    })
}

/// The reply of a run, with the line of its ending, and with the post-mortem of a window.
pub fn ended_reply(
    alloc: Global,
    window: Option<Window>,
    mut ran: FinishedRun,
) -> Result<Reply, NoMemory>
    requires { IfSome window (IsPrintableIn ran.machine) }
    ensures { IfOk result (λ reply. Gives reply (record {
      out = paper (ran.paper.codes ++ post_mortem_codes window ran.machine);
      note = ending_line ran.ending ran.machine;
      status = status_of ran.ending;
    })) }
{
    let note = ending_text(alloc, ran.ending, &ran.machine)?;
    post_mortem_reply(alloc, window, &mut ran, note)
}

/// The reply of a run, with the post-mortem of a window after it, printed in the shift that the run leaves. Its orders
/// don't count against the limit.
pub fn post_mortem_reply(
    alloc: Global,
    window: Option<Window>,
    ran: &mut FinishedRun,
    note: Vec<u8>,
) -> Result<Reply, NoMemory>
    requires { IfSome window (IsPrintableIn ran.old.machine) }
    ensures { IfOk result (λ reply. Gives reply (record {
      out = paper (ran.old.paper.codes ++ post_mortem_codes window ran.old.machine);
      note = note.items;
      status = status_of ran.old.ending;
    })) }
{
    let after = match window {
        Some(window) => window_printed(alloc, window, &mut ran.machine)?,
        None => Paper::new(alloc, 0)?,
    };
    Ok(Reply {
        out: papers_text(alloc, ran.paper.codes(), after.codes())?,
        note,
        status: status_of(ran.ending),
    })
}

/// The paper of the words in a window. No post-mortem of it is refused: it is within the store, and the paper has room.
pub fn window_printed(
    alloc: Global,
    window: Window,
    machine: &mut Machine,
) -> Result<Paper, NoMemory>
    requires window { IsWindowOf machine.old.size window }
    requires orders { machine.old.orders + enough_orders ≤ 2 ^ 63 }
    ensures { IfOk result (λ p. p.codes ≡ printed_codes machine.old.store.words window.first window.count) }
{
    let mut paper = Paper::new(alloc, POST_MORTEM_ROOM)?;
    match post_mortem(alloc, machine, window.first, window.count, &mut paper) {
        Ok(_) => Ok(paper),
        Err(PmFault::Memory) => Err(NoMemory),
        Err(PmFault::InItsOwnStore | PmFault::StoreEnd | PmFault::PaperFull { .. }) => {
            unreachable!()
        }
    }
}

/// The status of a run's ending.
pub fn status_of(ending: Ending) -> u8
    ensures is { result ≡ status_of ending }
    ensures low { result < 8 }
{
    match ending {
        Ending::Stopped => 0,
        Ending::Limit => 4,
        Ending::NoOrder => 5,
        Ending::NoTape => 6,
        Ending::PaperFull => 7,
    }
}
