ghost use Rattle.std.specs.Prelude.{◌≡◌, IfOk, None};
ghost use Rattle.ed_page.specs.Pictures.{run_settings, size_shown};
ghost use Rattle.ed_page.specs.Private.Requests.{answers_of, ends_of};
ghost use Rattle.ed_page.specs.Private.Stages.{IsPicture, Runs};

use ed_answers::{NotedRun, run_source};
use ed_machine::Machine;
use ed_report::ending_text;
use ed_run::Settings;
use ed_tapes::{Rejection, Reply, ran_reply, rows_of, run_rows, run_rows1};
use ed_words::{NoMemory, Size};
use std::alloc::Global;

/// The kind of a program that is run.
#[derive(Drop)]
pub enum ProgramKind {
    /// A tape.
    Tape(InitialOrders),
    /// A source, for the 41 Initial Orders.
    Source,
}

/// The Initial Orders that read a tape.
#[derive(Drop)]
pub enum InitialOrders {
    /// The 41 Initial Orders.
    Orders41,
    /// The Initial Orders of May 1949.
    Orders31,
}

/// What is shown of a text: what the program answers, and the machine if it ran.
#[derive(Drop)]
pub struct Shown {
    pub reply: Reply,
    pub machine: Option<Machine>,
}

/// The size of a machine.
pub fn size_of(small: bool) -> Size
    ensures { result ≡ size_shown small }
{
    if small { Size::Small } else { Size::Full }
}

/// The settings of a run: the size of the store, the limit of orders, the resumes.
pub fn run_settings(small: bool, orders: u32, resumes: u32) -> Settings
    ensures { result ≡ run_settings small orders resumes }
{
    Settings {
        limit: orders,
        resumes,
        size: size_of(small),
        post_mortem: None,
    }
}

/// What is shown of the run of a text, or of its refusal.
pub fn picture_of(
    alloc: Global,
    kind: ProgramKind,
    settings: Settings,
    text: &[u8],
) -> Result<Shown, NoMemory>
    requires { settings.post_mortem ≡ None }
    ensures { IfOk result (λ shown. IsPicture (answers_of kind settings) (ends_of kind settings) text.now shown) }
{
    match run_program(alloc, kind, settings, text) {
        Ok(NotedRun { ran, note }) => Ok(Shown {
            reply: ran_reply(alloc, &ran, note)?,
            machine: Some(ran.machine),
        }),
        Err(Rejection::Refused(reply)) => Ok(Shown {
            reply,
            machine: None,
        }),
        Err(Rejection::Memory) => Err(NoMemory),
    }
}

/// The run of a text, with its note.
fn run_program(
    alloc: Global,
    kind: ProgramKind,
    settings: Settings,
    text: &[u8],
) -> Result<NotedRun, Rejection>
    requires { settings.post_mortem ≡ None }
    ensures { Runs (answers_of kind settings) (ends_of kind settings) text.now result }
{
    let initial_orders = match kind {
        ProgramKind::Tape(initial_orders) => initial_orders,
        ProgramKind::Source => return run_source(alloc, settings, text),
    };
    let rows = rows_of(alloc, text)?;
    let ran = match initial_orders {
        InitialOrders::Orders41 => run_rows(alloc, settings, rows),
        InitialOrders::Orders31 => run_rows1(alloc, settings, rows),
    }?;
    let note = ending_text(alloc, ran.ending, &ran.machine)?;
    Ok(NotedRun { ran, note })
}
