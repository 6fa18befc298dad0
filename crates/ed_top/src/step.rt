ghost use Rattle.std.specs.Prelude.{◌≤◌, IfOk, None, length};
ghost use Rattle.ed_stepper.specs.ScriptLines.{CommandList, HasBadLine, IsScript};
ghost use Rattle.ed_tapes.specs.declared.input.TheConstants.{INPUT_BYTES};
ghost use Rattle.ed_tapes.specs.Answer.{of_input};
ghost use Rattle.ed_tapes.specs.Replies.{Gives, Replies};
ghost use Rattle.ed_stepper.specs.Scripts.{play};
ghost use Rattle.ed_top.specs.Private.Rows.{HasRows};
ghost use Rattle.ed_top.specs.Scripts.{StepOutcome, on_rows, played_outcome};

use ed_answers::linked_of;
use ed_codes::Code;
use ed_report::{back_too_far, bad_command, no_text};
use ed_run::Settings;
use ed_stepper::{ScriptFault, Session, TextKind, bad_line, divide, line_count, run_script};
use ed_tapes::{Rejection, Reply, rows_of, started};
use ed_words::NoMemory;
use std::alloc::Global;

/// `step`: what the script before the dividing line writes, on a machine started on the text after it.
pub fn step(alloc: Global, settings: Settings, input: &[u8]) -> Result<Reply, Rejection>
    requires { length input.now ≤ INPUT_BYTES }
    ensures { Replies (of_input (StepOutcome settings)) input.now result }
{
    let Some(divided) = divide(input) else {
        let line = no_text(alloc, line_count(input) + 1);
        return Err(Rejection::with_line(alloc, line));
    };
    if let Some(line) = bad_line(divided.script) {
        return Err(Rejection::with_line(alloc, bad_command(alloc, line)));
    }
    let rows = text_rows(alloc, settings, divided.kind, divided.text)?;
    Ok(step_rows(alloc, settings, divided.script, rows)?)
}

/// The rows of a tape's text, or of the tape of a source.
fn text_rows(
    alloc: Global,
    settings: Settings,
    kind: TextKind,
    text: &[u8],
) -> Result<Vec<Code>, Rejection>
    ensures { HasRows settings kind text.now result }
{
    match kind {
        TextKind::Tape => rows_of(alloc, text),
        TextKind::Source => Ok(linked_of(alloc, settings.size, text)?.rows()?),
    }
}

/// Runs a script on a cleared machine that is started on rows.
fn step_rows(
    alloc: Global,
    settings: Settings,
    script: &[u8],
    rows: Vec<Code>,
) -> Result<Reply, NoMemory>
    requires { HasBadLine script.now None }
    ensures { (commands : CommandList) → IsScript script.now commands
        → IfOk result (λ reply. Gives reply (on_rows settings commands rows.items)) }
{
    let machine = started(alloc, settings.size, rows)?;
    let mut session = Session::new(alloc, machine, u64::from(settings.limit))?;
    script_reply(alloc, &mut session, script)
}

/// Runs a script on a session.
fn script_reply(alloc: Global, session: &mut Session, script: &[u8]) -> Result<Reply, NoMemory>
    requires { HasBadLine script.now None }
    ensures { (commands : CommandList) → IsScript script.now commands
        → IfOk result (λ reply. Gives reply (played_outcome (play 1 commands session.old))) }
{
    match run_script(alloc, session, script) {
        Ok(text) => Ok(Reply::done(alloc, text)),
        Err(ScriptFault::BackTooFar { line, done: obeyed }) => {
            Ok(Reply::refusal(alloc, back_too_far(alloc, line, obeyed)?))
        }
        Err(ScriptFault::BadCommand { .. }) => unreachable!(),
        Err(ScriptFault::Memory) => Err(NoMemory),
    }
}
