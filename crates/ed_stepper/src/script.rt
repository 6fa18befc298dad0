//! Scripts: lines that move a session and show its state.
ghost use Rattle.ed_stepper.specs.ScriptLines.{EachScriptHasOneMeaning, HasBadLine};
ghost use Rattle.ed_stepper.specs.Scripts.{ScriptEnds};
ghost use Rattle.ed_stepper.specs.Private.Lines.{fault_on};
ghost use Rattle.std.specs.Prelude.{◌≡◌};

use crate::commands::command_of;
use crate::fronts::first_line;
use crate::lines::carry_out;
use crate::moves::BackFault;
use crate::session::Session;
use std::alloc::{AllocError, Global};

/// The first invalid line; every line after 1000 is invalid.
const TOO_MANY: u32 = 1001;

/// Why a script was not run to its end.
#[derive(Clone, Copy)]
pub enum ScriptFault {
    /// A line says no command, or it is line 1001. No line has run.
    BadCommand {
        /// The line, counted from 1.
        line: u32,
    },
    /// A line goes back by more orders than were obeyed. The lines before it have run.
    BackTooFar {
        /// The line, counted from 1.
        line: u32,
        /// The number of orders obeyed by then.
        done: u64,
    },
    /// No memory was found. The lines before some line have run.
    Memory,
}

impl From<AllocError> for ScriptFault {
    ghost use Rattle.std.specs.Prelude.{◌≡◌};
    ghost use Rattle.ed_stepper.specs.declared.script.ScriptFault.TheVariants.{Memory};

    ghost from_gives = { λ _ e. e ≡ Memory };

    fn from(_error: AllocError) -> ScriptFault {
        ScriptFault::Memory
    }
}

impl BackFault {
    /// The fault of a script whose line goes back.
    fn on_line(self, line: u32) -> ScriptFault
        ensures { result ≡ fault_on line self }
    {
        match self {
            BackFault::TooFar { done } => ScriptFault::BackTooFar { line, done },
            BackFault::Memory => ScriptFault::Memory,
        }
    }
}

/// The first bad line, counted from 1: it says no command, or it is line 1001.
pub fn bad_line(script: &[u8]) -> Option<u32>
    ensures is { HasBadLine script.now result }
    ensures one { EachScriptHasOneMeaning }
{
    let mut rest = script;
    let mut number = 1;
    while !rest.is_empty() {
        let (line, after) = first_line(rest);
        if number == TOO_MANY || command_of(line).is_none() {
            return Some(number);
        }
        number += 1;
        rest = after;
    }
    None
}

/// Runs a script, and answers what its lines write.
///
/// `BadCommand` comes before any line runs. Otherwise the lines run one after the other, and the session is where the
/// last of them left it: `BackTooFar` and `Memory` leave it where the lines before did.
pub fn run_script(
    alloc: Global,
    session: &mut Session,
    script: &[u8],
) -> Result<Vec<u8>, ScriptFault>
    ensures { ScriptEnds script.now session.old result session.new }
{
    if let Some(line) = bad_line(script) {
        return Err(ScriptFault::BadCommand { line });
    }
    let mut text = Vec::new(alloc);
    let mut rest = script;
    let mut line = 1;
    while !rest.is_empty() {
        let (bytes, after) = first_line(rest);
        let command = command_of(bytes).unwrap();
        match carry_out(alloc, session, command) {
            Ok(written) => text.extend_from_slice(&written)?,
            Err(fault) => return Err(fault.on_line(line)),
        }
        line += 1;
        rest = after;
    }
    Ok(text)
}
