ghost use Rattle.std.specs.Prelude.{◌≡◌, ◌≤◌, length};
ghost use Rattle.ed_command.specs.Ranges.{IsInRange};
ghost use Rattle.ed_tapes.specs.declared.input.TheConstants.{INPUT_BYTES};
ghost use Rattle.ed_tapes.specs.Answer.{reads_input};
ghost use Rattle.ed_devices.specs.Devices.{device};
ghost use Rattle.ed_devices.specs.Stages.{Carried};
ghost use Rattle.ed_top.specs.Output.{answer};

use crate::calls::call_routine;
use crate::demo::demo;
use crate::library::list_library;
use crate::step::step;
use ed_answers::{list, punch, run};
use ed_command::{Action, Command};
use ed_devices::{Rest, write};
use ed_io::{Sink, WriteStop};
use ed_streams::{parts, trace};
use ed_tapes::{check_tape, check_tape1, tape, tape1};
use std::alloc::Global;

/// Whether a command reads its input.
pub fn reads_input(command: Command) -> bool
    ensures { result ≡ reads_input (answer command.action command.settings) }
{
    match command.action {
        Action::Tape | Action::CheckTape | Action::Run | Action::Punch | Action::Listing => true,
        Action::Tape1 | Action::CheckTape1 | Action::Trace | Action::Step | Action::Parts => true,
        Action::Call(_) | Action::Library | Action::Demo(_) => false,
    }
}

/// Carries a command out on its input, as far as `out` is concerned.
pub fn carry_out<K: Sink>(
    alloc: Global,
    command: Command,
    input: &[u8],
    out: &mut K,
) -> Result<Rest, WriteStop>
    requires few { length input.now ≤ INPUT_BYTES }
    requires ranges { IsInRange command }
    ensures { Carried (answer command.action command.settings) input.now
        (device K.held K.faults out.old out.new) result }
{
    let settings = command.settings;
    let reply = match command.action {
        Action::Tape => tape(alloc, settings, input),
        Action::CheckTape => check_tape(alloc, settings, input),
        Action::Run => run(alloc, settings, input),
        Action::Punch => punch(alloc, settings, input),
        Action::Listing => list(alloc, settings, input),
        Action::Call(call) => call_routine(alloc, settings, call),
        Action::Library => list_library(alloc),
        Action::Demo(n) => demo(alloc, settings, n),
        Action::Tape1 => tape1(alloc, settings, input),
        Action::CheckTape1 => check_tape1(alloc, input),
        Action::Step => step(alloc, settings, input),
        Action::Trace => return trace(alloc, settings, input, out),
        Action::Parts => return parts(alloc, settings, input, out),
    };
    write(out, reply)
}
