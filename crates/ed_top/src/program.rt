ghost use Rattle.std.specs.Prelude.{Some, map, string_bytes};
ghost use Rattle.ed_command.specs.Lines.{command_line};
ghost use Rattle.ed_command.specs.Ranges.{IsInRange};
ghost use Rattle.ed_devices.specs.Ends.{ProgramEnded};
ghost use Rattle.ed_devices.specs.Devices.{device};
ghost use Rattle.ed_top.specs.Complete.{EachRunIsComplete};
ghost use Rattle.ed_headline.specs.Headline.{Headline};
ghost use Rattle.ed_sources.specs.CallRuns.{EachCallRuns};
ghost use Rattle.ed_top.specs.Output.{EachLineHasOneOutcome, answer, output};

use crate::commands::{carry_out, reads_input};
use ed_command::{Command, CommandFault, read_words};
use ed_devices::{end_carried, end_unread, input_of, report_no_memory, write_note};
use ed_io::{Sink, Source};
use std::alloc::Global;

const USAGE: &[u8] =
    b"usage: edsac COMMAND [--limit N] [--resume N] [--post-mortem FROM,COUNT] [--store SIZE]\n";

/// Runs the program with the words after its name: reads the input if the command needs it, writes `out` and then
/// `note`, and answers the status.
///
/// 0 done, 2 words that are not a command, 3 a refused input, 4 to 7 the other ends of a run (limit, no order, no tape,
/// paper full), 8 a read that failed, 9 a write that failed, 10 no memory, 11 an input of more than 262,144 bytes.
pub fn edsac<S: Source, K: Sink, L: Sink>(
    alloc: Global,
    words: &[String],
    source: &mut S,
    out: &mut K,
    note: &mut L,
) -> u8
    ensures ended { ProgramEnded (output (command_line (map string_bytes words.now)))
        (device S.left S.faults source.old source.new)
        (device K.held K.faults out.old out.new)
        (device L.held L.faults note.old note.new) result }
    ensures law { EachLineHasOneOutcome }
    ensures complete { EachRunIsComplete }
    ensures headline { Headline }
    ensures calls { EachCallRuns }
{
    match read_words(alloc, words) {
        Ok(command) => run_command(alloc, command, source, out, note),
        Err(CommandFault::Usage) => write_note(note, USAGE, 2),
        Err(CommandFault::Memory) => report_no_memory(note),
    }
}

/// Reads the input, carries the command out on it, then writes the last line and answers the status.
fn run_command<S: Source, K: Sink, L: Sink>(
    alloc: Global,
    command: Command,
    source: &mut S,
    out: &mut K,
    note: &mut L,
) -> u8
    requires { IsInRange command }
    ensures { ProgramEnded (answer command.action command.settings)
        (device S.left S.faults source.old source.new)
        (device K.held K.faults out.old out.new)
        (device L.held L.faults note.old note.new) result }
{
    match input_of(alloc, reads_input(command), source) {
        Ok(input) => end_carried(note, carry_out(alloc, command, &input, out)),
        Err(stop) => end_unread(note, stop),
    }
}
