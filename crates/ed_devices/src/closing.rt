//! How a command ends: the last line, and the status.
ghost use Rattle.std.specs.Prelude.{◌<◌, IfOk};
ghost use Rattle.ed_tapes.specs.Outcome.{no_memory};
ghost use Rattle.ed_devices.specs.Devices.{WritesLastLine, device};
ghost use Rattle.ed_devices.specs.Stages.{WritesEnd, unread_outcome};

use crate::devices::{InputStop, Rest, write_note};
use ed_io::{Sink, WriteStop};
use ed_tapes::TOO_LONG;

const READ_FAULT: &[u8] = b"read fault\n";

const NO_MEMORY: &[u8] = b"no memory\n";

/// The answer of a caller that finds no memory: the line on `note` and the status 10; or 9 if the write fails.
pub fn report_no_memory<L: Sink>(note: &mut L) -> u8
    ensures { WritesLastLine (device L.held L.faults note.old note.new) no_memory 10 result }
{
    write_note(note, NO_MEMORY, 10)
}

/// Ends a command for which there is no input: writes the line that says why, and answers the status.
pub fn end_unread<L: Sink>(note: &mut L, stop: InputStop) -> u8
    ensures { WritesLastLine (device L.held L.faults note.old note.new)
        (unread_outcome stop).note (unread_outcome stop).status result }
{
    match stop {
        InputStop::Failed => write_note(note, READ_FAULT, 8),
        InputStop::Memory => report_no_memory(note),
        InputStop::TooLong => write_note(note, TOO_LONG, 11),
    }
}

/// Ends a command that was carried out, or that stopped as it wrote on `out`: writes the last line and answers the
/// status.
pub fn end_carried<L: Sink>(note: &mut L, carried: Result<Rest, WriteStop>) -> u8
    requires { IfOk carried (λ rest. rest.status < 8) }
    ensures { WritesEnd carried (device L.held L.faults note.old note.new) result }
{
    match carried {
        Ok(rest) => write_note(note, &rest.note, rest.status),
        Err(WriteStop::Failed) => 9,
        Err(WriteStop::Memory) => report_no_memory(note),
    }
}
