//! The lines that report faults of a script.
ghost use Rattle.std.specs.Prelude.{◌≡◌, IfOk};
ghost use Rattle.ed_report.specs.Notes.{bad_command_line, no_text_line, too_far_line};

use crate::fault::place_note;
use crate::text::bytes_of_text;
use ed_words::NoMemory;
use std::alloc::Global;

/// The line that reports that a script's line, counted from 1, is not a command.
pub fn bad_command(alloc: Global, line: u32) -> Result<Vec<u8>, NoMemory>
    ensures { IfOk result (λ bytes. bytes.items ≡ bad_command_line line) }
{
    place_note(alloc, "line", u64::from(line), "C1 bad command")
}

/// The line that reports that a script's line goes back by more orders than were obeyed.
pub fn back_too_far(alloc: Global, line: u32, done: u64) -> Result<Vec<u8>, NoMemory>
    ensures { IfOk result (λ bytes. bytes.items ≡ too_far_line line done) }
{
    bytes_of_text(format!(in alloc; "line {line}: C2 back too far, {done} done\n"))
}

/// The line that reports that no line divides the input: the number is that of the line after its last one.
pub fn no_text(alloc: Global, line: u32) -> Result<Vec<u8>, NoMemory>
    ensures { IfOk result (λ bytes. bytes.items ≡ no_text_line line) }
{
    place_note(alloc, "line", u64::from(line), "C3 no text line")
}
