ghost use Rattle.std.specs.Prelude.{◌≡◌, ◌≢◌, IfOk};
ghost use Rattle.ed_report.specs.FirstNotes.{cause1_text, tape1_fault_line};

use crate::fault::place_note;
use ed_initial1::{Tape1Cause, Tape1Fault};
use ed_words::NoMemory;
use std::alloc::Global;

/// The line that reports a fault of a tape of Initial Orders 1, with the row counted from 0.
pub fn tape1_fault(alloc: Global, fault: &Tape1Fault) -> Result<Vec<u8>, NoMemory>
    requires { fault.now ≢ Tape1Fault.Memory }
    ensures { IfOk result (λ bytes. bytes.items ≡ tape1_fault_line fault.now) }
{
    match fault {
        Tape1Fault::At { row, cause } => {
            place_note(alloc, "row", *row as u64, cause1_text(*cause))
        }
        Tape1Fault::Memory => unreachable!(),
    }
}

/// The number and the text of a rule of the notation of Initial Orders 1.
fn cause1_text(cause: Tape1Cause) -> &'static str
    ensures { result.now ≡ cause1_text cause }
{
    match cause {
        Tape1Cause::EndOfTape => "K1 end of tape",
        Tape1Cause::BadRow => "K2 bad row",
        Tape1Cause::NumberTooLarge => "K3 number too large",
        Tape1Cause::FirstWord => "K4 first word",
    }
}
