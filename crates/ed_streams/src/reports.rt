ghost use Rattle.std.specs.Prelude.{◌≡◌, ◌<◌, ◌≤◌, ◌^◌, [], List, ℕ, IfOk, length};
ghost use Rattle.ed_initial.specs.Entry.{first_state};
ghost use Rattle.ed_tapes.specs.Answer.{of_input, of_rows};
ghost use Rattle.ed_devices.specs.Devices.{device};
ghost use Rattle.ed_streams.specs.Parts.{IsInParts, end_note, end_status};
ghost use Rattle.ed_devices.specs.Stages.{Carried};

use ed_devices::{Rest, write};
use ed_interlude::{PartsEnd, run_parts};
use ed_io::{Sink, WriteStop};
use ed_machine::Machine;
use ed_report::{ending_text, part_fault};
use ed_run::Settings;
use ed_tapes::{rows_of, started, status_of};
use ed_words::NoMemory;
use std::alloc::Global;

/// `parts`: the entries and returns of a text's rows, whose programs may return to the Initial Orders, each line
/// written as it comes.
pub fn parts<K: Sink>(
    alloc: Global,
    settings: Settings,
    input: &[u8],
    out: &mut K,
) -> Result<Rest, WriteStop>
    requires { length input.now ≤ 2 ^ 32 }
    ensures { Carried (of_rows (IsInParts settings)) input.now (device K.held K.faults out.old out.new) result }
{
    let rows = match rows_of(alloc, input) {
        Ok(rows) => rows,
        Err(rejection) => return write(out, Err(rejection)),
    };
    let mut machine = started(alloc, settings.size, rows)?;
    read_parts(alloc, settings, &mut machine, out)
}

/// Reads the tape of a machine that has obeyed no order, in parts.
fn read_parts<K: Sink>(
    alloc: Global,
    settings: Settings,
    machine: &mut Machine,
    out: &mut K,
) -> Result<Rest, WriteStop>
    requires orders { machine.old.orders ≡ 0 }
    requires rows { length machine.old.tape ≤ 2 ^ 32 }
    ensures { (codes : List ℕ) → machine.old ≡ first_state settings.size codes
        → Carried (of_input (λ _. IsInParts settings codes)) [] (device K.held K.faults out.old out.new) result }
{
    let end = run_parts(alloc, machine, settings.limit, out)?;
    let note = end_text(alloc, end, machine)?;
    let status = end_status(end);
    Ok(Rest { note, status })
}

/// The line on how a tape in parts ended.
fn end_text(alloc: Global, end: PartsEnd, machine: &Machine) -> Result<Vec<u8>, NoMemory>
    ensures { IfOk result (λ note. note.items ≡ end_note end machine.now) }
{
    match end {
        PartsEnd::Ended(ending) => ending_text(alloc, ending, machine),
        PartsEnd::Faulty { part, row, cause } => part_fault(alloc, part, row, cause),
    }
}

/// The status for that ending.
fn end_status(end: PartsEnd) -> u8
    ensures is { result ≡ end_status end }
    ensures low { result < 8 }
{
    match end {
        PartsEnd::Ended(ending) => status_of(ending),
        PartsEnd::Faulty { .. } => 3,
    }
}
