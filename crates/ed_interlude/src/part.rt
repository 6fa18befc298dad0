//! One part of a tape: its check, its entry and its program.
ghost use Rattle.std.specs.Prelude.{◌≡◌, ◌≢◌, ◌+◌, ◌-◌, ◌*◌, ◌^◌, ◌≤◌, ◌<◌, List};
ghost use Rattle.std.specs.Prelude.{ℕ, Option, IfErr, IfOk, MatchResult, length};
ghost use Rattle.ed_notation.specs.Checks.{AnswersCheck};
ghost use Rattle.ed_notation.specs.Faults.{TapeEntry};
ghost use Rattle.ed_interlude.specs.Returned.{IsReturned};
ghost use Rattle.ed_io.specs.Bytes.{Gains, GainsPart};
ghost use Rattle.ed_io.specs.Causes.{stop_faults};
ghost use Rattle.ed_interlude.specs.Parts.{base_of, notation_of, read_before};
ghost use Rattle.ed_interlude.specs.Private.Stages.{IsArrival, Passes, part_at_start};

use crate::program::{ProgramOutcome, run_program};
use crate::resuming::check_rest;
use crate::returning::directive;
use crate::tape::PartsEnd;
use ed_io::{Sink, WriteStop, write_all};
use ed_machine::{Ending, Machine};
use ed_notation::{Checked, TapeFault, check};
use ed_report::{entry_text, returned_text};
use ed_words::NoMemory;
use std::alloc::Global;

/// The beginning of a part: the most orders of the run, the number of rows of the whole tape, the part's number,
/// counted from 1, and the number of orders before it.
#[derive(Clone, Copy)]
pub(crate) struct PartStart {
    pub limit: u64,
    pub rows: usize,
    pub number: u32,
    pub done: u64,
}

/// How a part was passed.
#[derive(Clone, Copy)]
pub(crate) enum PartOutcome {
    /// It is the last one, and the run is over.
    Ended(PartsEnd),
    /// Its program returned, after `done` orders in all.
    Returned { done: u64 },
}

/// The entry of a part: its location, the number of orders from the part's beginning to it, and the rows read up to it,
/// counted from the tape's first.
#[derive(Clone, Copy)]
pub(crate) struct Arrival {
    pub at: u16,
    pub orders: u64,
    pub rows: usize,
}

/// Reads a part and runs its program. The part is checked before any of its orders is obeyed.
pub(crate) fn run_part<K: Sink>(
    alloc: Global,
    part_start: PartStart,
    machine: &mut Machine,
    out: &mut K,
) -> Result<PartOutcome, WriteStop>
    requires limit { part_start.limit < 2 ^ 32 }
    requires done { part_start.done ≤ part_start.limit }
    requires orders { machine.old.orders + (part_start.limit - part_start.done) ≤ 2 ^ 63 }
    requires rows { part_start.rows ≤ 2 ^ 32 }
    requires tape { length machine.old.tape ≤ part_start.rows }
    requires back { part_start.number ≢ 1 → IsReturned machine.old }
    ensures passes { Passes part_start.limit part_start.rows (part_at_start part_start machine.old) result machine.new
        (K.held out.old) (K.held out.new) }
    ensures faults { K.faults out.new ≡ stop_faults result (K.faults out.old) }
{
    let read = part_start.rows - machine.rows_left().len();
    match check_part(alloc, part_start.number, machine) {
        Ok(checked) => {
            let arrival = Arrival {
                at: checked.entry(),
                orders: checked.orders(),
                rows: read + checked.rows(),
            };
            enter_part(alloc, part_start, arrival, machine, out)
        }
        Err(TapeFault::At { row, cause }) => Ok(PartOutcome::Ended(PartsEnd::Faulty {
            part: part_start.number,
            row: read + row,
            cause,
        })),
        Err(TapeFault::Memory) => Err(WriteStop::Memory),
    }
}

/// Whether the rows left are well formed: in the first part as a whole tape, in a further part as the rest of one.
fn check_part(alloc: Global, number: u32, machine: &Machine) -> Result<Checked, TapeFault>
    requires rows { length machine.now.tape ≤ 2 ^ 32 }
    requires back { number ≢ 1 → IsReturned machine.now }
    ensures { AnswersCheck machine.now.size machine.now.store.words
        (notation_of (record { number = number; done = 0; state = machine.now }))
        (base_of (record { number = number; done = 0; state = machine.now })) machine.now.tape result }
{
    if number == 1 {
        return check(alloc, machine.size(), machine.store(), machine.rows_left());
    }
    check_rest(alloc, machine)
}

/// Reads a well-formed part up to its entry, or to the limit if that comes first, and runs its program.
fn enter_part<K: Sink>(
    alloc: Global,
    part_start: PartStart,
    arrival: Arrival,
    machine: &mut Machine,
    out: &mut K,
) -> Result<PartOutcome, WriteStop>
    requires limit { part_start.limit < 2 ^ 32 }
    requires done { part_start.done ≤ part_start.limit }
    requires orders { machine.old.orders + (part_start.limit - part_start.done) ≤ 2 ^ 63 }
    requires arrival { (e : TapeEntry) × IsArrival part_start.rows (part_at_start part_start machine.old) arrival e }
    ensures passes { Passes part_start.limit part_start.rows (part_at_start part_start machine.old) result machine.new
        (K.held out.old) (K.held out.new) }
    ensures faults { K.faults out.new ≡ stop_faults result (K.faults out.old) }
{
    let left = part_start.limit - part_start.done;
    if left < arrival.orders {
        machine.obey_next(left);
        return Ok(PartOutcome::Ended(PartsEnd::Ended(Ending::Limit)));
    }
    machine.obey_next(arrival.orders);
    let entered = part_start.done + arrival.orders;
    write_line(out, entry_text(alloc, arrival.at, entered, arrival.rows))?;
    match run_program(machine, part_start.limit - entered) {
        ProgramOutcome::Finished(ending) => Ok(PartOutcome::Ended(PartsEnd::Ended(ending))),
        ProgramOutcome::Returned { orders } => {
            let done = entered + orders;
            let address = directive(machine).order().address;
            write_line(out, returned_text(alloc, address, done))?;
            Ok(PartOutcome::Returned { done })
        }
    }
}

/// Writes a line, if memory was found for it.
fn write_line<K: Sink>(out: &mut K, line: Result<Vec<u8>, NoMemory>) -> Result<(), WriteStop>
    ensures whole { (text : List ℕ) → IfOk line (λ bytes. bytes.items ≡ text) → MatchResult result
        (λ _. Gains (K.held out.old) (K.held out.new) text)
        (λ _. GainsPart (K.held out.old) (K.held out.new) text) }
    ensures memory { IfErr result (λ e. e ≡ WriteStop.Memory → K.held out.new ≡ K.held out.old) }
    ensures faults { K.faults out.new ≡ stop_faults result (K.faults out.old) }
{
    Ok(write_all(out, &line?)?)
}
