//! The parts of a tape, one after the other.
ghost use Rattle.std.specs.Prelude.{◌≡◌, ◌+◌, ◌≤◌, ◌^◌, length};
ghost use Rattle.ed_io.specs.Causes.{stop_faults};
ghost use Rattle.ed_interlude.specs.Laws.{EachEndIsTheRuns, EachEntryIsReached, EachTapeHasOneReport};
ghost use Rattle.ed_interlude.specs.Parts.{PartsAnswer};

use crate::part::{PartOutcome, PartStart, run_part};
use ed_io::{Sink, WriteStop};
use ed_machine::{Ending, Machine};
use ed_notation::TapeCause;
use std::alloc::Global;

/// How a tape in parts ended.
#[derive(Clone, Copy)]
pub enum PartsEnd {
    /// The run ended with this ending.
    Ended(Ending),
    /// A part breaks a rule of the notation.
    Faulty {
        /// The number of the part, counted from 1.
        part: u32,
        /// The row, counted from the tape's first.
        row: usize,
        /// The rule.
        cause: TapeCause,
    },
}

/// Reads the tape of a machine at Start, whose programs may return to the Initial Orders, and writes the line of each
/// entry and of each return as it comes.
///
/// At most `limit` orders are obeyed, counted from Start. The machine is left in the state in which the run ended, or,
/// if a part has a fault, in which that part begins. After `Failed` it is at the entry or the return whose line failed,
/// and after `Memory` there or at the beginning of a part.
pub fn run_parts<K: Sink>(
    alloc: Global,
    machine: &mut Machine,
    limit: u32,
    out: &mut K,
) -> Result<PartsEnd, WriteStop>
    requires orders { machine.old.orders + limit ≤ 2 ^ 63 }
    requires rows { length machine.old.tape ≤ 2 ^ 32 }
    ensures tells { PartsAnswer limit machine.old result machine.new (K.held out.old) (K.held out.new) }
    ensures faults { K.faults out.new ≡ stop_faults result (K.faults out.old) }
    ensures law { EachTapeHasOneReport }
    ensures reached { EachEntryIsReached }
    ensures runs { EachEndIsTheRuns }
{
    let rows = machine.rows_left().len();
    let mut number = 1u32;
    let mut done = 0u64;
    'parts: loop {
        let part_start = PartStart {
            limit: u64::from(limit),
            rows,
            number,
            done,
        };
        match run_part(alloc, part_start, machine, out)? {
            PartOutcome::Ended(end) => return Ok(end),
            PartOutcome::Returned { done: now } => {
                number += 1;
                done = now;
            }
        }
    }
}
