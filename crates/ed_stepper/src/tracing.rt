//! The run whose trace is written.
ghost use Rattle.std.specs.Prelude.{◌≡◌, ◌+◌, ◌≤◌, ◌^◌, [], vec_capacity, MatchResult};
ghost use Rattle.ed_io.specs.Causes.{faults_after, stop_faults};
ghost use Rattle.ed_stepper.specs.Traces.{TraceEnds};
ghost use Rattle.ed_stepper.specs.Private.Growth.{BreaksTrace, Traces, letter};

use crate::session::next_function;
use crate::sheet::{end_line, put};
use ed_codes::byte_of;
use ed_io::{Failed, Sink, WriteStop};
use ed_machine::{Ending, Machine, Turn};
use std::alloc::Global;

/// The number of letters on a line.
const LETTERS: u64 = 50;

/// Runs the machine, with a paper that is never full, and writes the letter or sign of the function of each order, 50
/// to a line, each line as it is full. The last line ends with a line feed if it has a letter.
///
/// After `Failed` the machine is in the state after the orders of the line whose write failed, and the lines before it
/// have been written. With `Memory` nothing was written and no order obeyed.
pub fn trace_run<K: Sink>(
    alloc: Global,
    machine: &mut Machine,
    limit: u64,
    resumes: u32,
    out: &mut K,
) -> Result<Ending, WriteStop>
    requires { machine.old.orders + limit ≤ 2 ^ 63 }
    ensures trace { TraceEnds limit resumes machine.old result machine.new (K.held out.old) (K.held out.new) }
    ensures faults { K.faults out.new ≡ stop_faults result (K.faults out.old) }
{
    let mut line = Vec::with_capacity(alloc, 51)?;
    let ending = trace_orders(machine, limit, resumes, &mut line, out)?;
    end_line(out, &mut line)?;
    Ok(ending)
}

/// Obeys orders as a run does whose paper is never full, and writes the letter of each; a last line that is not full
/// stays in `line`.
fn trace_orders<K: Sink>(
    machine: &mut Machine,
    limit: u64,
    resumes: u32,
    line: &mut Vec<u8>,
    out: &mut K,
) -> Result<Ending, Failed>
    requires orders { machine.old.orders + limit ≤ 2 ^ 63 }
    requires line { line.old.items ≡ [] }
    requires room { 51 ≤ vec_capacity line.old }
    ensures trace { MatchResult result
        (λ ending. Traces limit resumes machine.old ending machine.new (K.held out.old) (K.held out.new) line.new.items)
        (λ _. BreaksTrace limit resumes machine.old machine.new (K.held out.old) (K.held out.new)) }
    ensures room { vec_capacity line.new ≡ vec_capacity line.old }
    ensures faults { K.faults out.new ≡ faults_after result (K.faults out.old) }
{
    let mut stops = 0u32;
    for done in 0..limit {
        let letter = byte_of(next_function(machine), false);
        let turn = machine.step();
        match turn {
            Turn::NoOrder(_) => return Ok(Ending::NoOrder),
            Turn::NoTape => return Ok(Ending::NoTape),
            Turn::Went | Turn::Printed(_) | Turn::Stopped => {}
        }
        if let Err(Failed) = put(out, line, letter, (done + 1) % LETTERS == 0) {
            return Err(Failed);
        }
        if let Turn::Stopped = turn {
            if stops == resumes {
                return Ok(Ending::Stopped);
            }
            stops += 1;
        }
    }
    Ok(Ending::Limit)
}
