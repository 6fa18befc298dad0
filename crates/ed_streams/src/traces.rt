ghost use Rattle.std.specs.Prelude.{◌≡◌, []};
ghost use Rattle.ed_tapes.specs.Answer.{exactly, known, of_rows};
ghost use Rattle.ed_devices.specs.Devices.{device};
ghost use Rattle.ed_devices.specs.Stages.{Carried};
ghost use Rattle.ed_streams.specs.Traces.{trace_outcome, traced_from};

use ed_devices::{Rest, write};
use ed_io::{Sink, WriteStop};
use ed_machine::Machine;
use ed_report::ending_text;
use ed_run::Settings;
use ed_stepper::trace_run;
use ed_tapes::{rows_of, started, status_of};
use std::alloc::Global;

/// `trace`: the letters of the orders that the run of a text's rows obeys, each line written as it is full.
pub fn trace<K: Sink>(
    alloc: Global,
    settings: Settings,
    input: &[u8],
    out: &mut K,
) -> Result<Rest, WriteStop>
    ensures { Carried (of_rows (exactly (trace_outcome settings))) input.now
        (device K.held K.faults out.old out.new) result }
{
    let rows = match rows_of(alloc, input) {
        Ok(rows) => rows,
        Err(rejection) => return write(out, Err(rejection)),
    };
    let mut machine = started(alloc, settings.size, rows)?;
    trace_machine(alloc, settings, &mut machine, out)
}

/// Traces the run of a machine that has obeyed no order.
fn trace_machine<K: Sink>(
    alloc: Global,
    settings: Settings,
    machine: &mut Machine,
    out: &mut K,
) -> Result<Rest, WriteStop>
    requires { machine.old.orders ≡ 0 }
    ensures { Carried (known (traced_from settings machine.old)) [] (device K.held K.faults out.old out.new) result }
{
    let limit = u64::from(settings.limit);
    let ending = trace_run(alloc, machine, limit, settings.resumes, out)?;
    let note = ending_text(alloc, ending, machine)?;
    let status = status_of(ending);
    Ok(Rest { note, status })
}
