//! Orders obeyed from the entry of a part.
ghost use Rattle.std.specs.Prelude.{◌≡◌, ◌+◌, ◌≤◌, ◌^◌, length};
ghost use Rattle.ed_interlude.specs.Private.Stages.{Meets};

use crate::returning::is_returned;
use ed_machine::{Ending, Machine, Turn};

/// What a program did.
#[derive(Clone, Copy)]
pub(crate) enum ProgramOutcome {
    /// It ended with this ending.
    Finished(Ending),
    /// It returned after `orders` orders.
    Returned { orders: u64 },
}

/// Obeys a program until it ends or returns, or until no more orders are allowed. What it prints is dropped.
pub(crate) fn run_program(machine: &mut Machine, left: u64) -> ProgramOutcome
    requires { machine.old.orders + left ≤ 2 ^ 63 }
    ensures meets { Meets left machine.old result machine.new }
    ensures orders { machine.new.orders ≤ machine.old.orders + left }
{
    for done in 0..left {
        if is_returned(machine) {
            return ProgramOutcome::Returned { orders: done };
        }
        match machine.step() {
            Turn::Went | Turn::Printed(_) => {}
            Turn::Stopped => return ProgramOutcome::Finished(Ending::Stopped),
            Turn::NoOrder(_) => return ProgramOutcome::Finished(Ending::NoOrder),
            Turn::NoTape => return ProgramOutcome::Finished(Ending::NoTape),
        }
    }
    if is_returned(machine) {
        return ProgramOutcome::Returned { orders: left };
    }
    ProgramOutcome::Finished(Ending::Limit)
}
