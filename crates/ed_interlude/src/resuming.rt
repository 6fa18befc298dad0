ghost use Rattle.std.specs.Prelude.{◌≡◌, ◌+◌, ◌*◌, ◌^◌, ◌≤◌, IfOk, length};
ghost use Rattle.ed_machine.specs.Steps.{state_after};
ghost use Rattle.ed_notation.specs.Faults.{TapeEntry};
ghost use Rattle.ed_notation.specs.Checks.{AnswersCheck};
ghost use Rattle.ed_initial.specs.Entry.{IsLoaded};
ghost use Rattle.ed_initial.specs.Load.{EndsAs, orders_of};
ghost use Rattle.ed_interlude.specs.Returned.{ReachesNextEntry, IsRestWellFormed, IsReturned, reopening};

use crate::returning::directive;
use ed_initial::{Loaded, obey_orders};
use ed_machine::Machine;
use ed_notation::{Checked, TapeFault, check_from};
use std::alloc::Global;

/// Whether the rows left are well formed under the directive that a program left: their entry and words, or their
/// fault.
///
/// The rows of a fault and of the entry count from the first row left; `orders` is the cost of `resume`.
pub fn check_rest(alloc: Global, machine: &Machine) -> Result<Checked, TapeFault>
    requires returned { IsReturned machine.now }
    requires rows { length machine.now.tape ≤ 2 ^ 32 }
    ensures answers { AnswersCheck machine.now.size machine.now.store.words
        (reopening machine.now) 2 machine.now.tape result }
    ensures bound { IfOk result (λ c. c.orders ≤ 17 * c.rows + 2) }
{
    check_from(
        alloc,
        machine.size(),
        machine.store(),
        directive(machine),
        machine.rows_left(),
    )
}

/// Obeys the Initial Orders from a return until they enter the next program of the tape.
///
/// It is lost if an order before that prints, stops or cannot be obeyed, or after 17 orders for each row left and 2
/// more; never if the rows left are well formed.
pub fn resume(machine: &mut Machine) -> Loaded
    requires returned { IsReturned machine.old }
    requires room { machine.old.orders + (17 * length machine.old.tape + 2) ≤ 2 ^ 63 }
    ensures ends { EndsAs machine.old (17 * length machine.old.tape + 2) result }
    ensures state { machine.new ≡ state_after (orders_of result) machine.old }
    ensures loads { (e : TapeEntry) → ReachesNextEntry machine.old e → IsLoaded machine.old e result machine.new }
    ensures total { IsRestWellFormed machine.old →
        (e : TapeEntry) × ReachesNextEntry machine.old e × IsLoaded machine.old e result machine.new }
{
    let rows = machine.rows_left().len() as u64;
    // Called only for its clause `store`: the proof needs that the store has all its words within their bounds.
    let _ = machine.word(0);
    obey_orders(machine, 17 * rows + 2)
}
