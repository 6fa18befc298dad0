ghost use Rattle.std.specs.Prelude.{◌≡◌, ◌≤◌, ◌+◌, ◌-◌, ◌%◌, ◌^◌, length};
ghost use Rattle.ed_words.specs.Sizes.{locations};
ghost use Rattle.ed_checker.specs.Checker.{CheckerStands, IsAllowed, guest};
ghost use Rattle.ed_checker.specs.Contract.{ChecksOne};
ghost use Rattle.ed_checker.specs.Laws.{CheckerLaw};

use crate::guest::{is_stop, turn_orders};
use ed_machine::{Ending, Machine, Paper};
use ed_run::run;

/// What one turn of the routine did, and the number of orders that the machine obeyed.
#[derive(Clone, Copy)]
pub enum Checking {
    /// The guest obeyed an order other than Z.
    Went { orders: u64 },
    /// The guest obeyed a Z.
    Stopped { orders: u64 },
    /// The guest's order can't be obeyed, and the machine is blocked at it.
    Blocked { orders: u64 },
}

/// Obeys the orders of one turn of the routine at `base`: it prints the function of the guest's next order, and obeys
/// that order.
pub fn check_one(machine: &mut Machine, base: u16, paper: &mut Paper) -> Checking
    requires even { base % 2 ≡ 0 }
    requires fits { base + 66 ≤ locations machine.old.size }
    requires stands { CheckerStands base machine.old }
    requires allowed { IsAllowed base (guest base machine.old) }
    requires room { 2 ≤ paper.old.room - length paper.old.codes }
    requires orders { machine.old.orders + 35 ≤ 2 ^ 63 }
    ensures turn { ChecksOne base machine.old machine.new paper.old paper.new result }
    ensures law { CheckerLaw }
{
    // Called only for its clause `store`: the proof needs that the store has all its words within their bounds.
    let _ = machine.word(0);
    let stops = is_stop(machine, base);
    let orders = turn_orders(machine, base);
    match run(machine, orders, 1, paper) {
        Ending::NoOrder | Ending::NoTape => Checking::Blocked {
            orders: orders - 17,
        },
        _ => {
            if stops {
                Checking::Stopped { orders }
            } else {
                Checking::Went { orders }
            }
        }
    }
}
