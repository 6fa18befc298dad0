ghost use Rattle.std.specs.Prelude.{◌≡◌, ◌+◌, ◌*◌, ◌^◌, ◌≤◌, length};
ghost use Rattle.ed_machine.specs.Steps.{state_after};
ghost use Rattle.ed_notation.specs.Faults.{TapeEntry, WellFormed};
ghost use Rattle.ed_notation.specs.Openings.{opening};
ghost use Rattle.ed_initial.specs.Entry.{IsStarted, ReachesEntry, IsLoaded};
ghost use Rattle.ed_initial.specs.Load.{EndsAs, orders_of};
ghost use Rattle.ed_initial.specs.Waits.{IsLostAtEnd, WaitsForRows};

use crate::turns::is_entering;
use ed_machine::{Machine, Turn};

/// How a load ended.
#[derive(Clone, Copy)]
pub enum Loaded {
    /// The program was entered.
    Entered {
        /// The location of its first order.
        at: u16,
        /// The number of orders obeyed, including the one that enters.
        orders: u64,
    },
    /// The load went wrong; that happens only on a tape that is not well formed.
    Lost {
        /// The number of orders obeyed.
        orders: u64,
    },
}

/// Obeys the Initial Orders until they enter the program of the tape.
///
/// It is lost if an order before that prints, stops or cannot be obeyed, or after 17 orders for each row of tape and 9
/// more.
pub fn load(machine: &mut Machine) -> Loaded
    requires started { IsStarted machine.old }
    requires room { machine.old.orders + (17 * length machine.old.tape + 9) ≤ 2 ^ 63 }
    ensures ends { EndsAs machine.old (17 * length machine.old.tape + 9) result }
    ensures state { machine.new ≡ state_after (orders_of result) machine.old }
    ensures loads { (e : TapeEntry) → ReachesEntry machine.old e → IsLoaded machine.old e result machine.new }
    ensures total { WellFormed machine.old.size machine.old.store.words (opening machine.old.store.words)
        machine.old.tape →
        (e : TapeEntry) × ReachesEntry machine.old e × IsLoaded machine.old e result machine.new }
    ensures waits { WaitsForRows machine.old }
    ensures no_tape { IsLostAtEnd machine.old result }
{
    let rows = machine.rows_left().len() as u64;
    // Called only for its clause `store`: the proof needs that the store has all its words within their bounds.
    let _ = machine.word(0);
    obey_orders(machine, 17 * rows + 9)
}

/// Obeys at most `bound` orders, until an E order at 22 jumps or the load is lost.
///
/// `load` is this call on a started machine; for any other machine it only reports how it ended.
pub fn obey_orders(machine: &mut Machine, bound: u64) -> Loaded
    requires { machine.old.orders + bound ≤ 2 ^ 63 }
    ensures ends { EndsAs machine.old bound result }
    ensures state { machine.new ≡ state_after (orders_of result) machine.old }
{
    for orders in 0..bound {
        let enters = is_entering(machine);
        let turn = machine.step();
        if let Turn::NoOrder(_) | Turn::NoTape = turn {
            return Loaded::Lost { orders };
        }
        let orders = orders + 1;
        if enters {
            return Loaded::Entered {
                at: machine.counter(),
                orders,
            };
        }
        if let Turn::Printed(_) | Turn::Stopped = turn {
            return Loaded::Lost { orders };
        }
    }
    Loaded::Lost { orders: bound }
}
