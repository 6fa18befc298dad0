ghost use Rattle.std.specs.Prelude.{◌≡◌, ◌+◌, ◌*◌, ◌^◌, ◌≤◌, length};
ghost use Rattle.ed_machine.specs.Steps.{state_after};
ghost use Rattle.ed_initial1.specs.Faults.{Tape, ReachesEntry1, WellFormed1};
ghost use Rattle.ed_initial1.specs.Entry.{IsStarted1, IsLoaded1};
ghost use Rattle.ed_initial1.specs.Load.{EndsAs1, orders_of1};
ghost use Rattle.ed_initial1.specs.Waits.{WaitsForRows1};

use ed_machine::{Machine, Turn};

/// Where the program begins.
const ENTRY: u16 = 31;

/// How a load by Initial Orders 1 ended.
#[derive(Clone, Copy)]
pub enum Loaded1 {
    /// The counter reached 31, where the program begins.
    Entered {
        /// The number of orders obeyed.
        orders: u64,
    },
    /// The load went wrong; that happens only on a tape with a fault.
    Lost {
        /// The number of orders obeyed.
        orders: u64,
    },
}

/// Obeys Initial Orders 1 until they enter the program of the tape at 31.
///
/// It is lost if an order before that prints, stops or cannot be obeyed, or after 14 orders for each row of tape and 4
/// more.
pub fn load1(machine: &mut Machine) -> Loaded1
    requires started { IsStarted1 machine.old }
    requires room { machine.old.orders + (14 * length machine.old.tape + 4) ≤ 2 ^ 63 }
    ensures ends { EndsAs1 machine.old (14 * length machine.old.tape + 4) result }
    ensures state { machine.new ≡ state_after (orders_of1 result) machine.old }
    ensures loads { (t : Tape) → ReachesEntry1 machine.old.tape t → IsLoaded1 machine.old t result machine.new }
    ensures total { WellFormed1 machine.old.tape → (t : Tape) × ReachesEntry1 machine.old.tape t
        × IsLoaded1 machine.old t result machine.new }
    ensures waits { WaitsForRows1 machine.old }
{
    let rows = machine.rows_left().len() as u64;
    // Called only for its clause `store`: the proof needs that the store has all its words within their bounds.
    let _ = machine.word(0);
    obey_orders(machine, 14 * rows + 4)
}

/// Obeys at most `bound` orders, until the counter is 31 or the load is lost.
fn obey_orders(machine: &mut Machine, bound: u64) -> Loaded1
    requires { machine.old.orders + bound ≤ 2 ^ 63 }
    ensures ends { EndsAs1 machine.old bound result }
    ensures state { machine.new ≡ state_after (orders_of1 result) machine.old }
{
    for orders in 0..bound {
        let turn = machine.step();
        if let Turn::NoOrder(_) | Turn::NoTape = turn {
            return Loaded1::Lost { orders };
        }
        let orders = orders + 1;
        if machine.counter() == ENTRY {
            return Loaded1::Entered { orders };
        }
        if let Turn::Printed(_) | Turn::Stopped = turn {
            return Loaded1::Lost { orders };
        }
    }
    Loaded1::Lost { orders: bound }
}
