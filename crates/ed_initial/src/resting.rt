ghost use Rattle.std.specs.Prelude.{◌≡◌, ℕ, ◌+◌, ◌∷◌, ◌^◌, ◌<◌, ◌≤◌, List};
ghost use Rattle.ed_machine.specs.State.{State};
ghost use Rattle.ed_machine.specs.Steps.{state_after};
ghost use Rattle.ed_notation.specs.declared.reader.PartialItem.{PartialItem};
ghost use Rattle.ed_notation.specs.Items.{Begun, IsBegun, row_kind};
ghost use Rattle.ed_notation.specs.Fold.{NotationState, over};
ghost use Rattle.ed_notation.specs.Openings.{opening};
ghost use Rattle.ed_notation.specs.Reading.{part_of, setting_of, row_effect};
ghost use Rattle.ed_initial.specs.Entry.{IsStarted};
ghost use Rattle.ed_initial.specs.Rests.{IsNotationState, IsPartSoFar, Scratch, rest34, rest9};
ghost use Rattle.ed_initial.specs.Walks.{BeginsWalk, BreaksNone, Between, DoesItemRow, DoesRow};
ghost use Rattle.ed_initial.specs.Walks.{Inside, WalkEnds, is_rest, part_so_far, walk_orders};

use crate::turns::is_entering;
use ed_machine::{Machine, Turn};

/// How a walk to the next rest ended.
#[derive(Clone, Copy)]
pub enum Rested {
    /// The program was entered.
    Entered {
        /// The location of its first order.
        at: u16,
        /// The number of orders obeyed.
        orders: u64,
    },
    /// The machine rests.
    At {
        /// 34 between two items, and 9 inside one.
        place: u16,
        /// The number of orders obeyed.
        orders: u64,
    },
    /// The walk went wrong.
    Lost {
        /// The number of orders obeyed.
        orders: u64,
    },
}

/// Obeys orders up to the next rest of the Initial Orders; they reach one with each row of a well-formed tape.
///
/// The tests after each order are, in this order: `Entered` if an E order at 22 jumped, `At` if the counter is 9 or 34,
/// and `Lost` if the order printed or stopped, or was the seventeenth. An order that cannot be obeyed ends the walk as
/// `Lost` too.
pub fn to_rest(machine: &mut Machine) -> Rested
    requires begins { BeginsWalk machine.old }
    requires room { machine.old.orders + 17 ≤ 2 ^ 63 }
    ensures ends { WalkEnds machine.old result }
    ensures state { machine.new ≡ state_after (walk_orders result) machine.old }
    ensures start { IsStarted machine.old →
        Between machine.old (opening machine.old.store.words) machine.old.tape 9 result machine.new }
    ensures function { (o : State) (w : Scratch) (notation : NotationState) (c : ℕ) (rows : List ℕ) → IsNotationState notation → c < 32 →
        o.tape ≡ c ∷ rows → machine.old ≡ rest34 w notation o → Inside o notation (part_of c) rows 6 result machine.new }
    ensures row { (o : State) (part : PartialItem) (at1 at20 : ℕ) (notation : NotationState) (c : ℕ) (rows : List ℕ) → IsNotationState notation
        → IsPartSoFar part →
        o.tape ≡ c ∷ rows → machine.old ≡ rest9 part at1 at20 notation o →
        DoesRow o notation part c rows result machine.new
        (row_effect o.size (row_kind c) (over notation.placed o.store.words) (setting_of notation) part c) }
    ensures item { (o : State) (b : Begun) (at1 at20 : ℕ) (notation : NotationState) (c : ℕ) (rows : List ℕ) → IsNotationState notation
        → IsBegun b → BreaksNone o.size o.store.words notation b c → o.tape ≡ c ∷ rows
        → machine.old ≡ rest9 (part_so_far b) at1 at20 notation o → DoesItemRow o notation b c rows result machine.new }
{
    // Called only for its clause `store`: the proof needs that the store has all its words within their bounds.
    let _ = machine.word(0);
    walk(machine)
}

/// Obeys at most 17 orders, up to the next rest.
fn walk(machine: &mut Machine) -> Rested
    requires { machine.old.orders + 17 ≤ 2 ^ 63 }
    ensures ends { WalkEnds machine.old result }
    ensures state { machine.new ≡ state_after (walk_orders result) machine.old }
{
    for orders in 0..17 {
        let enters = is_entering(machine);
        let turn = machine.step();
        if let Turn::NoOrder(_) | Turn::NoTape = turn {
            return Rested::Lost { orders };
        }
        let place = machine.counter();
        let orders = orders + 1;
        if enters {
            return Rested::Entered { at: place, orders };
        }
        if is_rest(place) {
            return Rested::At { place, orders };
        }
        if let Turn::Printed(_) | Turn::Stopped = turn {
            return Rested::Lost { orders };
        }
    }
    Rested::Lost { orders: 17 }
}

/// Whether a location is that of a rest.
fn is_rest(place: u16) -> bool
    ensures { result ≡ is_rest place }
{
    place == 9 || place == 34
}
