ghost use Rattle.std.specs.Prelude.{◌≡◌, ◌+◌, ◌≤◌, ◌^◌, ℕ, Some, None, suc, true, false};
ghost use Rattle.ed_initial.specs.Load.{enters};
ghost use Rattle.ed_machine.specs.State.{State};
ghost use Rattle.ed_machine.specs.Steps.{AreObeyed, state_after};
ghost use Rattle.ed_stepper.specs.MoveEnds.{Ends, own_end};
ghost use Rattle.ed_stepper.specs.declared.moves.MoveEnd.TheVariants.{Went};
ghost use Rattle.ed_stepper.specs.Kept.{AreCheckpoints};

use crate::checkpoints::{Checkpoint, save};
use crate::moves::{MoveEnd, MoveTarget};
use ed_initial::is_entering;
use ed_machine::{Machine, Turn};

/// The number of orders that a walk obeyed, and how it ended.
#[derive(Clone, Copy)]
pub(crate) struct Walked {
    pub(crate) orders: u64,
    pub(crate) end: MoveEnd,
}

/// Obeys at most `left` orders, until a move ends; `from` orders were obeyed before. Copies of the machine are kept on
/// the way.
pub(crate) fn walk(
    machine: &mut Machine,
    checkpoints: &mut Vec<Checkpoint>,
    from: u64,
    aim: MoveTarget,
    left: u64,
) -> Walked
    requires orders { machine.old.orders + left ≤ 2 ^ 63 }
    requires done { from + left ≤ 2 ^ 63 }
    ensures ends { Ends aim left machine.old result.orders result.end }
    ensures state { machine.new ≡ state_after result.orders machine.old }
    ensures free { AreObeyed result.orders machine.old }
    ensures most { result.orders ≤ left }
    ensures count { machine.new.orders ≤ machine.old.orders + result.orders }
    ensures checkpoints { (start : State) → machine.old ≡ state_after from start → machine.old.orders ≤ start.orders + from
        → AreCheckpoints start checkpoints.old.items → AreCheckpoints start checkpoints.new.items }
{
    if let MoveTarget::Orders(0) = aim {
        return Walked {
            orders: 0,
            end: MoveEnd::Went,
        };
    }
    for orders in 0..left {
        let entered = is_entering(machine);
        match machine.step() {
            Turn::Went | Turn::Printed(_) => {}
            Turn::Stopped => {
                return Walked {
                    orders: orders + 1,
                    end: MoveEnd::Stopped,
                };
            }
            Turn::NoOrder(_) => {
                return Walked {
                    orders,
                    end: MoveEnd::NoOrder,
                };
            }
            Turn::NoTape => {
                return Walked {
                    orders,
                    end: MoveEnd::NoTape,
                };
            }
        }
        save(checkpoints, machine, from + orders + 1);
        if let Some(end) = own_end(&aim, orders + 1, machine.counter(), entered) {
            return Walked {
                orders: orders + 1,
                end,
            };
        }
    }
    Walked {
        orders: left,
        end: MoveEnd::Limit,
    }
}

/// A move's own end after at least one order, if it has been reached.
fn own_end(aim: &MoveTarget, orders: u64, at: u16, entered: bool) -> Option<MoveEnd>
    ensures { (s : State) (k : ℕ) → orders ≡ suc k → at ≡ (state_after orders s).counter
        → entered ≡ enters (state_after k s)
        → result ≡ own_end aim.now orders s }
{
    match aim {
        MoveTarget::Orders(n) => (*n == orders).then_some(MoveEnd::Went),
        MoveTarget::Address(a) => (*a == at).then_some(MoveEnd::There),
        MoveTarget::Entry => entered.then_some(MoveEnd::Entered),
    }
}
