ghost use Rattle.std.specs.Prelude.{◌≡◌, ◌+◌, ◌≤◌, ◌<◌, ◌^◌, IfOk, IfSome, length, slice_index_or};
ghost use Rattle.ed_machine.specs.State.{State};
ghost use Rattle.ed_machine.specs.Steps.{state_after};
ghost use Rattle.ed_stepper.specs.Kept.{AreCheckpoints};
ghost use Rattle.ed_stepper.specs.declared.checkpoints.Checkpoint.{Checkpoint};

use ed_machine::Machine;
use ed_words::NoMemory;

/// The number of orders between two copies.
pub(crate) const BETWEEN: u64 = 65_536;

/// A copy of the machine, and the number of orders obeyed by then.
#[derive(Drop)]
pub(crate) struct Checkpoint {
    pub(crate) done: u64,
    pub(crate) machine: Machine,
}

/// Keeps a copy of the machine if the number of orders obeyed is a multiple of 65,536 and past the last copy. If no
/// memory is found, no copy is kept.
pub(crate) fn save(checkpoints: &mut Vec<Checkpoint>, machine: &Machine, done: u64)
    ensures { (start : State) → machine.now ≡ state_after done start → machine.now.orders ≤ start.orders + done
        → AreCheckpoints start checkpoints.old.items → AreCheckpoints start checkpoints.new.items }
{
    let is_past = match checkpoints.last() {
        Some(checkpoint) => checkpoint.done < done,
        None => true,
    };
    if done % BETWEEN == 0 && is_past {
        if let Ok(machine) = machine.copy() {
            let _ = checkpoints.push(Checkpoint { done, machine });
        }
    }
}

/// The index of the latest copy that was made after at most `aim` orders.
pub(crate) fn latest(checkpoints: &[Checkpoint], aim: u64) -> Option<usize>
    ensures { IfSome result (λ i. (i < length checkpoints.now) × ((d : Checkpoint) → (slice_index_or checkpoints.now i d).done ≤ aim)) }
{
    let mut found: Option<usize> = None;
    let mut done = 0;
    for (place, checkpoint) in checkpoints.iter().enumerate() {
        if checkpoint.done <= aim && done <= checkpoint.done {
            found = Some(place);
            done = checkpoint.done;
        }
    }
    found
}

/// The machine `orders` orders after this one.
pub(crate) fn replay(machine: &Machine, orders: u64) -> Result<Machine, NoMemory>
    requires { machine.now.orders + orders ≤ 2 ^ 63 }
    ensures is { IfOk result (λ m. m ≡ state_after orders machine.now) }
    ensures count { IfOk result (λ m. m.orders ≤ machine.now.orders + orders) }
{
    let mut copy = machine.copy()?;
    copy.obey_next(orders);
    Ok(copy)
}
