ghost use Rattle.std.specs.Prelude.{◌≡◌, ℕ, ◌+◌, ◌-◌, ◌^◌, ◌<◌, ◌≤◌, ◌⊎◌, false, length, nat_le, true};
ghost use Rattle.ed_machine.specs.OrderTable.{obey, step};
ghost use Rattle.ed_machine.specs.State.{State};
ghost use Rattle.ed_run.specs.Laws.{RunLaw};
ghost use Rattle.ed_run.specs.Run.{RunLeaves, IsRun, prints, run_end};

use ed_machine::{Ending, Machine, Paper, Turn};
use ed_orders::{Kind, kind_of};

/// Obeys orders until the run ends, and pushes each printed code onto the paper.
///
/// A Z uses up one resume and the run goes on; if no resume is left, the answer is `Stopped`. Otherwise, before each
/// order: `Limit` if this call has obeyed `limit` orders; `NoOrder` and `NoTape` as in `Machine::step`; `PaperFull` if
/// the order is O and the paper has no room left.
#[inline(always)]
pub fn run(machine: &mut Machine, limit: u64, resumes: u32, paper: &mut Paper) -> Ending
    requires { machine.old.orders + limit ≤ 2 ^ 63 }
    ensures ends { IsRun limit resumes machine.old paper.old result machine.new paper.new }
    ensures run_end { RunLeaves (run_end limit resumes (paper.old.room - length paper.old.codes) machine.old) paper.old result
        machine.new paper.new }
    ensures law { RunLaw }
{
    run_orders(machine, limit, resumes, paper)
}

/// Obeys orders until the run ends, in batches that the paper has room for: only if the paper is full is an order looked
/// at before it is obeyed.
#[inline(always)]
fn run_orders(machine: &mut Machine, limit: u64, resumes: u32, paper: &mut Paper) -> Ending
    requires { machine.old.orders + limit ≤ 2 ^ 63 }
    ensures { IsRun limit resumes machine.old paper.old result machine.new paper.new }
{
    let mut stops = 0u32;
    let end = machine.orders_done() + limit;
    while machine.orders_done() < end {
        let batch = batch(machine, end - machine.orders_done(), paper);
        if batch == 0 {
            return Ending::PaperFull;
        }
        let batch_end = machine.orders_done() + batch;
        while machine.orders_done() < batch_end {
            match machine.step() {
                Turn::Went => {}
                Turn::Printed(code) => paper.push_reserved(code),
                Turn::Stopped => {
                    if stops == resumes {
                        return Ending::Stopped;
                    }
                    stops += 1;
                }
                Turn::NoOrder(_) => return Ending::NoOrder,
                Turn::NoTape => return Ending::NoTape,
            }
        }
    }
    Ending::Limit
}

/// A number of orders, at most `most`, whose codes the paper has room for; 0 if the next order prints and the paper has
/// no room left.
#[inline(always)]
fn batch(machine: &Machine, most: u64, paper: &Paper) -> u64
    requires { 0 < most }
    ensures most { result ≤ most }
    ensures none { result ≡ 0 → (nat_le paper.now.room (length paper.now.codes) ≡ true)
        × (prints (step machine.now).turn ≡ true) }
    ensures room { (result ≤ paper.now.room - length paper.now.codes)
        ⊎ ((result ≡ 1) × (prints (step machine.now).turn ≡ false)) }
{
    let room = paper.room_left();
    if room > 0 {
        most.min(room as u64)
    } else if prints_next(machine) {
        0
    } else {
        1
    }
}

/// Whether the word at the counter is an order that prints.
#[tactic(auto, unfolding(ed_machine::specs::OrderTable::step))]
fn prints_next(machine: &Machine) -> bool
    ensures { result ≡ prints (step machine.now).turn }
{
    let word = machine.word(machine.counter());
    matches!(kind_of(word.order().function), Some(Kind::O))
}
