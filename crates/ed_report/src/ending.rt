ghost use Rattle.std.specs.Prelude.{◌≡◌, ◌++◌, IfOk};
ghost use Rattle.ed_report.specs.Notes.{ending_line, entry_note};

use crate::text::{bytes_of_text, location_after};
use ed_machine::{Ending, Machine};
use ed_orders::order_text;
use ed_words::NoMemory;
use std::alloc::Global;

/// The line that reports how a run ended, with the counter and the count of orders of the machine after it. For
/// `NoOrder` it ends with the text of the word at the counter.
#[tactic(auto, using(ed_words::proofs::SizeLemmas::locations_most))]
pub fn ending_text(alloc: Global, ending: Ending, machine: &Machine) -> Result<Vec<u8>, NoMemory>
    ensures { IfOk result (λ bytes. bytes.items ≡ ending_line ending machine.now) }
{
    let name = match ending {
        Ending::Stopped => "stopped at",
        Ending::Limit => "limit at",
        Ending::NoOrder => return no_order_line(alloc, machine),
        Ending::NoTape => "no tape at",
        Ending::PaperFull => "paper full at",
    };
    location_after(alloc, name, machine.counter(), machine.orders_done(), "\n")
}

/// The same line after `entered E after N orders, `, for a run that entered its program at `entry` after `cost` orders.
pub fn entered_text(
    alloc: Global,
    entry: u16,
    cost: u64,
    ending: Ending,
    machine: &Machine,
) -> Result<Vec<u8>, NoMemory>
    ensures { IfOk result (λ bytes. bytes.items ≡ entry_note entry cost ++ ending_line ending machine.now) }
{
    let mut text = location_after(alloc, "entered", entry, cost, " orders, ")?;
    let line = ending_text(alloc, ending, machine)?;
    text.extend_from_slice(&line)?;
    Ok(text)
}

/// The line of a run that reached a word that is not an order.
fn no_order_line(alloc: Global, machine: &Machine) -> Result<Vec<u8>, NoMemory>
    ensures { IfOk result (λ bytes. bytes.items ≡ ending_line Ending.NoOrder machine.now) }
{
    let counter = machine.counter();
    let orders = machine.orders_done();
    let order = order_text(machine.word(counter));
    let text = order.as_str();
    bytes_of_text(format!(in alloc; "no order at {counter} after {orders}: {text}\n"))
}
