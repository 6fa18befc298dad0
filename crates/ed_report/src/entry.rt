ghost use Rattle.std.specs.Prelude.{◌≡◌, IfOk};
ghost use Rattle.ed_report.specs.Entries.{entry_line, returned_line};

use crate::text::{bytes_of_text, location_after};
use ed_words::NoMemory;
use std::alloc::Global;

/// The line that reports where a tape is entered, and after how many orders and rows.
pub fn entry_text(alloc: Global, at: u16, orders: u64, rows: usize) -> Result<Vec<u8>, NoMemory>
    ensures { IfOk result (λ bytes. bytes.items ≡ entry_line at orders rows) }
{
    bytes_of_text(format!(in alloc; "entry {at} after {orders} orders, {rows} rows\n"))
}

/// The line that reports that a program returned to the Initial Orders: the address of its directive, and after how
/// many orders.
pub fn returned_text(alloc: Global, address: u16, orders: u64) -> Result<Vec<u8>, NoMemory>
    ensures { IfOk result (λ bytes. bytes.items ≡ returned_line address orders) }
{
    location_after(alloc, "returned for", address, orders, " orders\n")
}
