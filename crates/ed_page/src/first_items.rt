//! The items of a tape of May 1949: the rows that spell each, and the word that it places.

ghost use Rattle.std.specs.Prelude.{◌≡◌, ◌≤◌, IfOk, None, length, take};
ghost use Rattle.ed_page.specs.Answers.{IsTextWritten, text_buffers};
ghost use Rattle.ed_page.specs.Private.ItemTables.{table_on1};
ghost use Rattle.ed_page.specs.Private.Stages.{IsAnswered};
ghost use Rattle.ed_page.specs.TapeItems.{IsItemsOutcome1, items1_answer};
ghost use Rattle.ed_tapes.specs.declared.input.TheConstants.{INPUT_BYTES};

use crate::items::{OpenItem, REFUSED, push_numbers};
use crate::request::{Request, RowsRequest, write_answer};
use crate::writing::Lengths;
use ed_codes::{Code, letters};
use ed_initial1::{Tape1Fault, check1};
use ed_report::tape1_fault;
use ed_tapes::{Rejection, Reply};
use ed_words::NoMemory;
use std::alloc::Global;

/// The location of the first word of a tape.
const FIRST_LOCATION: u32 = 31;

/// Writes the table of the items of a tape's text for the Initial Orders of May 1949, as `page_items` does for the others.
#[unsafe(no_mangle)]
pub extern "C" fn page_items1(
    alloc: Global,
    text: &[u8],
    items: &mut [u8],
    note: &mut [u8],
    lengths: &mut Lengths,
) -> u32
    ensures { IsTextWritten items1_answer text.now (text_buffers items.old note.old lengths.old)
        (text_buffers items.new note.new lengths.new) result }
{
    let request = Request::Tape(RowsRequest::Items1);
    write_answer(alloc, request, text, items, note, lengths)
}

/// What is answered about the items of rows.
pub fn row_items1(alloc: Global, rows: &[Code]) -> Result<Reply, Rejection>
    requires { length rows.now ≤ INPUT_BYTES }
    ensures { IsAnswered IsItemsOutcome1 rows.now result }
{
    match check1(alloc, rows) {
        Ok(checked) => Ok(Reply::done(alloc, item_table1(alloc, rows, checked.rows())?)),
        Err(Tape1Fault::At { row, cause }) => {
            let note = tape1_fault(alloc, &Tape1Fault::At { row, cause })?;
            let out = item_table1(alloc, rows, row)?;
            Err(Rejection::Refused(Reply {
                out,
                note,
                status: REFUSED,
            }))
        }
        Err(Tape1Fault::Memory) => Err(Rejection::Memory),
    }
}

/// The table of the items that the first rows spell.
fn item_table1(alloc: Global, rows: &[Code], count: usize) -> Result<Vec<u8>, NoMemory>
    requires few { length rows.now ≤ INPUT_BYTES }
    requires count { count ≤ length rows.now }
    ensures { IfOk result (λ table. table.items ≡ table_on1 0 31 None (take count rows.now)) }
{
    let mut location = FIRST_LOCATION;
    let mut part: Option<OpenItem> = None;
    let mut table = Vec::new(alloc);
    let read = &rows[..count];
    for (row, code) in read.iter().enumerate() {
        part = match part {
            None => Some(OpenItem::at(row as u32, *code)),
            Some(item) => {
                if code.value() < 10 {
                    Some(item.with_digit(code.value()))
                } else {
                    let sum = item.sum() + u64::from(code.value() == letters::L);
                    let word = (sum % (1 << 17)) as u32;
                    let line = [item.first, row as u32 + 1, location, word];
                    push_numbers(&mut table, &line)?;
                    location += 1;
                    None
                }
            }
        };
    }
    Ok(table)
}
