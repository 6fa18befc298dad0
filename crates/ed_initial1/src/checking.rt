ghost use Rattle.std.specs.Prelude.{◌≡◌, ◌+◌, ◌*◌, ◌%◌, ◌^◌, ◌<◌, ◌≤◌, if◌then◌else◌, length};
ghost use Rattle.ed_words.specs.Words.{digit};
ghost use Rattle.ed_initial1.specs.Checks.{Answers1, EachTapeHasOneVerdict};

use crate::cause::{Tape1Cause, Tape1Fault};
use crate::checked::Checked1;
use crate::reader::{PartialItem1, RowEffect1, begun, take};
use ed_codes::Code;
use ed_words::Word;
use std::alloc::Global;

/// Whether a tape of Initial Orders 1 is without a fault: its cost, rows and words, or its fault.
///
/// The law says that every tape has one of the two and never both, whether or not memory is found.
pub fn check1(alloc: Global, rows: &[Code]) -> Result<Checked1, Tape1Fault>
    requires { length rows.now ≤ 2 ^ 32 }
    ensures answers { Answers1 rows.now result }
    ensures law { EachTapeHasOneVerdict }
{
    read_rows(alloc, rows)
}

/// Reads the rows.
fn read_rows(alloc: Global, rows: &[Code]) -> Result<Checked1, Tape1Fault>
    requires { length rows.now ≤ 2 ^ 32 }
    ensures { Answers1 rows.now result }
{
    let mut words = Vec::new(alloc);
    let mut orders: u64 = 4;
    let mut end: u16 = 0;
    let mut item: Option<PartialItem1> = None;
    for (row, code) in rows.iter().enumerate() {
        let first = words.is_empty();
        match item {
            None => {
                item = Some(begun(*code));
                orders += 5;
            }
            Some(part) => match take(first, &part, *code) {
                RowEffect1::Refused(cause) => return Err(Tape1Fault::At { row, cause }),
                RowEffect1::Longer(number) => {
                    item = Some(PartialItem1 {
                        function: part.function,
                        number,
                    });
                    orders += 10;
                }
                RowEffect1::Ended(long) => {
                    end = end_behind(first, part.number, end);
                    words.push(word_of(&part, long))?;
                    orders += 14;
                    if 31 + words.len() == usize::from(end) {
                        return Ok(Checked1::new(orders, row + 1, end, words));
                    }
                    item = None;
                }
            },
        }
    }
    Err(Tape1Fault::At {
        row: rows.len(),
        cause: Tape1Cause::EndOfTape,
    })
}

/// The location after the last word, once an item with this number has ended: the first item names it.
fn end_behind(first: bool, number: u16, end: u16) -> u16
    ensures { result ≡ if first then number else end }
{
    if first { number } else { end }
}

/// The word of an item.
fn word_of(part: &PartialItem1, long: bool) -> Word
    requires { part.now.number ≤ 32767 }
    ensures { result ≡ (4096 * part.now.function + 2 * part.now.number + digit long) % 2 ^ 17 }
{
    let sum = 4096 * u32::from(part.function.value())
        + 2 * u32::from(part.number)
        + u32::from(long);
    Word::of_number(sum % (1 << 17))
}
