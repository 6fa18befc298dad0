ghost use Rattle.std.specs.Prelude.{◌≡◌, ◌+◌, ◌*◌, ◌%◌, ◌≤◌, ◌^◌, IfOk, false, length, replicate};
ghost use Rattle.ed_notation.specs.Openings.{IsDirective, opening, opening_with};
ghost use Rattle.ed_notation.specs.Reading.{ReadingAlwaysIsRules};
ghost use Rattle.ed_notation.specs.Checks.{AnswersCheck, ContentIsMapOrStore, ReadsCopy};

use crate::cause::{TapeCause, TapeFault};
use crate::checked::Checked;
use crate::reader::{DirectiveState, PartialItem, Reached, RowEffect, take};
use ed_codes::Code;
use ed_store::{LOCATIONS, Store};
use ed_words::{Size, Word};
use std::alloc::Global;

/// The word of T 44 F, the directive that the Initial Orders begin with.
pub const FIRST_DIRECTIVE: u32 = 20568;

/// The location of θ in a store.
const THETA: u16 = 42;

/// Whether a whole tape is well formed from a store, for a machine of this size: its entry and words, or its fault.
pub fn check(alloc: Global, size: Size, store: &Store, rows: &[Code]) -> Result<Checked, TapeFault>
    requires { length rows.now ≤ 2 ^ 32 }
    ensures answers { AnswersCheck size store.now.words (opening store.now.words) 9 rows.now result }
    ensures bound { IfOk result (λ c. c.orders ≤ 17 * c.rows + 9) }
    ensures program { ReadingAlwaysIsRules }
    ensures contents { ContentIsMapOrStore }
{
    let directive = Word::of_number(FIRST_DIRECTIVE);
    check_opened(alloc, size, store, directive, 9, rows)
}

/// Whether the rest of a tape is well formed from a store, when read on under the directive that a program left.
pub fn check_from(
    alloc: Global,
    size: Size,
    store: &Store,
    directive: Word,
    rows: &[Code],
) -> Result<Checked, TapeFault>
    requires even { directive % 2 ≡ 0 }
    requires least { 20480 ≤ directive }
    requires most { directive ≤ 22526 }
    requires rows { length rows.now ≤ 2 ^ 32 }
    ensures answers { AnswersCheck size store.now.words (opening_with directive store.now.words) 2 rows.now result }
    ensures bound { IfOk result (λ c. c.orders ≤ 17 * c.rows + 2) }
{
    check_opened(alloc, size, store, directive, 2, rows)
}

/// Whether rows are well formed from a store and a directive. `base` orders come before the first row.
fn check_opened(
    alloc: Global,
    size: Size,
    store: &Store,
    directive: Word,
    base: u64,
    rows: &[Code],
) -> Result<Checked, TapeFault>
    requires directive { IsDirective directive }
    requires base { base ≤ 9 }
    requires rows { length rows.now ≤ 2 ^ 32 }
    ensures answers { AnswersCheck size store.now.words (opening_with directive store.now.words) base rows.now result }
    ensures bound { IfOk result (λ c. c.orders ≤ 17 * c.rows + base) }
{
    let mut contents = store.copy()?;
    let mut placed = vec![in alloc; false; LOCATIONS]?;
    let reached = read_rows(size, &mut contents, &mut placed, directive, base, rows)?;
    Ok(Checked::new(reached, contents, placed))
}

/// Reads the rows, and places words in a copy of the store.
fn read_rows(
    size: Size,
    contents: &mut Store,
    placed: &mut [bool],
    directive: Word,
    base: u64,
    rows: &[Code],
) -> Result<Reached, TapeFault>
    requires directive { IsDirective directive }
    requires base { base ≤ 9 }
    requires rows { length rows.now ≤ 2 ^ 32 }
    requires placed { placed.old ≡ replicate 1024 false }
    ensures { ReadsCopy size contents.old.words directive base rows.now result contents.new.words placed.new }
{
    let mut setting = DirectiveState {
        directive,
        theta: contents.short(THETA),
    };
    let mut orders = base;
    let mut item: Option<PartialItem> = None;
    for (row, code) in rows.iter().enumerate() {
        match item {
            None => {
                item = Some(PartialItem::begun(*code));
                orders += 6;
            }
            Some(part) => match take(size, &*contents, &setting, &part, *code) {
                RowEffect::Refused(cause) => return Err(TapeFault::At { row, cause }),
                RowEffect::Longer(longer, more) => {
                    item = Some(longer);
                    orders += more;
                }
                RowEffect::Ended(next, more) => {
                    setting = next;
                    item = None;
                    orders += more;
                }
                RowEffect::Placed(at, word) => {
                    contents.put_short(at, word);
                    placed[usize::from(at)] = true;
                    setting = setting.moved_on();
                    item = None;
                    orders += 17;
                }
                RowEffect::Entered(entry) => {
                    return Ok(Reached {
                        entry,
                        orders: orders + 13,
                        rows: row + 1,
                        theta: setting.theta,
                    });
                }
            },
        }
    }
    Err(TapeFault::At {
        row: rows.len(),
        cause: TapeCause::EndOfTape,
    })
}
