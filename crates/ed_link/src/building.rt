//! What is built from the lines of a source, one line after the other.
ghost use Rattle.std.specs.Prelude.{◌≡◌, ◌≤◌, ◌<◌, ◌^◌, ◌+◌, ◌++◌, ◌∷◌, ◌||◌, None, Some, [], IfOk, OnOk};
ghost use Rattle.std.specs.Prelude.{is_some, length, true, unwrap_or, ℕ};
ghost use Rattle.ed_library.specs.Routines.{find};
ghost use Rattle.ed_link.specs.Private.Building.{BuildIs, IsFew};
ghost use Rattle.ed_link.specs.FaultTests.{is_enter, reach, word_extent};
ghost use Rattle.ed_link.specs.Linked.{entered_place, placed_by_line, data_rows};
ghost use Rattle.ed_link.specs.Punch.{items_of, routine_items};
ghost use Rattle.ed_link.specs.Tables.{empty_table, put_all};

use crate::faults::{Extent, cause_of, extent_of};
use crate::punching::{entry_of, push_line};
use crate::words::put_line;
use ed_codes::Code;
use ed_library::find;
use ed_lines::{Line, Name, SourceFault, Statement};
use ed_notation::Item;
use ed_symbols::{Definition, LocationCounter};
use ed_words::{NoMemory, Size, Word};
use std::alloc::Global;

/// What has been built from the lines so far.
#[derive(Drop)]
pub(crate) struct Built {
    pub(crate) items: Vec<Item>,
    /// The words by their locations.
    pub(crate) table: Vec<Option<Word>>,
    pub(crate) entry: Option<u16>,
    pub(crate) after: Vec<Code>,
    /// The extents of the lines' words.
    pub(crate) extents: Vec<Extent>,
}

/// The entry after one more line: that of an `enter`, or the one before the line. No `enter` comes after another.
fn entry_after(
    entry: Option<u16>,
    symbols: &[Definition],
    statement: &Option<Statement>,
) -> Option<u16>
    requires first { is_enter statement.now ≡ true → entry ≡ None }
    requires fits { entered_place symbols.now statement.now 0 ≤ 32767 }
    ensures is { (later : ℕ) → unwrap_or result later ≡ unwrap_or entry (entered_place symbols.now statement.now later) }
    ensures some { is_some result ≡ (is_some entry || is_enter statement.now) }
{
    match statement {
        Some(Statement::Enter { name }) => Some(entry_of(symbols, name)),
        _ => entry,
    }
}

/// Adds the rows that a line puts after the program.
fn push_rows(after: &mut Vec<Code>, statement: &Option<Statement>) -> Result<(), NoMemory>
    ensures rows { OnOk result (after.new.items ≡ after.old.items ++ data_rows statement.now) }
    ensures few { OnOk result (length (data_rows statement.now) ≤ 120) }
{
    match statement {
        Some(Statement::Rows { codes }) => Ok(after.extend_from_slice(codes)?),
        _ => Ok(()),
    }
}

/// Adds what one more line gives.
fn add_line(
    built: &mut Built,
    symbols: &[Definition],
    counter: LocationCounter,
    statement: &Option<Statement>,
) -> Result<(), NoMemory>
    requires table { length built.old.table.items ≡ 1024 }
    requires place { counter.place ≤ 2 ^ 30 }
    requires segments { counter.segments ≤ 2000 }
    requires base { counter.base ≤ counter.place }
    requires fits { (reach symbols.now statement.now counter).from < (reach symbols.now statement.now counter).after
        → (reach symbols.now statement.now counter).after ≤ 1024 }
    requires first { is_enter statement.now ≡ true → built.old.entry ≡ None }
    ensures items { OnOk result
        (built.new.items.items ≡ built.old.items.items ++ items_of symbols.now counter statement.now) }
    ensures table { OnOk result
        (built.new.table.items ≡ put_all built.old.table.items (placed_by_line symbols.now counter statement.now)) }
    ensures after { OnOk result (built.new.after.items ≡ built.old.after.items ++ data_rows statement.now) }
    ensures entry { OnOk result ((later : ℕ)
        → unwrap_or built.new.entry later ≡ unwrap_or built.old.entry (entered_place symbols.now statement.now later)) }
    ensures entered { OnOk result
        (is_some built.new.entry ≡ (is_some built.old.entry || is_enter statement.now)) }
    ensures few_items { OnOk result (IsFew statement.now) }
    ensures few_rows { OnOk result (length (data_rows statement.now) ≤ 120) }
    ensures extents { OnOk result
        (built.new.extents.items ≡ built.old.extents.items ++ word_extent statement.now counter ∷ []) }
{
    built.entry = entry_after(built.entry, symbols, statement);
    built.extents.push(extent_of(statement, counter))?;
    push_rows(&mut built.after, statement)?;
    put_line(&mut built.table, symbols, counter, statement);
    push_line(&mut built.items, symbols, counter, statement)
}

/// Before the first line.
fn start(alloc: Global) -> Result<Built, NoMemory>
    ensures { IfOk result (λ b. (b.items.items ≡ []) × (b.table.items ≡ empty_table) × (b.entry ≡ None)
        × (b.after.items ≡ []) × (b.extents.items ≡ [])) }
{
    let table = vec![in alloc; None; 1024]?;
    Ok(Built {
        items: Vec::new(alloc),
        table,
        entry: None,
        after: Vec::new(alloc),
        extents: Vec::new(alloc),
    })
}

/// What the lines give, or the first of their faults S9 to S17.
pub(crate) fn build(
    alloc: Global,
    size: Size,
    symbols: &[Definition],
    has_enter: bool,
    lines: &[Line],
) -> Result<Built, SourceFault>
    requires { length lines.now ≤ 2000 }
    ensures { BuildIs size symbols.now has_enter lines.now result }
{
    let mut built = start(alloc)?;
    let mut counter = LocationCounter::first();
    for line in lines {
        if let Some(cause) = cause_of(size, symbols, has_enter, &built, line, counter) {
            return Err(SourceFault::At {
                line: line.number,
                cause,
            });
        }
        add_line(&mut built, symbols, counter, &line.statement)?;
        counter = counter.after_statement(&line.statement);
    }
    Ok(built)
}
