//! The result of linking a source.
ghost use Rattle.std.specs.Prelude.{◌≡◌, ◌≤◌, ◌+◌, ◌^◌, ◌++◌, true, length, IfOk, OnOk};
ghost use Rattle.std.specs.List.{flat_map, list_all};
ghost use Rattle.ed_codes.specs.Reading.{reading, rows};
ghost use Rattle.ed_codes.specs.Text.{Spells};
ghost use Rattle.ed_notation.specs.Spellings.{canonicals, is_spellable, item_rows, line_from, text_of, AreSpellable};
ghost use Rattle.ed_link.specs.Tapes.{after_text};

use ed_codes::{Code, byte_of};
use ed_lines::Name;
use ed_notation::{Item, rows_of_items, text_of_items};
use ed_words::{NoMemory, Word};

/// A word of the linked program and its location.
#[derive(Clone, Copy)]
pub struct Placed {
    pub place: u16,
    pub word: Word,
}

/// A name and its location.
#[derive(Clone, Copy)]
pub struct LabelPlace {
    pub name: Name,
    pub place: u16,
}

/// A linked program with its punched tape.
#[derive(Drop)]
pub struct Linked {
    /// The punched items; each can be spelled, and their rows and those after them are at most 2^22.
    pub items: Vec<Item>,
    /// The words of the linked program, in ascending order of location.
    pub words: Vec<Placed>,
    /// Where the program begins.
    pub entry: u16,
    /// The names that aren't local and stand for an address, with their locations, in the order of their definitions.
    pub labels: Vec<LabelPlace>,
    /// The rows of the tape after the program.
    pub after: Vec<Code>,
    ghost spellable: { list_all is_spellable items.items ≡ true },
    ghost few: { length (flat_map item_rows items.items) + length after.items ≤ 2 ^ 22 },
}

impl Linked {
    /// The rows of the tape: those of the items, then those after them.
    pub fn rows(&self) -> Result<Vec<Code>, NoMemory>
        ensures is { IfOk result (λ v. v.items ≡ flat_map item_rows self.now.items.items ++ self.now.after.items) }
        ensures few { IfOk result (λ v. length v.items ≤ 2 ^ 22) }
    {
        let mut rows = rows_of_items(*self.items.allocator(), &self.items)?;
        rows.extend_from_slice(&self.after)?;
        Ok(rows)
    }

    /// The text of the tape: a line for each item, and a line of the rows after them, if there are any. Its rows are
    /// those of `rows`.
    pub fn text(&self) -> Result<Vec<u8>, NoMemory>
        ensures is { IfOk result
            (λ v. v.items ≡ text_of (canonicals self.now.items.items) ++ after_text self.now.after.items) }
        ensures reads { IfOk result
            (λ v. reading v.items ≡ rows (flat_map item_rows self.now.items.items ++ self.now.after.items)) }
    {
        let mut text = text_of_items(*self.items.allocator(), &self.items)?;
        push_after(&mut text, &self.after)?;
        Ok(text)
    }
}

/// Adds a line of rows, if there are any.
fn push_after(text: &mut Vec<u8>, rows: &[Code]) -> Result<(), NoMemory>
    ensures is { OnOk result (text.new.items ≡ text.old.items ++ after_text rows.now) }
    ensures spells { OnOk result (Spells (after_text rows.now) rows.now) }
{
    if rows.is_empty() {
        return Ok(());
    }
    for row in rows {
        text.push(byte_of(*row, true))?;
    }
    Ok(text.push(b'\n')?)
}
