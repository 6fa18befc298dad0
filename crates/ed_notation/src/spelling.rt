ghost use Rattle.std.specs.Prelude.{◌≡◌, ◌++◌, IfOk, false, true, nat_lt};
ghost use Rattle.std.specs.List.{flat_map, list_all};
ghost use Rattle.ed_codes.specs.Reading.{reading, rows};
ghost use Rattle.ed_notation.specs.Items.{rows_of, spelled_rows};
ghost use Rattle.ed_notation.specs.Spellings.{AreSpellable, IsSpelling, NoSpellingBeginsAnother, canonical, canonicals};
ghost use Rattle.ed_notation.specs.Spellings.{digit_at, line_from, text_of};

use crate::item::Item;
use ed_codes::{Code, byte_of};
use ed_words::NoMemory;
use std::alloc::Global;

/// The powers of ten of a number's digits.
const POWERS_OF_TEN: [u16; 5] = [10000, 1000, 100, 10, 1];

/// The rows that spell these items one after the other, without leading zeros and without a digit row for 0.
pub fn rows_of_items(alloc: Global, items: &[Item]) -> Result<Vec<Code>, NoMemory>
    requires { AreSpellable items.now }
    ensures rows { IfOk result (λ v. v.items ≡ spelled_rows (canonicals items.now)) }
    ensures spelling { IfOk result (λ v. IsSpelling items.now v.items) }
    ensures law { NoSpellingBeginsAnother }
{
    let mut rows = Vec::new(alloc);
    for item in items {
        push_item(&mut rows, item)?;
    }
    Ok(rows)
}

/// The text of these items, a line for each: digit rows as digits, the other rows as letters or signs. Its rows are
/// those of `rows_of_items`.
pub fn text_of_items(alloc: Global, items: &[Item]) -> Result<Vec<u8>, NoMemory>
    requires { AreSpellable items.now }
    ensures text { IfOk result (λ v. v.items ≡ text_of (canonicals items.now)) }
    ensures reads { IfOk result (λ v. reading v.items ≡ rows (spelled_rows (canonicals items.now))) }
    ensures spelling { IsSpelling items.now (spelled_rows (canonicals items.now)) }
{
    let mut text = Vec::new(alloc);
    for item in items {
        let mut rows = Vec::new(alloc);
        push_item(&mut rows, item)?;
        push_line(&mut text, &rows)?;
    }
    Ok(text)
}

/// The line of an item's rows.
fn push_line(text: &mut Vec<u8>, rows: &[Code]) -> Result<(), NoMemory>
    ensures { IfOk result (λ v. text.new.items ≡ text.old.items ++ line_from false rows.now) }
{
    for (i, row) in rows.iter().enumerate() {
        text.push(byte_of(*row, 0 < i))?;
    }
    Ok(text.push(b'\n')?)
}

/// The rows of an item.
fn push_item(rows: &mut Vec<Code>, item: &Item) -> Result<(), NoMemory>
    ensures { IfOk result (λ v. rows.new.items ≡ rows.old.items ++ rows_of (canonical item.now)) }
{
    rows.push(item.function)?;
    push_digits(rows, item.number, &POWERS_OF_TEN)?;
    if item.mark {
        rows.push(Code::PI)?;
    }
    Ok(rows.push(item.end)?)
}

/// The digit rows of a number at powers of ten, except at those that are greater than the number.
fn push_digits(rows: &mut Vec<Code>, number: u16, powers: &[u16]) -> Result<(), NoMemory>
    requires { list_all (λ power. nat_lt 0 power) powers.now ≡ true }
    ensures { IfOk result
        (λ v. rows.new.items ≡ rows.old.items ++ flat_map (λ power. digit_at power number) powers.now) }
{
    for power in powers {
        if *power <= number {
            rows.push(Code::new((number / *power % 10) as u8).unwrap())?;
        }
    }
    Ok(())
}
