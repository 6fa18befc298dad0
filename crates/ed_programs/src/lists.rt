//! The numbers that a program reads from its tape, up to one that is below all of them.

ghost use Rattle.std.specs.Prelude.{◌≡◌, ◌⊎◌, ◌++◌, [], ◌∷◌, None, Some, IfOk, IfErr, nat_le, string_bytes};
ghost use Rattle.std.specs.List.{list_all};
ghost use Rattle.ed_programs.specs.Lists.{list_refusal, numbers_text};
ghost use Rattle.ed_programs.specs.declared.refusal.Refusal.TheVariants.{Memory};

use crate::refusal::Refusal;
use std::alloc::Global;

/// The bytes that a source's line `data` has between its quotes.
const ROOM: usize = 113;

/// Numbers that are `least` or more, and one below it that ends them, as the rows of a line `data`.
pub fn list_rows(alloc: Global, least: u16, numbers: &[u16], end: u16) -> Result<String, Refusal>
    ensures ok { IfOk result (λ rows. list_refusal least numbers.now end ≡ None) }
    ensures rows { IfOk result (λ rows. string_bytes rows ≡ numbers_text (numbers.now ++ end ∷ [])) }
    ensures err { IfErr result (λ refusal. (refusal ≡ Memory) ⊎ (list_refusal least numbers.now end ≡ Some refusal)) }
{
    if end >= least || !are_at_least(least, numbers) {
        return Err(Refusal::End);
    }
    let rows = rows_of(alloc, numbers, end)?;
    if rows.len() > ROOM {
        return Err(Refusal::Line);
    }
    Ok(rows)
}

/// Whether none of some numbers is below another one.
fn are_at_least(least: u16, numbers: &[u16]) -> bool
    ensures { result ≡ list_all (λ n. nat_le least n) numbers.now }
{
    numbers.iter().all(|number| least <= *number)
}

/// Numbers in decimal, each ended by F.
fn rows_of(alloc: Global, numbers: &[u16], end: u16) -> Result<String, Refusal>
    ensures ok { IfOk result (λ rows. string_bytes rows ≡ numbers_text (numbers.now ++ end ∷ [])) }
    ensures err { IfErr result (λ refusal. refusal ≡ Memory) }
{
    let mut rows = String::new(alloc);
    for number in numbers {
        write!(rows, "{number}F")?;
    }
    write!(rows, "{end}F")?;
    Ok(rows)
}
