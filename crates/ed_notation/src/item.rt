ghost use Rattle.std.specs.Prelude.{◌≡◌};
ghost use Rattle.ed_notation.specs.Spellings.{is_spellable, SpellableIsSpelled};

use crate::kind::RowKind;
use ed_codes::{Code, letters};

/// An item of the tape. A blank pair is the item with function 16, number 0, no mark and end 16.
#[derive(Clone, Copy)]
pub struct Item {
    /// The function row.
    pub function: Code,
    /// The number of the digit rows, 0 without any; at most 32767 in an item that can be spelled.
    pub number: u16,
    /// Whether a π follows the number.
    pub mark: bool,
    /// The ending row: K, Z, a code letter, or the second blank of a blank pair.
    pub end: Code,
}

/// Whether an item can be spelled: callers test with it what the calls that spell items require.
pub fn spellable(item: &Item) -> bool
    ensures is { result ≡ is_spellable item.now }
    ensures law { SpellableIsSpelled item.now }
{
    let function = item.function.value();
    if 32767 < item.number {
        return false;
    }
    match RowKind::of(item.end) {
        RowKind::Zed | RowKind::Kay | RowKind::Letter => true,
        RowKind::Blank => function == letters::BLANK && item.number == 0 && !item.mark,
        RowKind::Digit | RowKind::Mark | RowKind::Other => false,
    }
}
