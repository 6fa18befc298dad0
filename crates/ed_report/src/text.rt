ghost use Rattle.std.specs.Prelude.{◌≡◌, ◌++◌, IfOk, IsOkAnd, codes, string_bytes};
ghost use Rattle.std.specs.Fmt.{decimal};

use ed_words::NoMemory;
use std::alloc::{AllocError, Global};

/// The bytes of a text that `format!` made, or that no memory was found.
pub fn bytes_of_text(text: Result<String, AllocError>) -> Result<Vec<u8>, NoMemory>
    ensures { IfOk result (λ bytes. IsOkAnd text (λ s. bytes.items ≡ string_bytes s)) }
{
    Ok(text?.into_bytes())
}

/// The text that names a place and a count of orders, and goes on with `more`.
pub(crate) fn location_after(
    alloc: Global,
    name: &str,
    place: u16,
    orders: u64,
    more: &str,
) -> Result<Vec<u8>, NoMemory>
    ensures { IfOk result (λ bytes. bytes.items
        ≡ name.now ++ codes " " ++ decimal place ++ codes " after " ++ decimal orders ++ more.now) }
{
    bytes_of_text(format!(in alloc; "{name} {place} after {orders}{more}"))
}
