//! Texts with numbers between their pieces.

ghost use Rattle.std.specs.Prelude.{◌≡◌, ◌+◌, IfOk, length, map, string_bytes};
ghost use Rattle.std.specs.Fmt.{decimal};
ghost use Rattle.ed_sources.specs.CallSources.{filled_text};

use ed_words::NoMemory;
use std::alloc::Global;

/// The text of these pieces, with a number between each two of them.
pub fn filled(alloc: Global, pieces: &[&str], numbers: &[u16]) -> Result<String, NoMemory>
    requires { length pieces.now ≡ length numbers.now + 1 }
    ensures { IfOk result (λ text. string_bytes text
        ≡ filled_text (map (λ piece. piece.now) pieces.now) (map decimal numbers.now)) }
{
    let mut text = String::new(alloc);
    for (gap, number) in numbers.iter().enumerate() {
        let piece = pieces[gap];
        write!(text, "{piece}{number}")?;
    }
    text.push_str(pieces[numbers.len()])?;
    Ok(text)
}
