//! The front of a text: its first line, and the first part of a line.
ghost use Rattle.std.specs.Prelude.{◌≡◌, ◌==◌, ◌∷◌, ◌≤◌, ◌<◌, length};
ghost use Rattle.std.specs.List.{position_or_len};
ghost use Rattle.std.specs.Str.{bytes_eq};
ghost use Rattle.ed_syntax.specs.Lines.{lines_of};
ghost use Rattle.ed_stepper.specs.Private.Divisions.{after_line};
ghost use Rattle.ed_stepper.specs.Private.Fronts.{TakesPart, stop_of};

/// The first line without its end, and what follows it.
pub(crate) fn first_line<'a>(text: &'a [u8]) -> (&'a [u8], &'a [u8])
    requires { 0 < length text.now }
    ensures lines { lines_of text.entry.now ≡ result.0.now ∷ lines_of result.1.now }
    ensures after { result.1.now ≡ after_line text.entry.now }
    ensures shorter { length result.1.now < length text.entry.now }
{
    let end = first_byte(text, b'\n');
    if end < text.len() {
        (&text[..stop_of(text, end)], &text[end + 1..])
    } else {
        (text, &[])
    }
}

/// Where the first line stops, if its line feed is at `end`.
fn stop_of(text: &[u8], end: usize) -> usize
    requires { end ≤ length text.now }
    ensures is { result ≡ stop_of text.now end }
    ensures within { result ≤ end }
{
    if end > 0 && text[end - 1] == b'\r' {
        end - 1
    } else {
        end
    }
}

/// The first part of a line, and what follows it.
pub(crate) fn first_part<'a>(line: &'a [u8]) -> Option<(&'a [u8], &'a [u8])>
    ensures { TakesPart line.entry.now result }
{
    let mut rest = line;
    while let [first, after @ ..] = rest {
        if *first != b' ' {
            return Some(rest.split_at(first_byte(rest, b' ')));
        }
        rest = after;
    }
    None
}

/// The index of the first byte that is this one, or the length of the text if it has no such byte.
fn first_byte(text: &[u8], wanted: u8) -> usize
    ensures is { result ≡ position_or_len (λ b. b == wanted) text.now }
    ensures within { result ≤ length text.now }
{
    for (place, byte) in text.iter().enumerate() {
        if *byte == wanted {
            return place;
        }
    }
    text.len()
}

/// Whether a text is this word.
pub(crate) fn spells(text: &[u8], word: &[u8]) -> bool
    ensures { result ≡ bytes_eq text.now word.now }
{
    text == word
}
