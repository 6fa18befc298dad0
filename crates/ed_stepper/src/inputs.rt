//! The input of the command that runs a script: the script, a dividing line, and a text.
ghost use Rattle.std.specs.Prelude.{◌≡◌, ◌≤◌, ◌<◌, length};
ghost use Rattle.ed_stepper.specs.Inputs.{Divides, HasLineCount, text_kind_of};

use crate::fronts::{first_line, spells};

/// The text after the line that divides an input.
#[derive(Clone, Copy)]
pub enum TextKind {
    /// The text of a tape, after the line `tape`.
    Tape,
    /// A source, after the line `source`.
    Source,
}

/// An input, divided by its first line that is `tape` or `source`.
#[derive(Clone, Copy)]
pub struct Divided<'a> {
    /// The lines before it.
    pub script: &'a [u8],
    /// What it announces.
    pub kind: TextKind,
    /// The bytes after it.
    pub text: &'a [u8],
}

/// Divides an input at its first line that is exactly `tape` or `source`; None if there is no such line.
pub fn divide<'a>(input: &'a [u8]) -> Option<Divided<'a>>
    ensures { Divides input.entry.now result }
{
    let mut rest = input;
    while !rest.is_empty() {
        let (line, after) = first_line(rest);
        if let Some(kind) = text_kind_of(line) {
            return Some(Divided {
                script: &input[..input.len() - rest.len()],
                kind,
                text: after,
            });
        }
        rest = after;
    }
    None
}

/// What a line announces, if it is a dividing line.
fn text_kind_of(line: &[u8]) -> Option<TextKind>
    ensures { result ≡ text_kind_of line.now }
{
    if spells(line, b"tape") {
        Some(TextKind::Tape)
    } else if spells(line, b"source") {
        Some(TextKind::Source)
    } else {
        None
    }
}

/// The number of lines of a text; a last line without an end counts if it isn't empty.
pub fn line_count(text: &[u8]) -> u32
    requires { length text.now ≤ 1000000000 }
    ensures is { HasLineCount text.entry.now result }
    ensures few { result ≤ length text.now }
{
    let mut rest = text;
    let mut count = 0;
    while !rest.is_empty() {
        let (_, after) = first_line(rest);
        count += 1;
        rest = after;
    }
    count
}
