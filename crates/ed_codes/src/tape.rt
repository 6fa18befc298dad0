ghost use Rattle.std.specs.Prelude.{◌≡◌, [], Err, MatchResult};
ghost use Rattle.ed_codes.specs.Text.{is_spacing};
ghost use Rattle.ed_codes.specs.Reading.{HasOneReading, reading, rows};
ghost use Rattle.ed_codes.specs.Answer.{AnswersText, ReadsText};

use crate::{Code, row_of_byte};
use std::alloc::{AllocFailed, Global};
use std::fmt;
use thiserror::Error;

/// Why a tape text gives no rows. The message of each variant is its name.
#[derive(Clone, Copy, Error)]
pub enum TextFault {
    /// A byte that spells no row, at this offset in bytes, counted from 0.
    #[error("NoRow")]
    NoRow { place: usize, byte: u8 },
    /// A comment that never ends, at the offset of its `[` in bytes, counted from 0.
    #[error("OpenComment")]
    OpenComment { place: usize },
    /// No memory was found for the rows.
    #[error("Memory")]
    Memory,
}

impl fmt::Debug for TextFault {
    fn fmt<W: fmt::Write>(&self, f: &mut fmt::Formatter<W>) -> fmt::Result {
        fmt::Display::fmt(self, f)
    }
}

impl<T: Drop> From<AllocFailed<T>> for TextFault {
    ghost use Rattle.std.specs.Prelude.{◌≡◌};
    ghost use Rattle.ed_codes.specs.declared.tape.TextFault.TheVariants.{Memory};

    ghost from_gives = { λ _ e. e ≡ Memory };

    fn from(_failed: AllocFailed<T>) -> TextFault {
        TextFault::Memory
    }
}

/// Whether a byte is one of the four that spell no row and are no fault.
fn is_spacing(byte: u8) -> bool
    ensures { result ≡ is_spacing byte }
{
    matches!(byte, b' ' | b'\t' | b'\r' | b'\n')
}

/// The rows of a tape text, or its first fault. Spaces, tabs, carriage returns and line feeds are skipped, and so are
/// comments, which go from a `[` to the next `]`.
pub fn tape_of_text(alloc: Global, text: &[u8]) -> Result<Vec<Code>, TextFault>
    ensures spelled { ReadsText text.now result }
    ensures exact { AnswersText (reading text.now) result }
    ensures law { HasOneReading }
{
    let mut rows = Vec::new(alloc);
    push_rows(text, &mut rows)?;
    Ok(rows)
}

/// Pushes the codes of the rows that a text spells onto an empty list.
fn push_rows(text: &[u8], codes: &mut Vec<Code>) -> Result<(), TextFault>
    requires { codes.old.items ≡ [] }
    ensures { MatchResult result
        (λ _. reading text.now ≡ rows codes.new.items)
        (λ fault. AnswersText (reading text.now) (Err fault)) }
{
    let mut comment = None;
    for (place, &byte) in text.iter().enumerate() {
        if comment.is_some() {
            if byte == b']' {
                comment = None;
            }
        } else if byte == b'[' {
            comment = Some(place);
        } else if !is_spacing(byte) {
            match row_of_byte(byte) {
                Some(code) => codes.push(code)?,
                None => return Err(TextFault::NoRow { place, byte }),
            }
        }
    }
    match comment {
        Some(place) => Err(TextFault::OpenComment { place }),
        None => Ok(()),
    }
}
