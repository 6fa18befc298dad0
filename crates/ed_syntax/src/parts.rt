//! The parts of a line: runs, signs and strings.
ghost use Rattle.std.specs.Prelude.{◌≡◌, ◌≤◌, ◌<◌, Some, None, IfSome};
ghost use Rattle.std.specs.Prelude.{IfNone, IfOk, map, option_map, false, length};
ghost use Rattle.ed_lines.specs.Names.{is_run_byte};
ghost use Rattle.ed_syntax.specs.Reading.Parts.{parts_of};
ghost use Rattle.ed_syntax.specs.Private.Seen.{part};
ghost use Rattle.ed_syntax.specs.Private.PartFronts.{SplitsRun, SplitsQuote, Takes, begins_blank};
ghost use Rattle.ed_syntax.specs.Parts.{has_quote};

use ed_words::NoMemory;
use std::alloc::Global;

/// A part of a line.
#[derive(Clone, Copy)]
pub(crate) enum Part<'a> {
    /// Lower-case letters, digits and `_`: a name, a number or a keyword.
    Run(&'a [u8]),
    /// Any other byte: a function, a letter or a sign.
    Sign(u8),
    /// The bytes between two quotes.
    Quoted(&'a [u8]),
}

/// A quote is never closed.
#[derive(Clone, Copy)]
pub(crate) struct OpenQuote;

/// Whether a byte belongs to a run of lower-case letters, digits and `_`.
pub(crate) fn is_run_byte(byte: u8) -> bool
    ensures { result ≡ is_run_byte byte }
{
    byte.is_ascii_lowercase() || byte.is_ascii_digit() || byte == b'_'
}

/// What follows the blanks and tabs at the front.
fn skip_blanks<'a>(line: &'a [u8]) -> &'a [u8]
    ensures same { parts_of line.entry.now ≡ parts_of result.now }
    ensures shorter { length result.now ≤ length line.entry.now }
    ensures stops { begins_blank result.now ≡ false }
{
    let mut rest = line;
    while let [b' ' | b'\t', after @ ..] = rest {
        rest = after;
    }
    rest
}

/// The run at the front, and what follows it.
fn split_run<'a>(line: &'a [u8]) -> (&'a [u8], &'a [u8])
    ensures { SplitsRun line.entry.now result.0.now result.1.now }
{
    for (place, byte) in line.iter().enumerate() {
        if !is_run_byte(*byte) {
            return line.split_at(place);
        }
    }
    (line, &[])
}

/// What precedes the first quote, and what follows it.
fn split_quote<'a>(text: &'a [u8]) -> Option<(&'a [u8], &'a [u8])>
    ensures some { IfSome result (λ p. SplitsQuote text.entry.now p.0.now p.1.now) }
    ensures none { IfNone result (has_quote text.entry.now ≡ false) }
{
    for (place, byte) in text.iter().enumerate() {
        if *byte == b'"' {
            return Some((&text[..place], &text[place + 1..]));
        }
    }
    None
}

/// The first part, and what follows it.
fn next_part<'a>(line: &'a [u8]) -> Result<Option<(Part<'a>, &'a [u8])>, OpenQuote>
    ensures { Takes line.entry.now result }
{
    let here = skip_blanks(line);
    match here.split_first() {
        None | Some((b';', _)) => Ok(None),
        Some((b'"', after)) => match split_quote(after) {
            Some((inside, rest)) => Ok(Some((Part::Quoted(inside), rest))),
            None => Err(OpenQuote),
        },
        Some((first, after)) => {
            if is_run_byte(*first) {
                let (run, rest) = split_run(here);
                Ok(Some((Part::Run(run), rest)))
            } else {
                Ok(Some((Part::Sign(*first), after)))
            }
        }
    }
}

/// The parts of a line; none if a quote is never closed.
pub(crate) fn parts_of<'a>(alloc: Global, line: &'a [u8]) -> Result<Option<Vec<Part<'a>>>, NoMemory>
    ensures { IfOk result (λ o. parts_of line.entry.now ≡ option_map (λ v. map part v.items) o) }
{
    let mut parts = Vec::new(alloc);
    let mut rest = line;
    loop {
        match next_part(rest) {
            Ok(Some((part, after))) => {
                parts.push(part)?;
                rest = after;
            }
            Ok(None) => return Ok(Some(parts)),
            Err(OpenQuote) => return Ok(None),
        }
    }
}
