//! The lines of a source, one after the other.
ghost use Rattle.std.specs.Prelude.{◌≡◌, ◌==◌, ◌<◌, length, IfErr, IfOk, Ok};
ghost use Rattle.std.specs.List.{list_all};
ghost use Rattle.ed_syntax.specs.Private.Answers.{IsFaultOf, LineIs, LinesAre};
ghost use Rattle.ed_syntax.specs.Versions.{is_second};
ghost use Rattle.ed_syntax.specs.Private.LineFronts.{TakesLine};
ghost use Rattle.ed_syntax.specs.Lines.{without_return};
ghost use Rattle.ed_syntax.specs.Lines.{lines_of};
ghost use Rattle.ed_syntax.specs.Forms.{FormsAreSpelled};
ghost use Rattle.ed_syntax.specs.Sources.{HasFormFault, HasOneMeaning, IsProgram};
ghost use Rattle.ed_syntax.specs.Parts.{is_line_byte};
ghost use Rattle.ed_syntax.specs.Reading.Sources.{is_two, line_of, lines_from, program_of, version_of};

use crate::Version;
use crate::form::Form;
use crate::form_fault::FormFault;
use crate::parts::parts_of;
use crate::statements::{form_at, is_version_two};
use ed_lines::{Line, Program, SourceCause, SourceFault};
use ed_words::NoMemory;
use std::alloc::Global;

/// Whether each byte may stand in a line: a tab, or 32 to 126.
fn are_line_bytes(line: &[u8]) -> bool
    ensures { result ≡ list_all is_line_byte line.now }
{
    for byte in line {
        if !matches!(byte, b'\t' | b' '..=b'~') {
            return false;
        }
    }
    true
}

/// What the line with this number says, or its fault with the least number.
fn line_of(alloc: Global, version: Version, number: u32, line: &[u8]) -> Result<Form, SourceFault>
    ensures { LineIs number (line_of (is_second version) number line.now) result }
{
    let cause = if !are_line_bytes(line) {
        SourceCause::BadByte
    } else if line.len() > 120 {
        SourceCause::LongLine
    } else {
        match parts_of(alloc, line)? {
            Some(parts) => match form_at(version, number, &parts) {
                Ok(form) => return Ok(form),
                Err(FormFault::NotThisForm) => SourceCause::NotAStatement,
                Err(FormFault::OutOfRange) => SourceCause::NumberRange,
            },
            None => SourceCause::NotAStatement,
        }
    };
    Err(SourceFault::At {
        line: number,
        cause,
    })
}

/// The line without a carriage return at its end.
fn without_return<'a>(line: &'a [u8]) -> &'a [u8]
    ensures { result.now ≡ without_return line.entry.now }
{
    match line.split_last() {
        Some((last, before)) => { if *last == b'\r' { before } else { line } }
        None => line,
    }
}

/// The first line, and what follows its end.
fn split_line<'a>(text: &'a [u8]) -> (&'a [u8], &'a [u8])
    requires { 0 < length text.now }
    ensures { TakesLine text.entry.now result.0.now result.1.now }
{
    for (place, byte) in text.iter().enumerate() {
        if *byte == b'\n' {
            return (without_return(&text[..place]), &text[place + 1..]);
        }
    }
    (text, &[])
}

/// The version of a source: the second where its first line is `version 2`.
fn version_of(alloc: Global, text: &[u8]) -> Result<Version, NoMemory>
    ensures { IfOk result (λ version. is_second version ≡ is_two (lines_of text.now)) }
{
    if text.is_empty() {
        return Ok(Version::One);
    }
    let (line, _) = split_line(text);
    let is_two = match parts_of(alloc, line)? {
        Some(parts) => is_version_two(&parts),
        None => false,
    };
    Ok(if is_two { Version::Two } else { Version::One })
}

/// The lines of a source, or the fault of the first line that has one.
fn lines(alloc: Global, version: Version, text: &[u8]) -> Result<Vec<Line>, SourceFault>
    ensures { LinesAre (lines_from (is_second version) 1 (lines_of text.now)) result }
{
    let mut found = Vec::new(alloc);
    let mut rest = text;
    let mut number = 1u32;
    while !rest.is_empty() {
        let (line, after) = split_line(rest);
        if number == 2001 {
            return Err(SourceFault::At {
                line: number,
                cause: SourceCause::TooManyLines,
            });
        }
        let form = line_of(alloc, version, number, line)?;
        found.push(Line {
            number,
            label: form.label,
            statement: form.statement,
        })?;
        number += 1;
        rest = after;
    }
    Ok(found)
}

/// The program of a source, or its fault of form: that of the first faulty line, with the least number.
pub fn parse(alloc: Global, text: &[u8]) -> Result<Program, SourceFault>
    ensures says { IfOk result (λ p. IsProgram text.now (p.version == 2) p.lines.items) }
    ensures has_fault { IfErr result (λ e. HasFormFault text.now e) }
    ensures one { HasOneMeaning }
    ensures forms { FormsAreSpelled }
{
    program(alloc, text)
}

/// The same, stated by the definitions of how a source is read.
fn program(alloc: Global, text: &[u8]) -> Result<Program, SourceFault>
    ensures version { IfOk result (λ p. p.version ≡ version_of text.now) }
    ensures lines { IfOk result (λ p. program_of text.now ≡ Ok p.lines.items) }
    ensures fault { IfErr result (λ e. IsFaultOf (program_of text.now) e) }
{
    let version = version_of(alloc, text)?;
    let lines = lines(alloc, version, text)?;
    Ok(Program {
        version: if version.is_two() { 2 } else { 1 },
        lines,
    })
}
