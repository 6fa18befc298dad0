//! Lines, and the text of a program.
ghost use Rattle.std.specs.Prelude.{◌≡◌, ◌==◌, ◌++◌, IfOk, IfErr, true};
ghost use Rattle.std.specs.List.{list_all};
ghost use Rattle.ed_writer.specs.Answers.{has_version_place, HasNoText, IsTextOf, IsWriteFault};
ghost use Rattle.ed_writer.specs.Private.LineTexts.{IsTextOfLines, has_few, IsLinesFault};
ghost use Rattle.ed_syntax.specs.Versions.{is_second};
ghost use Rattle.ed_syntax.specs.Sources.{IsProgram};
ghost use Rattle.ed_syntax.specs.Written.{line_text};

use crate::WriteFault;
use crate::statements::push_statement;
use crate::text::push;
use ed_syntax::{Line, Program, Version};
use ed_words::NoMemory;
use std::alloc::Global;

/// The most bytes of a line of a source.
const LINE_BYTES: usize = 120;

/// Adds a line without its end.
fn push_line(text: &mut Vec<u8>, version: Version, line: &Line) -> Result<(), NoMemory>
    ensures is { IfOk result (λ _. text.new.items ≡ text.old.items ++ line_text (is_second version) line.now) }
    ensures few { IfOk result (λ _. has_few (is_second version) line.now ≡ true) }
{
    if version.is_two() && line.number == 1 {
        return push(text, b"version 2");
    }
    if let Some(label) = &line.label {
        push(text, label.text().as_bytes())?;
        push(
            text,
            if line.statement.is_some() {
                b": "
            } else {
                b":"
            },
        )?;
    }
    match &line.statement {
        Some(statement) => push_statement(text, statement),
        None => Ok(()),
    }
}

/// The text of lines, or the first line whose text is too long.
fn lines_text(alloc: Global, version: Version, lines: &[Line]) -> Result<Vec<u8>, WriteFault>
    ensures is { IfOk result (λ text. IsTextOfLines (is_second version) lines.now text.items) }
    ensures few { IfOk result (λ _. list_all (has_few (is_second version)) lines.now ≡ true) }
    ensures fault { IfErr result (λ e. IsLinesFault (is_second version) lines.now e) }
{
    let mut text = Vec::new(alloc);
    for line in lines {
        let start = text.len();
        push_line(&mut text, version, line)?;
        if text.len() - start > LINE_BYTES {
            return Err(WriteFault::LongLine { line: line.number });
        }
        push(&mut text, b"\n")?;
    }
    Ok(text)
}

/// Whether there is a line for `version 2`, or none is needed.
fn has_version_place(version: Version, lines: &[Line]) -> bool
    ensures { result ≡ has_version_place (is_second version) lines.now }
{
    if !version.is_two() {
        return true;
    }
    match lines.first() {
        Some(line) => line.label.is_none() && line.statement.is_none(),
        None => false,
    }
}

/// The text of a program, which says exactly its lines.
///
/// `NoVersionLine` comes before `LongLine`, and `LongLine` names the first line that is too long.
pub fn text_of_program(alloc: Global, program: &Program) -> Result<Vec<u8>, WriteFault>
    ensures is { IfOk result (λ text. IsTextOf (program.now.version == 2) program.now.lines.items text.items) }
    ensures says { IfOk result (λ text. IsProgram text.items (program.now.version == 2) program.now.lines.items) }
    ensures fault { IfErr result (λ e. IsWriteFault (program.now.version == 2) program.now.lines.items e) }
    ensures none { IfErr result (λ e. HasNoText (program.now.version == 2) program.now.lines.items e) }
{
    let version = Version::of(program);
    if !has_version_place(version, &program.lines) {
        return Err(WriteFault::NoVersionLine);
    }
    lines_text(alloc, version, &program.lines)
}
