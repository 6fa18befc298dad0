//! Statements, and lines with their labels.
ghost use Rattle.std.specs.Prelude.{◌≡◌, ◌==◌, codes, map, Some};
ghost use Rattle.ed_syntax.specs.Versions.{is_second};
ghost use Rattle.ed_syntax.specs.Private.Found.{form_result};
ghost use Rattle.ed_syntax.specs.Reading.Grammar.{base, enter, fetch, form_at};
ghost use Rattle.ed_syntax.specs.Reading.Grammar.{is_version_two, labelled_line, length_end};
ghost use Rattle.ed_syntax.specs.Reading.Grammar.{long, order, order_end, placed_statement, segment};
ghost use Rattle.ed_syntax.specs.Reading.Grammar.{statement, unlabelled_line, word};
ghost use Rattle.ed_syntax.specs.Private.Seen.{part};

use crate::Version;
use crate::form::Form;
use crate::form_fault::{FormFault, Ranged};
use crate::operands::{operand, preset};
use crate::parts::Part;
use crate::terms::{integer, is, name, number, place_name, string};
use ed_codes::row_of_byte;
use ed_lines::{Operand, Statement};
use ed_words::{Long, Word};

/// The length at the end of an order.
fn length_end(parts: &[Part]) -> Option<bool>
    ensures { result ≡ length_end (map part parts.now) }
{
    let [Part::Sign(letter)] = *parts else {
        return None;
    };
    match letter {
        b'F' => Some(false),
        b'D' => Some(true),
        _ => None,
    }
}

/// What follows the function of an order: the operand and the length.
fn order_end(version: Version, parts: &[Part]) -> Option<(Ranged<Operand>, bool)>
    ensures { result ≡ order_end (is_second version) (map part parts.now) }
{
    let (operand, rest) = match parts.split_first() {
        Some((Part::Sign(_), _)) => (Some(Operand::Number(0)), parts),
        _ => match operand(version, parts) {
            Some(front) => front,
            None => return None,
        },
    };
    let length = length_end(rest)?;
    Some((operand, length))
}

/// An order with this function.
fn order(version: Version, byte: u8, parts: &[Part]) -> Result<Statement, FormFault>
    ensures { result ≡ form_result (order (is_second version) byte (map part parts.now)) }
{
    if byte.is_ascii_digit() {
        return Err(FormFault::NotThisForm);
    }
    let Some(function) = row_of_byte(byte) else {
        return Err(FormFault::NotThisForm);
    };
    match order_end(version, parts) {
        Some((Some(operand), length)) => Ok(Statement::Order {
            function,
            operand,
            length,
        }),
        Some((None, _)) => Err(FormFault::OutOfRange),
        None => Err(FormFault::NotThisForm),
    }
}

/// What follows `word`.
fn word(parts: &[Part]) -> Result<Statement, FormFault>
    ensures { result ≡ form_result (word (map part parts.now)) }
{
    let number = integer(65536, 131_071, parts)?;
    let value = number.rem_euclid(1 << 17);
    Ok(Statement::Number {
        value: Word::of_number(value as u32),
    })
}

/// What follows `long`.
fn long(parts: &[Part]) -> Result<Statement, FormFault>
    ensures { result ≡ form_result (long (map part parts.now)) }
{
    let number = integer(17_179_869_184, 34_359_738_367, parts)?;
    let value = number.rem_euclid(1 << 35);
    Ok(Statement::Long {
        value: Long::of_number(value as u64),
    })
}

/// What follows `enter`.
fn enter(parts: &[Part]) -> Result<Statement, FormFault>
    ensures { result ≡ form_result (enter (map part parts.now)) }
{
    let [Part::Run(run)] = *parts else {
        return Err(FormFault::NotThisForm);
    };
    match name(run) {
        Some(name) => Ok(Statement::Enter { name }),
        None => Err(FormFault::NotThisForm),
    }
}

/// What follows the name of a segment.
fn base(parts: &[Part]) -> Result<Option<u16>, FormFault>
    ensures { result ≡ form_result (base (map part parts.now)) }
{
    match *parts {
        [] => Ok(None),
        [Part::Run(at), Part::Run(digits)] if is(at, b"at") => {
            let base = number(1023, digits)?;
            Ok(Some(base as u16))
        }
        _ => Err(FormFault::NotThisForm),
    }
}

/// What follows `segment`.
fn segment(parts: &[Part]) -> Result<Statement, FormFault>
    ensures { result ≡ form_result (segment (map part parts.now)) }
{
    let Some((&Part::Run(run), rest)) = parts.split_first() else {
        return Err(FormFault::NotThisForm);
    };
    let Some(name) = name(run) else {
        return Err(FormFault::NotThisForm);
    };
    let base = base(rest)?;
    Ok(Statement::Segment { name, base })
}

/// What follows `use`.
fn fetch(version: Version, parts: &[Part]) -> Result<Statement, FormFault>
    ensures { result ≡ form_result (fetch (is_second version) (map part parts.now)) }
{
    let [
        Part::Run(routine),
        Part::Run(word),
        Part::Run(run),
        ref rest @ ..,
    ] = *parts
    else {
        return Err(FormFault::NotThisForm);
    };
    if !is(word, b"as") {
        return Err(FormFault::NotThisForm);
    }
    let (Some(routine), Some(name)) = (name(routine), name(run)) else {
        return Err(FormFault::NotThisForm);
    };
    let settings = preset(version, rest)?;
    Ok(Statement::Fetch {
        routine,
        name,
        settings,
    })
}

/// A statement that may have a label.
fn placed(version: Version, parts: &[Part]) -> Result<Statement, FormFault>
    ensures { result ≡ form_result (placed_statement (is_second version) (map part parts.now)) }
{
    match parts.split_first() {
        Some((&Part::Sign(byte), rest)) => order(version, byte, rest),
        Some((&Part::Run(keyword), rest)) => {
            if is(keyword, b"word") {
                word(rest)
            } else if is(keyword, b"text") {
                match string(rest) {
                    Some(codes) => Ok(Statement::Text { codes }),
                    None => Err(FormFault::NotThisForm),
                }
            } else if version.is_two() && is(keyword, b"long") {
                long(rest)
            } else {
                Err(FormFault::NotThisForm)
            }
        }
        _ => Err(FormFault::NotThisForm),
    }
}

/// A statement.
fn statement(version: Version, parts: &[Part]) -> Result<Statement, FormFault>
    ensures { result ≡ form_result (statement (is_second version) (map part parts.now)) }
{
    let Some((&Part::Run(keyword), rest)) = parts.split_first() else {
        return placed(version, parts);
    };
    if is(keyword, b"segment") {
        segment(rest)
    } else if is(keyword, b"use") {
        fetch(version, rest)
    } else if is(keyword, b"enter") {
        enter(rest)
    } else if is(keyword, b"data") {
        match string(rest) {
            Some(codes) => Ok(Statement::Rows { codes }),
            None => Err(FormFault::NotThisForm),
        }
    } else {
        placed(version, parts)
    }
}

/// A line with a statement alone.
fn unlabelled(version: Version, parts: &[Part]) -> Result<Form, FormFault>
    ensures { result ≡ form_result (unlabelled_line (is_second version) (map part parts.now)) }
{
    let statement = statement(version, parts)?;
    Ok(Form {
        label: None,
        statement: Some(statement),
    })
}

/// A line that begins with a label.
fn labelled(version: Version, run: &[u8], parts: &[Part]) -> Result<Form, FormFault>
    ensures { result ≡ form_result (labelled_line (is_second version) run.now (map part parts.now)) }
{
    let Some(label) = place_name(version, run) else {
        return Err(FormFault::NotThisForm);
    };
    if parts.is_empty() {
        return Ok(Form {
            label: Some(label),
            statement: None,
        });
    }
    let statement = placed(version, parts)?;
    Ok(Form {
        label: Some(label),
        statement: Some(statement),
    })
}

/// Whether a line is `version 2`.
pub(crate) fn is_version_two(parts: &[Part]) -> bool
    ensures { result ≡ is_version_two (map part parts.now) }
{
    let [Part::Run(word), Part::Run(digits)] = *parts else {
        return false;
    };
    is(word, b"version") && matches!(number(2, digits), Ok(2))
}

/// The line with this number.
pub(crate) fn form_at(version: Version, number: u32, parts: &[Part]) -> Result<Form, FormFault>
    ensures { result ≡ form_result (form_at (is_second version) number (map part parts.now)) }
{
    if number == 1 && is_version_two(parts) {
        return Ok(Form {
            label: None,
            statement: None,
        });
    }
    match parts.split_first() {
        None => Ok(Form {
            label: None,
            statement: None,
        }),
        Some((&Part::Run(run), after)) => match after.split_first() {
            Some((Part::Sign(b':'), rest)) => labelled(version, run, rest),
            _ => unlabelled(version, parts),
        },
        _ => unlabelled(version, parts),
    }
}
