//! Names, numbers and strings.
ghost use Rattle.std.specs.Prelude.{◌≡◌, ◌≤◌, ◌<◌, ◌^◌, true, false, Some};
ghost use Rattle.std.specs.Prelude.{map, IfOk, IfSome, IfNone, option_map};
ghost use Rattle.ed_syntax.specs.Versions.{is_second};
ghost use Rattle.ed_syntax.specs.Private.Found.{form_result};
ghost use Rattle.std.specs.Str.{bytes_eq};
ghost use Rattle.ed_syntax.specs.Parts.{array};
ghost use Rattle.ed_lines.specs.Names.{is_name};
ghost use Rattle.ed_syntax.specs.Reading.Grammar.{integer};
ghost use Rattle.ed_syntax.specs.Parts.{is_number};
ghost use Rattle.ed_lines.specs.Names.{is_place_name};
ghost use Rattle.ed_syntax.specs.Reading.Grammar.{number_up_to};
ghost use Rattle.ed_syntax.specs.Reading.Grammar.{string};
ghost use Rattle.ed_lines.specs.Names.{is_run_byte};
ghost use Rattle.ed_syntax.specs.Private.Seen.{part};

use crate::Version;
use crate::form_fault::FormFault;
use crate::parts::{Part, is_run_byte};
use arrayvec::ArrayVec;
use ed_codes::{Code, row_of_byte};
use ed_lines::Name;
use std::str;

/// Whether a run may be a label or stand in an operand: it is a name or, in version 2, a local name.
fn is_place_name(version: Version, run: &[u8]) -> bool
    ensures { result ≡ is_place_name (is_second version) run.now }
{
    let Some((first, rest)) = run.split_first() else {
        return false;
    };
    let begins = match first {
        b'a'..=b'z' => true,
        b'_' => version.is_two() && !rest.is_empty(),
        _ => false,
    };
    if !begins || rest.len() > 15 {
        return false;
    }
    for byte in rest {
        if !is_run_byte(*byte) {
            return false;
        }
    }
    true
}

/// A name.
pub(crate) fn name(run: &[u8]) -> Option<Name>
    ensures none { IfNone result (is_name run.now ≡ false) }
    ensures some { IfSome result (λ n. (n ≡ run.now) × (is_name run.now ≡ true)) }
{
    place_name(Version::One, run)
}

/// A name or, in version 2, a local name.
pub(crate) fn place_name(version: Version, run: &[u8]) -> Option<Name>
    ensures none { IfNone result (is_place_name (is_second version) run.now ≡ false) }
    ensures some { IfSome result (λ n. (n ≡ run.now) × (is_place_name (is_second version) run.now ≡ true)) }
{
    if !is_place_name(version, run) {
        return None;
    }
    match str::from_utf8(run) {
        Ok(text) => Name::new(text),
        Err(_) => unreachable!(),
    }
}

/// Whether a run is a number.
fn is_number(run: &[u8]) -> bool
    ensures { result ≡ is_number run.now }
{
    for byte in run {
        if !byte.is_ascii_digit() {
            return false;
        }
    }
    !run.is_empty()
}

/// A number from 0 to `most`.
pub(crate) fn number(most: u64, run: &[u8]) -> Result<u64, FormFault>
    requires { most < 2 ^ 36 }
    ensures is { result ≡ form_result (number_up_to most run.now) }
    ensures within { IfOk result (λ n. n ≤ most) }
{
    if !is_number(run) {
        return Err(FormFault::NotThisForm);
    }
    let mut value = 0;
    for digit in run {
        value = 10 * value + u64::from(digit.saturating_sub(b'0'));
        if value > most {
            return Err(FormFault::OutOfRange);
        }
    }
    Ok(value)
}

/// A number or, after a minus sign, its negative.
pub(crate) fn integer(least: u64, most: u64, parts: &[Part]) -> Result<i64, FormFault>
    requires least { least < 2 ^ 36 }
    requires most { most < 2 ^ 36 }
    ensures { result ≡ form_result (integer least most (map part parts.now)) }
{
    if let [Part::Run(run)] = *parts {
        return Ok(number(most, run)? as i64);
    }
    let [Part::Sign(b'-'), Part::Run(run)] = *parts else {
        return Err(FormFault::NotThisForm);
    };
    Ok(-(number(least, run)? as i64))
}

/// A string of one or more bytes that spell rows.
pub(crate) fn string(parts: &[Part]) -> Option<ArrayVec<Code, 120>>
    ensures { result ≡ option_map array (string (map part parts.now)) }
{
    let [Part::Quoted(text)] = *parts else {
        return None;
    };
    if text.is_empty() || text.len() > 120 {
        return None;
    }
    let mut rows = ArrayVec::new();
    for byte in text {
        rows.push(row_of_byte(*byte)?);
    }
    Some(rows)
}

/// Whether a run is this keyword.
pub(crate) fn is(run: &[u8], word: &[u8]) -> bool
    ensures { result ≡ bytes_eq run.now word.now }
{
    run == word
}
