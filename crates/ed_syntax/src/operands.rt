//! Operands and settings.
ghost use Rattle.std.specs.Prelude.{◌≡◌, ◌+◌, ◌≤◌, ◌==◌, ◌<◌, length, map, option_map, IfOk, Some};
ghost use Rattle.std.specs.Option.{ok_or};
ghost use Rattle.ed_syntax.specs.Reading.Grammar.{both, joined_operand, ranged_map, operand, with_settings};
ghost use Rattle.ed_syntax.specs.Reading.Grammar.{setting};
ghost use Rattle.ed_syntax.specs.Private.Found.{form_result, front};
ghost use Rattle.ed_syntax.specs.Versions.{is_second};
ghost use Rattle.ed_syntax.specs.Parts.{array};
ghost use Rattle.ed_syntax.specs.Parts.{setting_letter};
ghost use Rattle.ed_syntax.specs.Reading.Grammar.{settings, single};
ghost use Rattle.ed_syntax.specs.Parts.{run, sign};
ghost use Rattle.ed_syntax.specs.Private.Seen.{part};

use crate::Version;
use crate::form_fault::{FormFault, Ranged};
use crate::parts::Part;
use crate::terms::{is, number, place_name};
use arrayvec::ArrayVec;
use ed_codes::{Code, row_of_byte};
use ed_lines::{Operand, Setting};

/// An operand that is a number or a name; None if it is of neither form.
fn single(version: Version, run: &[u8]) -> Option<Ranged<Operand>>
    ensures { result ≡ single (is_second version) run.now }
{
    match number(32767, run) {
        Ok(number) => Some(Some(Operand::Number(number as u16))),
        Err(FormFault::OutOfRange) => Some(None),
        Err(FormFault::NotThisForm) => {
            let name = place_name(version, run)?;
            Some(Some(Operand::Label { name, plus: 0 }))
        }
    }
}

/// An operand that is a name, a sign, and a number or in version 2 a name; None if it is not of this form.
fn joined(version: Version, run: &[u8], sign: u8, more: &[u8]) -> Option<Ranged<Operand>>
    ensures { result ≡ joined_operand (is_second version) run.now sign more.now }
{
    let first = place_name(version, run)?;
    let minus = sign == b'-';
    match number(1023, more) {
        Ok(number) => {
            let number = number as i32;
            let plus = if minus { -number } else { number };
            Some(Some(Operand::Label { name: first, plus }))
        }
        Err(FormFault::OutOfRange) => Some(None),
        Err(FormFault::NotThisForm) if version.is_two() => {
            let second = place_name(version, more)?;
            Some(Some(Operand::Two {
                first,
                second,
                minus,
            }))
        }
        Err(FormFault::NotThisForm) => None,
    }
}

/// An operand at the front, and the parts after it. A number out of its range is no fault as long as these parts may
/// have no form.
pub(crate) fn operand<'a, 'p>(
    version: Version,
    parts: &'p [Part<'a>],
) -> Option<(Ranged<Operand>, &'p [Part<'a>])>
    ensures { front result ≡ operand (is_second version) (map part parts.entry.now) }
{
    let Some((&Part::Run(run), after)) = parts.split_first() else {
        return None;
    };
    match after.split_first() {
        Some((&Part::Sign(sign @ (b'+' | b'-')), joins)) => match joins.split_first() {
            Some((&Part::Run(more), rest)) => Some((joined(version, run, sign, more)?, rest)),
            _ => None,
        },
        _ => Some((single(version, run)?, after)),
    }
}

/// The letter of a setting, as its code.
fn setting_letter(byte: u8) -> Option<Code>
    ensures { result ≡ setting_letter byte }
{
    match byte {
        b'H' | b'N' | b'M' | b'&' | b'L' | b'X' => row_of_byte(byte),
        _ => None,
    }
}

/// A setting at the front, and the parts after it.
fn setting<'a, 'p>(
    version: Version,
    parts: &'p [Part<'a>],
) -> Option<(Ranged<Setting>, &'p [Part<'a>])>
    ensures { front result ≡ setting (is_second version) (map part parts.entry.now) }
{
    let Some((&Part::Sign(byte), after)) = parts.split_first() else {
        return None;
    };
    let Some((Part::Sign(b'='), rest)) = after.split_first() else {
        return None;
    };
    let letter = setting_letter(byte)?;
    match operand(version, rest) {
        Some((Some(operand), rest)) => Some((Some(Setting { letter, operand }), rest)),
        Some((None, rest)) => Some((None, rest)),
        None => None,
    }
}

/// One to `most` settings with commas between.
#[cycle(settings)]
fn settings(version: Version, most: u8, parts: &[Part]) -> Result<ArrayVec<Setting, 6>, FormFault>
    requires { most ≤ 6 }
    ensures is { result ≡ form_result (ranged_map array (settings (is_second version) most (map part parts.now))) }
    ensures few { IfOk result (λ ss. length ss.items ≤ most) }
{
    if most == 0 {
        return Err(FormFault::NotThisForm);
    }
    match setting(version, parts) {
        Some((setting, after)) => match after.split_first() {
            None => both(setting, ArrayVec::new()),
            Some((Part::Sign(b','), rest)) => {
                let more = settings(version, most - 1, rest)?;
                both(setting, more)
            }
            _ => Err(FormFault::NotThisForm),
        },
        None => Err(FormFault::NotThisForm),
    }
}

/// A setting in front of others, where it is in its range.
fn both(
    setting: Ranged<Setting>,
    more: ArrayVec<Setting, 6>,
) -> Result<ArrayVec<Setting, 6>, FormFault>
    requires { length more.items ≤ 5 }
    ensures is { result ≡ ok_or (option_map array (both setting (Some more.items))) FormFault.OutOfRange }
    ensures few { IfOk result (λ r. length r.items ≡ length more.items + 1) }
{
    match setting {
        Some(setting) => {
            let mut settings = more;
            settings.insert(0, setting);
            Ok(settings)
        }
        None => Err(FormFault::OutOfRange),
    }
}

/// Nothing, or `with` and one to six settings.
pub(crate) fn preset(version: Version, parts: &[Part]) -> Result<ArrayVec<Setting, 6>, FormFault>
    ensures { result ≡ form_result (ranged_map array (with_settings (is_second version) (map part parts.now))) }
{
    match parts.split_first() {
        None => Ok(ArrayVec::new()),
        Some((&Part::Run(word), rest)) if is(word, b"with") => settings(version, 6, rest),
        _ => Err(FormFault::NotThisForm),
    }
}
