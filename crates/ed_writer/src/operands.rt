//! Operands and settings.
ghost use Rattle.std.specs.Prelude.{◌≡◌, ◌++◌, IfOk, codes};
ghost use Rattle.ed_syntax.specs.Written.{operand_text, settings_after};

use crate::text::{push, push_letter, push_named, push_numbered};
use ed_syntax::{Operand, Setting};
use ed_words::NoMemory;

/// Adds bytes and then an operand.
pub(crate) fn push_operand(
    text: &mut Vec<u8>,
    before: &[u8],
    operand: &Operand,
) -> Result<(), NoMemory>
    ensures { IfOk result (λ _. text.new.items ≡ text.old.items ++ (before.now ++ operand_text operand.now)) }
{
    match operand {
        Operand::Number(number) => push_numbered(text, before, u64::from(*number)),
        Operand::Label { name, plus } => {
            push_named(text, before, name)?;
            if *plus == 0 {
                return Ok(());
            }
            let sign: &[u8] = if *plus < 0 { b"-" } else { b"+" };
            push_numbered(text, sign, u64::from(plus.unsigned_abs()))
        }
        Operand::Two {
            first,
            second,
            minus,
        } => {
            push_named(text, before, first)?;
            push_named(text, if *minus { b"-" } else { b"+" }, second)
        }
    }
}

/// Adds settings, the first after `with`.
pub(crate) fn push_settings(text: &mut Vec<u8>, settings: &[Setting]) -> Result<(), NoMemory>
    ensures { IfOk result (λ _. text.new.items ≡ text.old.items ++ settings_after (codes " with ") settings.now) }
{
    let mut before: &[u8] = b" with ";
    for setting in settings {
        push(text, before)?;
        push_letter(text, setting.letter)?;
        push_operand(text, b"=", &setting.operand)?;
        before = b", ";
    }
    Ok(())
}
