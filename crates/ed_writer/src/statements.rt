//! Statements.
ghost use Rattle.std.specs.Prelude.{◌≡◌, ◌++◌, ◌∷◌, [], IfOk, Some, true};
ghost use Rattle.ed_syntax.specs.Written.{length_letter, order_operand, row_letter, statement_text};
ghost use Rattle.ed_syntax.specs.Forms.{has_few_settings};

use crate::operands::{push_operand, push_settings};
use crate::text::{push, push_letter, push_named, push_numbered, push_rows};
use ed_codes::Code;
use ed_syntax::{Operand, Statement};
use ed_words::NoMemory;

/// Adds an order.
fn push_order(
    text: &mut Vec<u8>,
    function: Code,
    operand: &Operand,
    long: bool,
) -> Result<(), NoMemory>
    ensures { IfOk result (λ _. text.new.items
        ≡ text.old.items ++ (row_letter function ∷ order_operand operand.now ++ 32 ∷ length_letter long ∷ [])) }
{
    push_letter(text, function)?;
    if !matches!(operand, Operand::Number(0)) {
        push_operand(text, b" ", operand)?;
    }
    push(text, if long { b" D" } else { b" F" })
}

/// Adds a statement.
pub(crate) fn push_statement(text: &mut Vec<u8>, statement: &Statement) -> Result<(), NoMemory>
    ensures is { IfOk result (λ _. text.new.items ≡ text.old.items ++ statement_text statement.now) }
    ensures few { IfOk result (λ _. has_few_settings (Some statement.now) ≡ true) }
{
    match statement {
        Statement::Segment { name, base } => {
            push_named(text, b"segment ", name)?;
            match base {
                Some(base) => push_numbered(text, b" at ", u64::from(*base)),
                None => Ok(()),
            }
        }
        Statement::Order {
            function,
            operand,
            length,
        } => push_order(text, *function, operand, *length),
        Statement::Number { value } => { push_numbered(text, b"word ", u64::from(value.value())) }
        Statement::Text { codes } => push_rows(text, b"text \"", codes),
        Statement::Fetch {
            routine,
            name,
            settings,
        } => {
            push_named(text, b"use ", routine)?;
            push_named(text, b" as ", name)?;
            push_settings(text, settings)
        }
        Statement::Enter { name } => push_named(text, b"enter ", name),
        Statement::Rows { codes } => push_rows(text, b"data \"", codes),
        Statement::Long { value } => push_numbered(text, b"long ", value.value()),
    }
}
