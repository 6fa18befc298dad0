//! Faults of the names of a line.
ghost use Rattle.std.specs.Prelude.{◌≡◌, ◌<◌, ◌||◌};
ghost use Rattle.std.specs.List.{list_any};
ghost use Rattle.ed_symbols.specs.NameTests.{any_operand, enters_unknown, is_far};
ghost use Rattle.ed_symbols.specs.NameTests.{is_no_address, is_unknown};
ghost use Rattle.ed_symbols.specs.Operands.{sum_of_places, operand_of};
ghost use Rattle.ed_symbols.specs.NameTests.{operands_cause};
ghost use Rattle.ed_symbols.specs.Operands.{operand_value, with_more};

use crate::symbols::{Definition, find_place};
use ed_lines::{Operand, Setting, SourceCause, Statement};

/// The value of an operand on a line of a segment.
pub fn value(symbols: &[Definition], segment: Option<u32>, operand: &Operand) -> Option<i64>
    ensures { result ≡ operand_value symbols.now segment operand.now }
{
    match operand {
        Operand::Number(number) => Some(i64::from(*number)),
        Operand::Label { name, plus } => {
            let place = find_place(symbols, segment, name)?;
            Some(i64::from(place) + i64::from(*plus))
        }
        Operand::Two {
            first,
            second,
            minus,
        } => {
            let first = i64::from(find_place(symbols, segment, first)?);
            let second = i64::from(find_place(symbols, segment, second)?);
            Some(if *minus {
                first - second
            } else {
                first + second
            })
        }
    }
}

/// Whether an operand with a name has a value outside 0 to 1023.
fn is_outside(symbols: &[Definition], segment: Option<u32>, operand: &Operand) -> bool
    ensures { result ≡ is_no_address symbols.now segment operand.now }
{
    match operand {
        Operand::Number(_) => false,
        Operand::Label { .. } | Operand::Two { .. } => match value(symbols, segment, operand) {
            Some(value) => value < 0 || 1023 < value,
            None => false,
        },
    }
}

/// The fault of the operands of settings.
fn settings_cause(
    symbols: &[Definition],
    segment: Option<u32>,
    settings: &[Setting],
) -> Option<SourceCause>
    ensures { result ≡ operands_cause (list_any (λ t. is_unknown symbols.now segment (operand_of t)) settings.now)
        (list_any (λ t. is_no_address symbols.now segment (operand_of t)) settings.now) }
{
    let mut outside = false;
    for setting in settings {
        if value(symbols, segment, &setting.operand).is_none() {
            return Some(SourceCause::LabelUnknown);
        }
        outside |= is_outside(symbols, segment, &setting.operand);
    }
    if outside {
        Some(SourceCause::AddressRange)
    } else {
        None
    }
}

/// The fault of the operands of a statement, or of the name of an `enter`.
pub(crate) fn statement_cause(
    symbols: &[Definition],
    segment: Option<u32>,
    statement: &Option<Statement>,
) -> Option<SourceCause>
    ensures { result ≡ operands_cause (any_operand (is_unknown symbols.now segment) statement.now
        || enters_unknown symbols.now statement.now) (any_operand (is_no_address symbols.now segment) statement.now) }
{
    match statement {
        Some(Statement::Order { operand, .. }) => {
            if value(symbols, segment, operand).is_none() {
                Some(SourceCause::LabelUnknown)
            } else if is_outside(symbols, segment, operand) {
                Some(SourceCause::AddressRange)
            } else {
                None
            }
        }
        Some(Statement::Fetch { settings, .. }) => settings_cause(symbols, segment, settings),
        Some(Statement::Enter { name }) => {
            if find_place(symbols, None, name).is_none() {
                Some(SourceCause::LabelUnknown)
            } else {
                None
            }
        }
        _ => None,
    }
}
