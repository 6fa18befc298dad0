//! The lines of a script. Each line says a command.
ghost use Rattle.std.specs.Prelude.{◌≡◌};
ghost use Rattle.ed_words.specs.Decimals.{number_within};
ghost use Rattle.ed_stepper.specs.Private.CommandReading.{session_command, of_two};
ghost use Rattle.ed_stepper.specs.Private.CommandReading.{shown_command, show_command};

use crate::fronts::{first_part, spells};
use crate::moves::MoveTarget;
use ed_words::number_within;

/// What a line of a script does.
#[derive(Clone, Copy)]
pub(crate) enum SessionCommand {
    /// Nothing.
    Nothing,
    /// Moves the session forward.
    Move(MoveTarget),
    /// Moves it back by this number of orders.
    Back(u32),
    /// Moves it forward by this number of orders, and writes the letter of each.
    Trace(u32),
    /// Lists the words from the first location to the second.
    Show(u16, u16),
    /// Shows the accumulator, in units of 2^-70.
    Accumulator,
    /// Shows the multiplier, in units of 2^-34.
    Multiplier,
    /// Shows the last printed code.
    LastPrinted,
}

/// The command that a line says, if it says one.
pub(crate) fn command_of(line: &[u8]) -> Option<SessionCommand>
    ensures { result ≡ session_command line.now }
{
    let Some((word, rest)) = first_part(line) else {
        return Some(SessionCommand::Nothing);
    };
    let Some((second, rest)) = first_part(rest) else {
        let entry = SessionCommand::Move(MoveTarget::Entry);
        return spells(word, b"entry").then_some(entry);
    };
    let Some((third, rest)) = first_part(rest) else {
        return of_two(word, second);
    };
    if first_part(rest).is_none() && spells(word, b"show") {
        window(second, third)
    } else {
        None
    }
}

/// The command of two parts.
fn of_two(word: &[u8], argument: &[u8]) -> Option<SessionCommand>
    ensures { result ≡ of_two word.now argument.now }
{
    if spells(word, b"go") {
        let orders = number_within(argument, 1, 100_000_000)?;
        Some(SessionCommand::Move(MoveTarget::Orders(u64::from(orders))))
    } else if spells(word, b"to") {
        let address = number_within(argument, 0, 1023)?;
        Some(SessionCommand::Move(MoveTarget::Address(address as u16)))
    } else if spells(word, b"back") {
        number_within(argument, 0, 100_000_000).map(SessionCommand::Back)
    } else if spells(word, b"trace") {
        number_within(argument, 1, 10_000).map(SessionCommand::Trace)
    } else if spells(word, b"show") {
        shown(argument)
    } else {
        None
    }
}

/// The command `show` with one part.
fn shown(argument: &[u8]) -> Option<SessionCommand>
    ensures { result ≡ shown_command argument.now }
{
    if spells(argument, b"acc") {
        Some(SessionCommand::Accumulator)
    } else if spells(argument, b"mult") {
        Some(SessionCommand::Multiplier)
    } else if spells(argument, b"last") {
        Some(SessionCommand::LastPrinted)
    } else {
        window(argument, argument)
    }
}

/// The command that lists the words from the location that one part spells to that of another.
fn window(first: &[u8], last: &[u8]) -> Option<SessionCommand>
    ensures { result ≡ show_command (number_within 0 1023 first.now) (number_within 0 1023 last.now) }
{
    match (number_within(first, 0, 1023), number_within(last, 0, 1023)) {
        (Some(first), Some(last)) if first <= last => {
            Some(SessionCommand::Show(first as u16, last as u16))
        }
        _ => None,
    }
}
