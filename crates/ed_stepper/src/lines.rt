//! One line of a script: what it does to a session, and what it writes.
ghost use Rattle.std.specs.Prelude.{◌≡◌, ◌≤◌, ◌+◌, ◌-◌, ◌++◌, ◌∷◌, [], IfOk, codes};
ghost use Rattle.std.specs.Fmt.{decimal};
ghost use Rattle.std.specs.List.{range_with_len};
ghost use Rattle.ed_report.specs.Listings.{listing};
ghost use Rattle.ed_report.specs.Traces.{trace_text};
ghost use Rattle.ed_stepper.specs.Scripts.{end_word, last_word, move_line};
ghost use Rattle.ed_stepper.specs.Private.Commands.{IsCommandInRange};
ghost use Rattle.ed_stepper.specs.Private.Lines.{LineEnds};

use crate::commands::SessionCommand;
use crate::moves::{BackFault, MoveEnd, Moved};
use crate::session::{Session, Traced};
use ed_machine::Machine;
use ed_report::{bytes_of_text, listing, trace_text};
use ed_words::NoMemory;
use std::alloc::Global;

/// Does what a line says, and answers what it writes.
pub(crate) fn carry_out(
    alloc: Global,
    session: &mut Session,
    command: SessionCommand,
) -> Result<Vec<u8>, BackFault>
    requires { IsCommandInRange command }
    ensures { LineEnds command session.old result session.new }
{
    let text = match command {
        SessionCommand::Nothing => Ok(Vec::new(alloc)),
        SessionCommand::Move(aim) => move_line(alloc, session.advance(aim)),
        SessionCommand::Back(orders) => move_line(alloc, session.back(u64::from(orders))?),
        SessionCommand::Trace(orders) => trace_lines(alloc, &session.trace(u64::from(orders))?),
        SessionCommand::Show(first, last) => show(alloc, session.machine(), first, last),
        SessionCommand::Accumulator => number_line(alloc, "acc", session.machine().acc()),
        SessionCommand::Multiplier => {
            let number = session.machine().multiplier().value();
            number_line(alloc, "mult", u128::from(number))
        }
        SessionCommand::LastPrinted => last_line(alloc, session.machine()),
    };
    Ok(text?)
}

/// The letter of each order that a move obeyed, and the line of the move.
fn trace_lines(alloc: Global, traced: &Traced) -> Result<Vec<u8>, NoMemory>
    ensures { IfOk result (λ bytes. bytes.items ≡ trace_text traced.now.functions.items
        ++ move_line traced.now.moved.at traced.now.moved.done traced.now.moved.end) }
{
    let mut text = trace_text(alloc, &traced.functions)?;
    let line = move_line(alloc, traced.moved)?;
    text.extend_from_slice(&line)?;
    Ok(text)
}

/// The line that reports a move.
fn move_line(alloc: Global, moved: Moved) -> Result<Vec<u8>, NoMemory>
    ensures { IfOk result (λ bytes. bytes.items ≡ move_line moved.at moved.done moved.end) }
{
    let Moved { at, done, end } = moved;
    let word = end_word(end);
    bytes_of_text(format!(in alloc; "at {at} after {done}: {word}\n"))
}

/// The word of an end.
fn end_word(end: MoveEnd) -> &'static str
    ensures { result.now ≡ end_word end }
{
    match end {
        MoveEnd::Went => "went",
        MoveEnd::There => "there",
        MoveEnd::Entered => "entered",
        MoveEnd::Back => "back",
        MoveEnd::Stopped => "stopped",
        MoveEnd::NoOrder => "no order",
        MoveEnd::NoTape => "no tape",
        MoveEnd::Limit => "limit",
    }
}

/// The words from the first location to the last, a line each.
fn show(alloc: Global, machine: &Machine, first: u16, last: u16) -> Result<Vec<u8>, NoMemory>
    requires order { first ≤ last }
    requires within { last ≤ 1023 }
    ensures { IfOk result (λ bytes. bytes.items ≡ listing machine.now.store (range_with_len first (last + 1 - first))) }
{
    let places: Vec<u16> = (first..last + 1).collect(alloc)?;
    listing(alloc, machine.store(), &places)
}

/// A line with a name and a number.
fn number_line(alloc: Global, name: &str, number: u128) -> Result<Vec<u8>, NoMemory>
    ensures { IfOk result (λ bytes. bytes.items ≡ name.now ++ codes " " ++ decimal number ++ 10 ∷ []) }
{
    bytes_of_text(format!(in alloc; "{name} {number}\n"))
}

/// The line with the last printed code.
fn last_line(alloc: Global, machine: &Machine) -> Result<Vec<u8>, NoMemory>
    ensures { IfOk result (λ bytes. bytes.items ≡ codes "last " ++ last_word machine.now.last ++ 10 ∷ []) }
{
    match machine.last_printed() {
        Some(code) => number_line(alloc, "last", u128::from(code.value())),
        None => bytes_of_text(format!(in alloc; "last none\n")),
    }
}
