ghost use Rattle.std.specs.Prelude.{◌≡◌, ◌≤◌, IfSome, map, option_map};
ghost use Rattle.ed_command.specs.Held.{action_by, call_with, line_in, options_in};
ghost use Rattle.ed_command.specs.Lines.{call_of, command_of, division, line_named, lines};

use crate::command::{Action, Command};
use crate::options::Options;
use ed_library::Call;
use ed_words::{number, number_within};

/// All the options. The commands that run a tape or a source have them.
pub(crate) const OPTIONS: &[&str] = &["limit", "resume", "post-mortem", "store"];

/// The one option of the commands that run a script, a tape in parts, or a source of the program's own.
const LIMIT: &[&str] = &["limit"];

/// The one option of the commands that run nothing and depend on the size of the store.
const STORE: &[&str] = &["store"];

/// What a command does, by the arguments that it takes.
#[derive(Clone, Copy)]
pub(crate) enum LineAction {
    /// An action that takes no argument.
    Alone(Action),
    /// `call`: a name and its numbers.
    Call,
    /// `demo`: one number, 1 to 112.
    Demo,
}

use LineAction::Alone;

/// A line of the table.
#[derive(Clone, Copy)]
struct TableLine {
    /// Its first word.
    word: &'static str,
    /// What it does.
    action: LineAction,
    /// The options that it may have.
    options: &'static [&'static str],
}

/// A row of the table of lines.
macro_rules! row {
    ($word:literal $action:expr, $options:expr) => {
        TableLine {
            word: $word,
            action: $action,
            options: $options,
        }
    };
}

/// The lines of the program.
const LINES: [TableLine; 13] = [
    row!("tape" Alone(Action::Tape), OPTIONS),
    row!("check-tape" Alone(Action::CheckTape), STORE),
    row!("run" Alone(Action::Run), OPTIONS),
    row!("punch" Alone(Action::Punch), STORE),
    row!("listing" Alone(Action::Listing), STORE),
    row!("step" Alone(Action::Step), LIMIT),
    row!("trace" Alone(Action::Trace), &["limit", "resume", "store"]),
    row!("call" LineAction::Call, LIMIT),
    row!("library" Alone(Action::Library), &[]),
    row!("demo" LineAction::Demo, LIMIT),
    row!("parts" Alone(Action::Parts), LIMIT),
    row!("tape1" Alone(Action::Tape1), &["limit", "resume"]),
    row!("check-tape1" Alone(Action::CheckTape1), &[]),
];

/// The command of the words that belong to no option, and the options.
pub(crate) fn command_of(words: &[&str], options: &Options<'_>) -> Option<Command>
    ensures { result ≡ command_of (map (λ w. w.now) words.now) (options_in options.now) }
{
    let [word, arguments @ ..] = words else {
        return None;
    };
    let line = line_named(word)?;
    if !options.has_only(line.options) {
        return None;
    }
    Some(Command {
        action: action_by(line.action, arguments)?,
        settings: options.settings()?,
    })
}

/// The line that begins with this word.
fn line_named(word: &str) -> Option<TableLine>
    ensures { option_map line_in result ≡ line_named lines word.now }
{
    for line in &LINES {
        if word == line.word {
            return Some(*line);
        }
    }
    None
}

/// The action with these arguments, if it takes them.
fn action_by(action: LineAction, arguments: &[&str]) -> Option<Action>
    ensures { result ≡ action_by action (map (λ a. a.now) arguments.now) }
{
    match (action, arguments) {
        (Alone(action), []) => Some(action),
        (LineAction::Call, _) => Some(Action::Call(call_of(arguments)?)),
        (LineAction::Demo, [text]) => Some(Action::Demo(number_within(text.as_bytes(), 1, 112)?)),
        _ => None,
    }
}

/// The call of a name and its numbers.
fn call_of(arguments: &[&str]) -> Option<Call>
    ensures { result ≡ call_of (map (λ a. a.now) arguments.now) }
{
    match arguments {
        ["newline"] => Some(Call::NewLine),
        ["divide", n, by] => {
            division(number(n.as_bytes()), number_within(by.as_bytes(), 1, 32767))
        }
        [name, text] => call_with(name, number_within(text.as_bytes(), 0, 65535)? as u16),
        _ => None,
    }
}

/// The call of this name that takes one number.
fn call_with(name: &str, number: u16) -> Option<Call>
    ensures { result ≡ call_with name.now number }
{
    match name {
        "print" => Some(Call::Print(number)),
        "read" => Some(Call::Read(number)),
        "root" => Some(Call::Root(number)),
        "check" => Some(Call::Check(number)),
        _ => None,
    }
}

/// A division whose quotient is below 65,536.
fn division(n: Option<u32>, by: Option<u32>) -> Option<Call>
    requires { IfSome by (λ b. b ≤ 32767) }
    ensures { result ≡ division n by }
{
    let n = n?;
    let by = by?;
    if n < 65536 * by {
        Some(Call::Divide { n, by: by as u16 })
    } else {
        None
    }
}
