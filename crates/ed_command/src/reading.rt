ghost use Rattle.std.specs.Prelude.{◌≡◌, IfOk, IfSome, codes, map, string_bytes};
ghost use Rattle.clap.specs.Words.{found_of};
ghost use Rattle.ed_command.specs.Answers.{AnswersWords};
ghost use Rattle.ed_command.specs.Found.{found_values};
ghost use Rattle.ed_command.specs.Lines.{command_of, command_line};
ghost use Rattle.ed_command.specs.Settings.{options_by};
ghost use Rattle.ed_command.specs.Held.{options_in};
ghost use Rattle.ed_command.specs.Ranges.{IsInRange};

use crate::command::Command;
use crate::filter::are_plain_or_long;
use crate::lines::command_of;
use crate::matching::matches_of;
use crate::options::Options;
use clap::ArgMatches;
use std::alloc::Global;

/// Why there is no command.
#[derive(Clone, Copy)]
pub enum CommandFault {
    /// The words are not a command.
    Usage,
    /// No memory was found.
    Memory,
}

/// Reads the words after the program's name. For any words, no memory may be found.
pub fn read_words(alloc: Global, words: &[String]) -> Result<Command, CommandFault>
    ensures is { AnswersWords (command_line (map string_bytes words.now)) result }
    ensures ranges { IfOk result IsInRange }
{
    if !are_plain_or_long(words) {
        return Err(CommandFault::Usage);
    }
    let matches = matches_of(alloc, words)?;
    found_command(&matches).ok_or(CommandFault::Usage)
}

/// The command that was found.
fn found_command(matches: &ArgMatches<'_>) -> Option<Command>
    ensures is { result ≡ command_of (found_values matches.now (codes "words"))
        (options_by (found_values matches.now)) }
    ensures ranges { IfSome result IsInRange }
{
    command_of(
        matches.get_raw("words").unwrap_or(&[]),
        &found_options(matches),
    )
}

/// The values of the options that were found.
fn found_options<'a>(matches: &'a ArgMatches<'_>) -> Options<'a>
    ensures { options_in result ≡ options_by (found_values matches.now) }
{
    Options {
        limits: matches.get_raw("limit").unwrap_or(&[]),
        resumes: matches.get_raw("resume").unwrap_or(&[]),
        post_mortems: matches.get_raw("post-mortem").unwrap_or(&[]),
        stores: matches.get_raw("store").unwrap_or(&[]),
    }
}
