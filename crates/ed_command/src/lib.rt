//! The command line: its words, read as one command with its settings.
//!
//! Contract: the command exactly if the words are a line of the table, its numbers in range. Other words are a usage
//! fault. `clap` reads the words; the definition is a table of lines. Depends on `ed_library` for the values of a call
//! and on `ed_run` for the settings of a run.
#![tactic(auto)]

mod command;
mod filter;
mod lines;
mod matching;
mod options;
mod reading;
mod windows;

pub use command::{Action, Command};
pub use reading::{CommandFault, read_words};
