//! Whole programs with a law: for each a call that gives its source, or its tape, with the data put in.
//!
//! Contract: the text of a program for its data, and what `run` (for a tape, `tape`, `tape1` or `parts`) prints for all
//! of them. The printed text is said in plain mathematics, with the number of orders and the status. Depends on
//! `ed_top`.
#![tactic(auto)]

mod add;
mod calendar;
mod celsius;
mod checked;
mod decimals;
mod difference;
mod filled;
mod fraction;
mod greatest;
mod hello;
mod interlude;
mod letters;
mod lists;
mod mirror;
mod multiply;
mod refusal;
mod sort;
mod squares;
mod total;

pub use add::add_program;
pub use calendar::calendar_program;
pub use celsius::celsius_program;
pub use checked::checked_program;
pub use decimals::decimals_program;
pub use difference::difference_program;
pub use fraction::fraction_program;
pub use greatest::greatest_program;
pub use hello::hello_program;
pub use interlude::interlude_program;
pub use mirror::mirror_program;
pub use multiply::multiply_program;
pub use refusal::Refusal;
pub use sort::sort_program;
pub use squares::squares_program;
pub use total::total_program;
