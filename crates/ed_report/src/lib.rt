//! Texts that are written: printed papers, listings, the library, traces, and the lines about faults, entries and
//! endings.
//!
//! Contract: each text is exact to the byte. Depends on `ed_machine`, `ed_printer`, `ed_notation`, `ed_initial1`,
//! `ed_library` and `ed_syntax`.
#![tactic(auto)]

mod ending;
mod entry;
mod fault;
mod first_fault;
mod library;
mod lines;
mod paper;
mod script;
mod text;
mod trace;

pub use ending::{ending_text, entered_text};
pub use entry::{entry_text, returned_text};
pub use fault::{part_fault, source_fault, tape_fault, text_fault};
pub use first_fault::tape1_fault;
pub use library::library_text;
pub use lines::listing;
pub use paper::{paper_text, papers_text};
pub use script::{back_too_far, bad_command, no_text};
pub use text::bytes_of_text;
pub use trace::trace_text;
