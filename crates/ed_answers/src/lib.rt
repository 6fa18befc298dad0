//! The answers to a source: its run, its tape, its listing, and the machine at its entry.
//!
//! Contract: the reply to a source is that of the definition; the machine at its entry is in the stated state. The
//! Initial Orders are obeyed one by one from Start, and print nothing. A source that is refused has a reply too. Depends
//! on `ed_headline`.
#![tactic(auto)]

mod entering;
mod source;

pub use entering::enter;
pub use source::{NotedRun, linked_of, list, list_linked, punch, run, run_source};
