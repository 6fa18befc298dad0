//! The lines of a source as values: names, operands, statements and programs, and the causes of faults.
//!
//! Contract: a name is its text; a program has its lines numbered from 1, each of a form of its version with its numbers
//! in range. It has at most 2,000 lines. Depends on `ed_words`, `ed_codes` and `arrayvec`.
#![tactic(auto)]

mod fault;
mod name;
mod program;

pub use fault::{SourceCause, SourceFault};
pub use name::Name;
pub use program::{Line, Operand, Program, Setting, Statement};
