//! The writer of sources: the one text of each program.
//!
//! Contract: the text of a program, which says exactly its lines, so that `parse` reads the program back; or the reason
//! that it is not written. A program is not written if `version 2` has no line in it, and then no text says its lines, or
//! if the text of a line is too long. Depends on `ed_syntax`, `ed_words`, `ed_codes`, `arrayvec` and `itoa`.
#![tactic(auto)]

mod fault;
mod operands;
mod program;
mod statements;
mod text;

pub use fault::WriteFault;
pub use program::text_of_program;
