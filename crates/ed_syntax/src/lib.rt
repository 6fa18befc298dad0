//! The source language: the forms of lines in both versions, and the reading of a text.
//!
//! Contract: the lines that a text spells, or its first fault of form. What a line says is a relation with one row for
//! each form, and each text has lines or a fault, and never both. Each form has a text, which `ed_writer` writes. Depends
//! on `ed_lines`, `ed_codes` and `arrayvec`.
#![tactic(auto)]

mod form;
mod form_fault;
mod operands;
mod parts;
mod source;
mod statements;
mod terms;
mod version;

pub use ed_lines::{Line, Name, Operand, Program, Setting, SourceCause, SourceFault, Statement};
pub use source::parse;
pub use version::Version;
