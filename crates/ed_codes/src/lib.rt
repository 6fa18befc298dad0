//! Codes and tape text: the rows of a tape, the bytes that spell them, and the text of a tape.
//!
//! Contract: the rows of a text, or its one fault at its offset. A code is below 32, and spelling is the table of
//! letters, digits and signs. Depends on std and `thiserror`.
#![tactic(auto)]

mod code;
pub mod letters;
mod tape;

pub use code::{Code, byte_of, row_of_byte};
pub use tape::{TextFault, tape_of_text};
