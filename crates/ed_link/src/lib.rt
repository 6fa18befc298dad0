//! Linked program, punched tape, faults of meaning: what a source becomes.
//!
//! Contract: Ok exactly if no line has a fault; from every store the tape leads to the linked program. One sentence
//! says each fault. The tape is well formed, by the fold of the notation. Depends on `ed_words`, `ed_codes`,
//! `ed_notation`, `ed_syntax`, `ed_library` and `ed_symbols`.
#![tactic(auto)]

mod building;
mod faults;
mod linked;
mod linking;
mod operands;
mod punching;
mod words;

pub use linked::{LabelPlace, Linked, Placed};
pub use linking::link;
