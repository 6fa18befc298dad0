//! The teleprinter: the bytes that printed codes give in each shift.
//!
//! Contract: the bytes of a code in the shift set by the latest shift code. Depends on `ed_codes` and `arrayvec`.
#![tactic(auto)]

mod printer;

pub use printer::{Printer, Shift};
