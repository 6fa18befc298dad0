//! Commands that write while they run: the trace of a tape, and the report on a tape in parts.
//!
//! Contract: each line is written as it comes, and what is on `out` is the text of the definition, or its first bytes if a
//! write fails or no memory is found. Depends on `ed_devices`, `ed_stepper` and `ed_interlude`.
#![tactic(auto)]

mod reports;
mod traces;

pub use reports::parts;
pub use traces::trace;
