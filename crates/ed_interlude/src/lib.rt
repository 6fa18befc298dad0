//! Tapes whose programs return to the Initial Orders: the loads that they resume, and the report on such a tape during
//! the run.
//!
//! Contract: if the rest of a tape is well formed, it is loaded as it means, from the directive that the program left; a
//! tape in parts has one report, and its lines are written, or the beginning of them if a write fails. The report has a
//! line for each entry and each return. The Initial Orders lead every part to its entry. Depends on `ed_initial`,
//! `ed_run`, `ed_io` and `ed_report`.
#![tactic(auto)]

mod part;
mod program;
mod resuming;
mod returning;
mod tape;

pub use resuming::{check_rest, resume};
pub use returning::{directive, is_returned};
pub use tape::{PartsEnd, run_parts};
