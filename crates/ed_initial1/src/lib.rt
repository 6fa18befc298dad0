//! Initial Orders 1 of May 1949: the 31 words, what a tape in their notation means, and what they do with it.
//!
//! Contract: a tape without a fault is loaded as its items mean, at its cost; every other tape has one fault. The
//! orders are obeyed one by one, and `check1` answers the fault. Depends on `ed_initial` and `ed_notation`.
#![tactic(auto)]

mod cause;
mod checked;
mod checking;
mod listing;
mod loading;
mod reader;
mod starting;

pub use cause::{Tape1Cause, Tape1Fault};
pub use checked::Checked1;
pub use checking::check1;
pub use listing::orders1;
pub use loading::{Loaded1, load1};
pub use starting::is_started1;
