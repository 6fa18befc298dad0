//! Runs: the machine, order by order, onto a paper, and the settings of a run.
//!
//! Contract: `run` is the definition's run, by `step` alone; a run has one ending. Depends on `ed_machine`.
#![tactic(auto)]

mod running;
mod settings;

pub use running::run;
pub use settings::{Settings, Window};
