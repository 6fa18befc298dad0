//! Sessions, scripts and traces: a machine that is moved on by orders and back, the script that moves it, and the letters
//! of the orders of a run, which are written during the run.
//!
//! Contract: a session is in the state after its orders; a script's text, or its refusal; the whole trace of a run, or the
//! beginning of it if a write fails. Each move ends at the least number of orders at which one of its ends holds. What a
//! script says is a relation with one row for each form: each text says one list of commands, or has one first bad line.
//! At most one line of a trace is held in memory. Depends on `ed_run`, `ed_initial`, `ed_syntax`, `ed_io` and `ed_report`.
#![tactic(auto)]

mod checkpoints;
mod commands;
mod fronts;
mod inputs;
mod lines;
mod moves;
mod script;
mod session;
mod sheet;
mod tracing;
mod walk;

pub use inputs::{Divided, TextKind, divide, line_count};
pub use moves::{BackFault, MoveEnd, Moved};
pub use script::{ScriptFault, bad_line, run_script};
pub use session::{NewFault, Session, Traced};
pub use tracing::trace_run;
