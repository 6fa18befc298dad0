//! The Initial Orders: the 41 words that the starter places in the store, and what they do with a tape.
//!
//! Contract: the listing; a well-formed tape is loaded as it means, at its cost. This is the loading theorem: the
//! orders are obeyed one by one, from any store, on a machine of either size. Depends on `ed_machine` and
//! `ed_notation`.
#![tactic(auto)]

mod listing;
mod loading;
mod resting;
mod starting;
mod turns;

pub use listing::{order, orders};
pub use loading::{Loaded, load, obey_orders};
pub use resting::{Rested, to_rest};
pub use starting::{begin, is_started};
pub use turns::is_entering;
