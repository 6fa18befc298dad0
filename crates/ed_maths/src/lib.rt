//! Division and square root on tape: `divide` and `root`, run on a machine that holds them.
//!
//! Contract: quotient and remainder, root, each at its exact number of orders. Nothing else changes. Depends on
//! `ed_routines`.
#![tactic(auto)]

mod division;
mod square;

pub use division::divide_integers;
pub use square::square_root;
