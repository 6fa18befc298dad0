//! One order, Start, paper: the machine, its state, and the paper that it prints on.
//!
//! Contract: `step` is the order table, `obey_next` is a given number of steps, `start` is Start. No other call
//! writes a word of the store or raises the orders done, and `reached` makes a machine only in a state that these lead
//! to. Depends on `ed_acc`, `ed_store`, `ed_orders` and `ed_codes`.
#![tactic(auto)]

mod ending;
mod machine;
mod paper;
mod turn;

pub use ending::Ending;
pub use machine::{Machine, Parts};
pub use paper::Paper;
pub use turn::Turn;
