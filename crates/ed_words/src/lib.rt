//! Words, order fields, sizes: numbers of 17 and 35 binary digits, the fields of an order word, the size of a store,
//! and decimal numbers.
//!
//! Contract: fields and halves are exact and inverse to each other. Depends on std alone.
#![tactic(auto)]

mod decimals;
mod long;
mod memory;
mod order;
pub mod order_words;
mod size;
mod word;

pub use decimals::{number, number_within};
pub use long::{Halves, Long};
pub use memory::NoMemory;
pub use order::Order;
pub use size::{Size, fits};
pub use word::Word;
