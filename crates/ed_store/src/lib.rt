//! Locations and sandwich digits: the store of the machine.
//!
//! Contract: each call reads or changes what it names, and nothing else. The store is seen as a list of 1,024 words and
//! a list of 512 sandwich digits; the code keeps 512 cells of 35 digits. Depends on `ed_words`.
#![tactic(auto)]

mod store;

pub use store::{LOCATIONS, Store};
