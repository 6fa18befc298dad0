//! Sources that the program makes: one for each call of a library routine, and a large one from a number.
//!
//! Contract: each source is exact to the byte, and what its run prints, in how many orders, is said of it. Lemmas for
//! other crates: from the text of a source with data to its lines, its words at the entry, its calls of routines and its
//! stop. Depends on `ed_headline`, `ed_maths` and `ed_checker`.
#![tactic(auto)]

mod calls;
mod demo;
mod filling;

pub use calls::call_source;
pub use demo::demo_source;
pub use filling::filled;
