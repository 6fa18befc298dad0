//! Locations and names of a source: its symbol table, the location of each line, and the faults of its names.
//!
//! Contract: the location of every line and name, or the first fault of names. A line's location follows from the words
//! of the lines before it, and a name's from its first definition. One sentence says each fault. Depends on `ed_words`,
//! `ed_syntax` and `ed_library`.
#![tactic(auto)]

mod faults;
mod location_counter;
mod places;
mod symbols;

pub use faults::value;
pub use location_counter::{LocationCounter, even};
pub use places::{Places, resolve};
pub use symbols::{Definition, find_definition, find_place, is_local};
