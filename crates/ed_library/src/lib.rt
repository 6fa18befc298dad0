//! The catalogue of routines, and a call of one: the routines that a source may use, by their names, and their words at a
//! base.
//!
//! Contract: the readers give what the tables hold; an image's word is the item's at its base; the ranges of a call's
//! numbers. θ is twice the base, and the preset parameters are those of the `use`. Each routine of the catalogue can be
//! linked, and their names are in order. Depends on `ed_words`, `ed_codes`, `ed_notation` and `arrayvec`.
#![tactic(auto)]

mod call;
mod catalogue;
mod images;
mod library;
mod tables;

pub use call::Call;
pub use catalogue::{catalogue_size, find, routine};
pub use images::{Parameters, image_word};
pub use library::Routine;
pub use tables::{CHECK, DIVIDE, NEWLINE, PRINT, READ, ROOT, TableRow};
