//! Tests: the lines, locations and names of a source, its linking, how it is written, and the texts of the library.
//!
//! Expected values come from the grammar, the rules of places and the written texts of the routines. Depends on
//! `ed_codes`, `ed_notation`, `ed_syntax`, `ed_writer`, `ed_library`, `ed_symbols`, `ed_link` and `arrayvec`.
#![tactic(auto)]

#[cfg(test)]
mod faults;
#[cfg(test)]
mod linking;
#[cfg(test)]
mod operands;
#[cfg(test)]
mod places;
#[cfg(test)]
mod printed_forms;
#[cfg(test)]
mod routines;
#[cfg(test)]
mod sources;
#[cfg(test)]
mod support;
#[cfg(test)]
mod written;
