//! Tests: what the library's routines print, read, divide and take roots of, and what the checking routine obeys;
//! sessions and traces.
//!
//! Expected values come from the numbers themselves, from the machine that runs a guest alone, from the description of
//! scripts and from counts made by hand, never from the program's own output. Depends on the crates up to the routines,
//! and on `ed_stepper`.
#![tactic(auto)]

#[cfg(test)]
mod dividing;
#[cfg(test)]
mod every_number;
#[cfg(test)]
mod far;
#[cfg(test)]
mod following;
#[cfg(test)]
mod guests;
#[cfg(test)]
mod lines;
#[cfg(test)]
mod printing;
#[cfg(test)]
mod reading;
#[cfg(test)]
mod roots;
#[cfg(test)]
mod scripts;
#[cfg(test)]
mod support;
#[cfg(test)]
mod traces;
