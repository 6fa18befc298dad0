//! Tests: whole runs of the program, and its devices; each program with a law compared with a plain computation.
//!
//! Expected values come from the description of the machine and from worked examples, never from the program's own
//! output. Each program with a law is run on twenty data, at the ends of their ranges too, and is refused for data just
//! out of range. Depends on the crates of the program and on `ed_programs`.
#![tactic(auto)]

#[cfg(test)]
mod calendar;
#[cfg(test)]
mod calls;
#[cfg(test)]
mod check_tape;
#[cfg(test)]
mod checks;
#[cfg(test)]
mod demo;
#[cfg(test)]
mod devices;
#[cfg(test)]
mod faults;
#[cfg(test)]
mod first_orders;
#[cfg(test)]
mod guests;
#[cfg(test)]
mod lines;
#[cfg(test)]
mod linking;
#[cfg(test)]
mod lists;
#[cfg(test)]
mod parts;
#[cfg(test)]
mod post_mortems;
#[cfg(test)]
mod programs;
#[cfg(test)]
mod sources;
#[cfg(test)]
mod standard;
#[cfg(test)]
mod steps;
#[cfg(test)]
mod support;
#[cfg(test)]
mod tapes;
#[cfg(test)]
mod words;
