//! The laws above the program: what its commands have to do with one another.
//!
//! Contract: no function; the laws are the theorems of `proofs/Theorems.antt`. Each has its statement in `specs/`, or in
//! those of the crate below that it speaks of. Depends on `ed_top`.
#![tactic(auto)]
