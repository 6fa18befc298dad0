//! The program as one call: words, an input and two outputs in, a status out.
//!
//! Contract: the contract of `edsac`. It is exact for every list of words and every input, over any source and any two
//! sinks: the status and both texts are those of the definition, and the answers for a fault or for no memory come with
//! their cause and with what was written. The definition gives each input one outcome. Further clauses are the headline
//! and what `call` prints. The laws between the commands stand above, in `ed_laws`. Depends on all crates below.
#![tactic(auto)]

mod calls;
mod commands;
mod demo;
mod library;
mod program;
mod step;

pub use ed_devices::report_no_memory;
pub use program::edsac;
