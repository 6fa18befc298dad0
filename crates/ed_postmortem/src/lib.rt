//! The post-mortem: a tape that prints the words which a program left in the store, one line a word.
//!
//! Contract: the codes of the words in the store at the call, at their cost, or the one refusal. It is read by the
//! Initial Orders and run, order by order; a refusal changes nothing. Depends on `ed_initial` and `ed_run`.
#![tactic(auto)]

mod fault;
mod printing;
mod tape;

pub use fault::PmFault;
pub use printing::post_mortem;
