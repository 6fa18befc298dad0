//! What a source means, and the headline: the verdict on a source, the state at its entry, and what it is answered.
//!
//! Contract: no function; each source is accepted with one list of lines or refused for one fault, and the Initial Orders
//! on the tape of an accepted one lead to the state at its entry at the stated cost, cell by cell. These are definitions
//! and their theorems. Depends on `ed_syntax`, `ed_link` and `ed_tapes`.
#![tactic(auto)]
