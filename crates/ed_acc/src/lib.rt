//! The accumulator: a number of 71 binary digits, and the arithmetic of the orders on it.
//!
//! Contract: each call is the arithmetic of its order on 71 digits. Sums are modulo 2^71. Depends on `ed_words`.
#![tactic(auto)]

mod acc;

pub use acc::Acc;
