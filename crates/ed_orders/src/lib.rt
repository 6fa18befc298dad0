//! Kinds, shift places, order texts: which functions are orders, how far a shift order shifts, and an order as text.
//!
//! Contract: which function is which order; how far a shift order shifts. The kinds are the 18 orders by the codes of
//! their letters, and the places of a shift are counted over the whole word. Depends on `ed_words`, `ed_codes`,
//! `arrayvec` and `itoa`.
#![tactic(auto)]

mod kind;
mod shift;
mod text;

pub use kind::{Kind, kind_of};
pub use shift::places;
pub use text::order_text;
