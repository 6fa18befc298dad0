//! The loader's notation: items, the rows that spell them, what they do and cost, and the faults of a tape.
//!
//! Contract: accepted exactly if well formed, with the fold's entry, cost and words; otherwise the one fault. The
//! notation is a fold over items and mentions no machine. Spelled items are read back, and no others. Depends on
//! `ed_words`, `ed_store` and `ed_codes`.
#![tactic(auto)]

mod cause;
mod checked;
mod checking;
mod item;
mod kind;
mod reader;
mod spelling;

pub use cause::{TapeCause, TapeFault};
pub use checked::Checked;
pub use checking::{FIRST_DIRECTIVE, check, check_from};
pub use item::{Item, spellable};
pub use spelling::{rows_of_items, text_of_items};
