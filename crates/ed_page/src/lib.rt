//! A static library for a web page: pictures of the machine in the run of a tape or a source, post-mortems, the rows
//! and items of tapes, what orders name, and the texts of rows, orders, tapes and listings.
//!
//! Contract: each picture and text is what the program answers to the same text, in the caller's buffers, and a run can
//! continue from a picture; every other answer has its cause. The exports keep no state. Depends on `ed_answers`, and
//! on `ed_notation`, `ed_initial1`, `ed_orders`, `ed_run` and `ed_report`.
#![tactic(auto)]

mod first_items;
mod items;
mod meanings;
mod papers;
mod pictures;
mod postmortem;
mod reply;
mod request;
mod resume;
mod running;
mod snapshot;
mod symbols;
mod texts;
mod writing;

pub use first_items::page_items1;
pub use items::page_items;
pub use meanings::{Meaning, page_meaning};
pub use papers::page_paper;
pub use pictures::{page_source, page_tape, page_tape1};
pub use postmortem::page_post_mortem;
pub use resume::page_go_on;
pub use symbols::{page_letter, page_order};
pub use texts::{page_listing, page_punch, page_source_rows, page_tape_rows};
pub use writing::{Lengths, NO_CODE, Registers};
