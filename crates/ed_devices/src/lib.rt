//! What a command reads and writes on devices: its input, the text of its reply, and its last line.
//!
//! Contract: the whole input, or the reason that it was not read; all of a reply's text on `out`, or its first bytes
//! and one fault; the last line on `note`, and the status. How a program ends on its devices is defined here too. Depends
//! on `ed_io` and `ed_tapes`.
#![tactic(auto)]

mod closing;
mod devices;

pub use closing::{end_carried, end_unread, report_no_memory};
pub use devices::{InputStop, Rest, input_of, write, write_note};
