//! The answers to a tape, and what a reply is: the run or the check of a tape, for either Initial Orders.
//!
//! Contract: the reply to a tape and to a tape of May 1949 is that of the definition; a text that is refused has a reply
//! too. The Initial Orders are obeyed one by one from Start. A reply is two texts and a status. Depends on
//! `ed_postmortem` and `ed_report`.
#![tactic(auto)]

mod check;
mod first_orders;
mod input;
mod reply;
mod rows;
mod running;
mod tapes;

pub use check::{check_from_cleared, check_tape};
pub use first_orders::{check_tape1, run_rows1, tape1};
pub use input::{INPUT_BYTES, TOO_LONG};
pub use reply::{Rejection, Reply};
pub use rows::rows_of;
pub use running::{
    FinishedRun, post_mortem_reply, ran_reply, run_machine, run_rows, started, status_of,
    window_printed,
};
pub use tapes::tape;
