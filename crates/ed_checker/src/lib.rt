//! The checking routine: it obeys the orders of another program, its guest, one by one, and prints the function of
//! each.
//!
//! Contract: a turn obeys one order of the guest as the order table does, and prints its function. A turn takes at most
//! 35 orders, and leaves the routine ready for the next one. Depends on `ed_machine`, `ed_run`, `ed_library` and
//! `ed_routines`.
#![tactic(auto)]

mod allowed;
mod checking;
mod guest;
mod places;
mod standing;

pub use allowed::guest_allowed;
pub use checking::{Checking, check_one};
pub use places::{FETCH, HIGH, LOW, MIDDLE};
pub use standing::checker_stands;
