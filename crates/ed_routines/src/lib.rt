//! What the library's routines do: `newline`, `print` and `read`, run on a machine that holds them.
//!
//! Contract: digits printed, number read, new line, each at its exact number of orders. Nothing else changes. Depends
//! on `ed_library` and `ed_run`.
#![tactic(auto)]

mod back;
mod calling;
mod printing;
mod reading;
mod standing;

pub use back::Back;
pub use calling::return_address;
pub use printing::{new_line, print_integer};
pub use reading::{ReadBack, read_integer};
pub use standing::{has_image, stands};
