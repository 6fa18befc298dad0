//! The numbers of the codes (Wilkes, Wheeler and Gill 1951). Each has the name of its letter or sign, and a few also
//! have that of what the teleprinter does with them.

pub const P: u8 = 0;

pub const Q: u8 = 1;

pub const W: u8 = 2;

pub const E: u8 = 3;

pub const R: u8 = 4;

pub const T: u8 = 5;

pub const Y: u8 = 6;

pub const U: u8 = 7;

pub const I: u8 = 8;

pub const O: u8 = 9;

pub const J: u8 = 10;

/// π, spelled `#`.
pub const PI: u8 = 11;

pub const S: u8 = 12;

pub const Z: u8 = 13;

pub const K: u8 = 14;

/// Spelled `*`.
pub const ERASE: u8 = 15;

/// Spelled `.`.
pub const BLANK: u8 = 16;

pub const F: u8 = 17;

/// θ, spelled `@`.
pub const THETA: u8 = 18;

pub const D: u8 = 19;

/// φ, spelled `!`.
pub const PHI: u8 = 20;

pub const H: u8 = 21;

pub const N: u8 = 22;

pub const M: u8 = 23;

/// Δ, spelled `&`.
pub const DELTA: u8 = 24;

pub const L: u8 = 25;

pub const X: u8 = 26;

pub const G: u8 = 27;

pub const A: u8 = 28;

pub const B: u8 = 29;

pub const C: u8 = 30;

pub const V: u8 = 31;

/// The teleprinter prints digits and signs after it.
pub const FIGURE_SHIFT: u8 = PI;

/// The teleprinter prints letters after it.
pub const LETTER_SHIFT: u8 = ERASE;

/// The teleprinter moves back to the beginning of the line.
pub const CARRIAGE_RETURN: u8 = THETA;

/// The teleprinter moves the paper on by a line.
pub const LINE_FEED: u8 = DELTA;
