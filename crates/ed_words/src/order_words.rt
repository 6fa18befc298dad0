//! The words of orders with the address 0, each named by the letter of its function and by F for a short order or D for
//! a long one. The word of an order with the address n is `2·n` more. (The codes of the letters are those of Wilkes,
//! Wheeler and Gill 1951.)

/// Jumps if the accumulator isn't negative.
pub const E_F: u32 = 12_288;

/// Shifts to the right by 15 places.
pub const R_F: u32 = 16_384;

/// Shifts to the right by 1 place.
pub const R_D: u32 = 16_385;

/// Transfers the upper 17 digits of the accumulator, and clears it.
pub const T_F: u32 = 20_480;

/// Transfers the upper 35 digits of the accumulator, and clears it.
pub const T_D: u32 = 20_481;

/// Transfers the upper 17 digits of the accumulator, and keeps it.
pub const U_F: u32 = 28_672;

/// Transfers the upper 35 digits of the accumulator, and keeps it.
pub const U_D: u32 = 28_673;

/// Reads a row of the tape.
pub const I_F: u32 = 32_768;

/// Prints a code.
pub const O_F: u32 = 36_864;

/// Subtracts a short word.
pub const S_F: u32 = 49_152;

/// Subtracts a long word.
pub const S_D: u32 = 49_153;

/// Stops.
pub const Z_F: u32 = 53_248;

/// Sets the multiplier to a short word.
pub const H_F: u32 = 86_016;

/// Shifts to the left by 13 places.
pub const L_F: u32 = 102_400;

/// Shifts to the left by 1 place.
pub const L_D: u32 = 102_401;

/// Jumps if the accumulator is negative.
pub const G_F: u32 = 110_592;

/// Adds a short word.
pub const A_F: u32 = 114_688;

/// Adds a long word.
pub const A_D: u32 = 114_689;

/// Collates with a short word.
pub const C_F: u32 = 122_880;

/// Multiplies by a short word, and adds.
pub const V_F: u32 = 126_976;
