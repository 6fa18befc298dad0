/// The offset at which each turn begins: its word is A c F, where c is the guest's counter. This project's own text.
pub const FETCH: u16 = 0;

/// The even offset of the long word that holds the 35 most significant digits of the guest's accumulator.
pub const HIGH: u16 = 60;

/// The even offset of the long word that holds the next 34 digits of the guest's accumulator.
pub const MIDDLE: u16 = 62;

/// The even offset of the long word that holds the two least significant digits of the guest's accumulator, as 0, 1, 2
/// or 3 times 2^32.
pub const LOW: u16 = 64;
