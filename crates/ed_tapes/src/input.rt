/// The most bytes that an input may have.
pub const INPUT_BYTES: usize = 262_144;

/// The note on a longer input.
pub const TOO_LONG: &[u8] = b"input too long\n";
