/// A call of a library routine with its numbers.
#[derive(Clone, Copy)]
pub enum Call {
    /// Prints a number.
    Print(u16),
    /// Reads a number from the tape and prints it.
    Read(u16),
    /// Prints a new line.
    NewLine,
    /// Divides `n` by `by`, and prints the quotient and the remainder.
    Divide {
        /// The dividend.
        n: u32,
        /// The divisor.
        by: u16,
    },
    /// Prints the integer square root of a number.
    Root(u16),
    /// Prints a number under the checking routine.
    Check(u16),
}
