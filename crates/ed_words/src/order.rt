/// The four fields of an order word.
#[derive(Clone, Copy)]
pub struct Order {
    /// The function, 0 to 31 in a word.
    pub function: u8,
    /// The digit between function and address, which only a shift order uses.
    pub spare: bool,
    /// The address, 0 to 1023 in a word.
    pub address: u16,
    /// The length digit: true for D, a long order, and false for F.
    pub length: bool,
}
