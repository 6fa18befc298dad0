use ed_codes::Code;

/// What one step did.
#[derive(Clone, Copy)]
pub enum Turn {
    /// An order was obeyed that neither prints nor stops.
    Went,
    /// An O order was obeyed and printed this code.
    Printed(Code),
    /// A Z order was obeyed; the counter is after it.
    Stopped,
    /// The word at the counter is not an order; this is its function. Nothing changed.
    NoOrder(u8),
    /// The word at the counter is an I order and no row of tape is left. Nothing changed.
    NoTape,
}
