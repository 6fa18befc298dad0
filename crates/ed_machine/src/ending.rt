/// How a run ended.
#[derive(Clone, Copy)]
pub enum Ending {
    /// A Z order was obeyed, and no resume was left.
    Stopped,
    /// The run obeyed as many orders as its limit.
    Limit,
    /// The word at the counter is not an order.
    NoOrder,
    /// The order at the counter reads the tape, and no row is left.
    NoTape,
    /// The order at the counter prints, and the paper has no room left.
    PaperFull,
}
