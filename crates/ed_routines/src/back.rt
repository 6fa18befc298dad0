/// Where a routine returned.
#[derive(Clone, Copy)]
pub struct Back {
    /// The location after its call.
    pub at: u16,
    /// The number of orders obeyed, including the one that returned.
    pub orders: u64,
}
