/// What an access is for.
#[derive(Clone, Copy)]
pub enum Direction {
    /// The word at the pc.
    Fetch,
    Load,
    Store,
    /// LR.
    Reserve,
    /// SC, and whether its address is the one that is reserved. Else it stores nothing.
    Conditional(bool),
    /// An atomic memory operation, which loads and stores.
    Update,
}

/// What an instruction, or the fetch of one, asks of memory.
#[derive(Clone, Copy)]
pub struct Access {
    pub address: u32,
    /// The bytes from the address on: 1, 2 or 4.
    pub width: u32,
    pub direction: Direction,
}
