/// The page of a load or a store, which is absent. Nothing has changed then.
#[derive(Clone, Copy, Debug, PartialEq, Eq)]
pub struct Absent {
    pub page: u32,
}

/// Why a store is not made. Nothing has changed then.
#[derive(Clone, Copy, Debug, PartialEq, Eq)]
pub enum StoreError {
    /// The page is absent.
    Absent(Absent),
    /// Out of memory.
    Memory,
}
