/// Why the machines of a world are to be handed out no more.
#[derive(Clone, Copy)]
pub enum Reason {
    /// The wire lost too much.
    Wire,
    /// Want of memory.
    Memory,
}
