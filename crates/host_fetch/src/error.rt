use thiserror::Error;

/// Why the page that was wanted is not here.
#[derive(Clone, Copy, Debug, PartialEq, Eq, Error)]
pub enum FetchError {
    /// The wire has given no reply for 64 fates.
    #[error("the wire gives no reply")]
    Wire,
    /// Out of memory.
    #[error("out of memory")]
    Memory,
}
