//! Brings the page that a machine wants, over a wire that loses, repeats and reorders replies.
#![tactic(auto)]

mod ask;
mod deliver;
mod error;
mod fetch_page;
mod fetcher;
mod heard;
mod offer_page;
mod waiting;

pub use error::FetchError;
pub use fetch_page::MAX_AHEAD;
pub use fetcher::Fetcher;
pub use heard::Heard;
pub use offer_page::offer;
