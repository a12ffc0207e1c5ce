//! Which pages of which images were claimed already: each is claimed once, by whichever thread comes first.
#![tactic(auto)]

mod claims;
mod first;
mod plays;
mod view;

pub use claims::{ClaimPass, Claims};
pub use first::{Claimed, First};
