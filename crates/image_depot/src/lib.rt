//! Frozen images of machines, replies that carry their pages, what these are sent to, and the depot that keeps
//! images and replies for all threads.
#![tactic(auto)]

mod depot;
mod frozen;
mod key;
mod layer;
mod parcel;
mod receiver;
mod sent;
mod stack;
mod table;

pub use cow_disk::Arrived;
pub use depot::Depot;
pub use frozen::Frozen;
pub use key::ImageKey;
pub use parcel::Parcel;
pub use receiver::Receiver;
pub use sent::Sent;
pub use table::Table;
