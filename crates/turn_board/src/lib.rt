//! A lock whose holders take turns, in the order of the tickets that they draw. All turns are one history, and the value
//! under the lock stands for it.
#![tactic(auto)]

mod bells;
mod lends;
mod patience;
mod plays;
mod turn;
mod turns;
mod view;

pub use turn::Turn;
pub use turns::{Lock, Turns};
pub use view::{Content, Keeping, Kept, Seat, View};
