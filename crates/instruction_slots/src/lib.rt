//! Slots that keep decoded instructions by the place of their words.
#![tactic(auto)]

mod fields;
mod slot;

pub use fields::Fields;
pub use slot::{NOWHERE, Slot, forget, slot_of, slot_with};
