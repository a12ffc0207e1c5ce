//! A hart: what an instruction sees of a machine, one exact step of it, and the fast steps that are made together.
#![tactic(auto)]

mod hart;

pub use hart::{Acted, Hart, Request};
