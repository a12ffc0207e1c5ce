//! The meaning of a forest of machines, as plain data: trees of whole machines, one step of the
//! machine at the root of a tree, and a change at one place of a tree. It stands over every machine that keeps the rules of
//! tickets.
#![tactic(auto)]

pub mod laws;
pub mod toy;
