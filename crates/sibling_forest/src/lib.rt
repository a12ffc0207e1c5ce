//! What becomes of a family of machines that fork and talk to their siblings, as plain data, over every machine that
//! keeps the rules: trees of machines with the words that wait for each, one step of one of them, and a tree run to
//! its end.
#![tactic(auto)]

pub mod laws;
pub mod toy;
