//! What a forest of machines asks of the tickets of a machine, met by the fork port.
#![tactic(auto)]

pub mod laws;
