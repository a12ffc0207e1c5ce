//! The bus: the ports of a machine, each at its addresses.
#![tactic(auto)]

mod ports;

pub use fork_port::Effect;
pub use port_map::PortFields;
pub use ports::Ports;
