//! The meaning of a machine, as plain data: one flat list of bytes for RAM, what the coming step is,
//! what it does, and the machine run to its end. The code of the crates above is proved equal to it.
#![tactic(auto)]

mod access;
pub mod cause;
pub mod laws;

pub use access::{Access, Direction};
pub use fork_port::{Ending, Handed};
use rv_traps::Wrote;

/// What of the counters a step wrote itself. It does not count the step.
#[derive(Clone, Copy)]
pub enum Written {
    Nothing,
    /// A half of mcycle or of minstret.
    Counter(Wrote),
    /// A half of mtime.
    Time,
}

/// What an access to a control and status register does with its operand.
#[derive(Clone, Copy, PartialEq, Eq)]
pub enum CsrOperation {
    /// The register becomes the operand.
    Write,
    /// The bits of the operand are set.
    SetBits,
    /// The bits of the operand are cleared.
    ClearBits,
}

/// What a machine is started with.
#[derive(Clone, Copy)]
pub struct Options {
    /// The most steps that the machine makes, from 1 to 1,000,000,000.
    pub limit: u64,
    /// How many clones the machine may have, at most 4,096.
    pub allot: u32,
}
