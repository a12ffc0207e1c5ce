//! How machines came to their ends, in little room.

ghost use Rattle.std.specs.Prelude.{◌≡◌, [], IfSome};
ghost use Rattle.run_report.specs.MachineEnd.{IsSameEnd, ending_in, output_in, steps_in};

use forest_model::Ending;
use fork_port::Handed;
use std::alloc::{AllocError, Global};

/// How a machine came to its end, after how many steps, and what it had put out. Most put out nothing and hand no bytes
/// over, and take no more room than a value and their steps.
#[derive(Drop)]
pub(crate) enum MachineEnd {
    /// It is stuck, after these steps.
    Stuck(u64),
    /// It ended with this value, after these steps.
    Value(u32, u64),
    /// It met its limit, after these steps.
    Limit(u64),
    /// It came to its end in any way, with any output.
    Full(Box<FullEnd>),
}

/// The end of a machine that put bytes out or handed some over.
#[derive(Drop)]
pub(crate) struct FullEnd {
    /// None where it is stuck.
    pub(crate) ending: Option<Ending>,
    pub(crate) steps: u64,
    pub(crate) output: Vec<u8>,
}

/// Room for the end of a machine. It is made before the machine ends, which takes no memory then.
#[derive(Drop)]
pub struct OutcomeRoom {
    full: Box<FullEnd>,
}

impl OutcomeRoom {
    /// Room for the end of one machine.
    pub fn new(alloc: Global) -> Result<OutcomeRoom, AllocError> {
        let full = FullEnd {
            ending: None,
            steps: 0,
            output: Vec::new(alloc),
        };
        Ok(OutcomeRoom {
            full: Box::new(alloc, full)?,
        })
    }

    /// The end of a machine: how it ended, or none where it is stuck, its steps, and what it put out.
    pub(crate) fn filled(self, ending: Option<Ending>, steps: u64, output: Vec<u8>) -> MachineEnd
        ensures ending { ending_in result ≡ ending }
        ensures steps { steps_in result ≡ steps }
        ensures output { output_in result ≡ output.items }
    {
        if output.is_empty() {
            if let Some(end) = bare(ending, steps) {
                return end;
            }
        }
        let mut full = self.full;
        *full = FullEnd {
            ending,
            steps,
            output,
        };
        MachineEnd::Full(full)
    }
}

/// The end of a machine that put nothing out, where it handed no bytes over either.
fn bare(ending: Option<Ending>, steps: u64) -> Option<MachineEnd>
    ensures { IfSome result (λ end. (ending_in end ≡ ending) × (steps_in end ≡ steps) × (output_in end ≡ [])) }
{
    match ending {
        None => Some(MachineEnd::Stuck(steps)),
        Some(Ending::Limit) => Some(MachineEnd::Limit(steps)),
        Some(Ending::Exit(value, handed)) => {
            if handed != Handed::none() {
                return None;
            }
            Some(MachineEnd::Value(value, steps))
        }
    }
}

impl MachineEnd {
    /// How the machine ended, or none where it is stuck.
    pub(crate) fn ending(&self) -> Option<Ending>
        ensures { result ≡ ending_in self.now }
    {
        match self {
            MachineEnd::Stuck(_) => None,
            MachineEnd::Value(value, _) => Some(Ending::Exit(*value, Handed::none())),
            MachineEnd::Limit(_) => Some(Ending::Limit),
            MachineEnd::Full(full) => full.ending,
        }
    }

    /// The steps that it made.
    pub(crate) fn steps(&self) -> u64
        ensures { result ≡ steps_in self.now }
    {
        match self {
            MachineEnd::Stuck(steps) | MachineEnd::Value(_, steps) | MachineEnd::Limit(steps) =>
                *steps,
            MachineEnd::Full(full) => full.steps,
        }
    }

    /// What it put out.
    pub(crate) fn output(&self) -> &[u8]
        ensures { result.now ≡ output_in self.now }
    {
        match self {
            MachineEnd::Full(full) => full.output.as_slice(),
            _ => b"",
        }
    }
}

impl Clone for MachineEnd {
    ghost is_clone = { λ end copy. IsSameEnd end copy };

    fn clone(&self) -> Result<MachineEnd, AllocError> {
        match self {
            MachineEnd::Stuck(steps) => Ok(MachineEnd::Stuck(*steps)),
            MachineEnd::Value(value, steps) => Ok(MachineEnd::Value(*value, *steps)),
            MachineEnd::Limit(steps) => Ok(MachineEnd::Limit(*steps)),
            MachineEnd::Full(full) => {
                let copy = FullEnd {
                    ending: full.ending,
                    steps: full.steps,
                    output: full.output.clone()?,
                };
                let full = Box::new(*full.output.allocator(), copy)?;
                Ok(MachineEnd::Full(full))
            }
        }
    }
}
