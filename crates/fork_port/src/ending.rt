ghost use Rattle.std.specs.Prelude.{◌≡◌, ◌+◌, ◌≤◌};
ghost use Rattle.fork_port.specs.Ending.{ending_count, ending_kind, ending_value, ending_word};

use crate::handed::{Handed, MAX_HANDED};

/// How a machine ended.
#[derive(Clone, Copy, Debug, PartialEq, Eq)]
pub enum Ending {
    /// By EXIT, with its value and the bytes that it handed over.
    Exit(u32, Handed),
    /// By the limit of its steps.
    Limit,
}

impl Ending {
    /// The kind that a join tells of a child that ended so.
    pub fn kind(self) -> u32
        ensures { result ≡ ending_kind self }
    {
        match self {
            Ending::Exit(_, _) => 1,
            Ending::Limit => 2,
        }
    }

    /// The value that a join tells of it.
    pub fn value(self) -> u32
        ensures { result ≡ ending_value self }
    {
        match self {
            Ending::Exit(value, _) => value,
            Ending::Limit => 0,
        }
    }

    /// How many bytes a join tells that it handed over.
    pub fn handed_count(self) -> u32
        ensures { result ≡ ending_count self }
    {
        match self {
            Ending::Exit(_, handed) => handed.count(),
            Ending::Limit => 0,
        }
    }

    /// The word that a join tells at a place of these bytes and of the zeros behind them.
    pub fn handed_word(self, at: usize) -> u32
        requires { at + 4 ≤ MAX_HANDED }
        ensures { result ≡ ending_word self at }
    {
        match self {
            Ending::Exit(_, handed) => handed.word(at),
            Ending::Limit => 0,
        }
    }
}
