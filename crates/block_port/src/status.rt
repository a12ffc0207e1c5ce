ghost use Rattle.std.specs.Prelude.{◌≡◌};
ghost use Rattle.block_port.specs.Block.{status_word};

/// What became of a command.
#[derive(Clone, Copy, Debug, PartialEq, Eq)]
pub enum Status {
    Done = 0,
    /// The disk has no such sector.
    BadSector = 1,
    /// There is no such command.
    UnknownCommand = 2,
}

impl Status {
    /// The status as the port's register shows it.
    pub fn word(self) -> u32
        ensures { result ≡ status_word self }
    {
        self as u32
    }
}
