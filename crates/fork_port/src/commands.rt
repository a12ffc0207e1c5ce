//! What commands ask for, and what stores to ports do to the machine.

ghost use Rattle.std.specs.Prelude.{◌≡◌};
ghost use Rattle.fork_port.specs.Commands.{effect_of};

use sibling_port::Talk;

/// What a store to a register was.
#[derive(Clone, Copy)]
pub enum Stored {
    /// The register keeps the word.
    Register,
    /// The word is a command.
    Command(u32),
}

/// A command that changes other machines than the one that gives it, with its ticket.
#[derive(Clone, Copy, Debug, PartialEq, Eq)]
pub enum Call {
    /// The ticket's children are made.
    Clone(u32),
    /// The machine waits for the ticket's children to end, and they are gone.
    Join(u32),
    /// The ticket's children are dropped.
    Kill(u32),
}

/// What a command asks for, as the registers stand.
#[derive(Clone, Copy)]
pub enum Asked {
    /// Nothing: it is refused, and RESULT tells why by this word.
    Refused(u32),
    /// A ticket, which may still be refused.
    NewTicket,
    /// That this ticket, which has no children, is given back.
    Discard(u32),
    /// A call that the machine is to make.
    Call(Call),
    /// That the machine ends with this value.
    Exit(u32),
    /// That it ends with this value and hands over bytes of RAM: the address of the first, and how many.
    ExitWith(u32, u32, u32),
    /// That pages read as zeros: from which one, and how many.
    Zero(u32, u32),
}

/// What a store to a port does to the machine beside the port's own registers.
#[derive(Clone, Copy, Debug, PartialEq, Eq)]
pub enum Effect {
    Done,
    /// A half of mtime was written.
    TimeWritten,
    /// The machine is to make this call. The registers are as before.
    Call(Call),
    /// The machine is to make this talk. The registers are as before.
    Talk(Talk),
    /// The machine ends with this value.
    Exit(u32),
    /// It ends with this value and hands over bytes of RAM: the address of the first, and how many. The registers
    /// are as before.
    ExitWith(u32, u32, u32),
    /// Pages are to read as zeros: from which one, and how many. RESULT is not set yet.
    Zero(u32, u32),
}

impl Asked {
    /// What the command does to the machine.
    pub fn effect(self) -> Effect
        ensures { result ≡ effect_of self }
    {
        match self {
            Asked::Refused(_) | Asked::NewTicket | Asked::Discard(_) => Effect::Done,
            Asked::Call(call) => Effect::Call(call),
            Asked::Exit(value) => Effect::Exit(value),
            Asked::ExitWith(value, address, count) => Effect::ExitWith(value, address, count),
            Asked::Zero(first, count) => Effect::Zero(first, count),
        }
    }
}
