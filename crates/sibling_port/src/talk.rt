//! What commands ask for.

/// A command that another child of the ticket takes part in, with its number.
#[derive(Clone, Copy, Debug, PartialEq, Eq)]
pub enum Talk {
    /// DATA is sent to the sibling.
    Send(u32),
    /// A word of the sibling is received.
    Receive(u32),
}

/// What a command asks for, as the registers stand.
#[derive(Clone, Copy)]
pub enum Asked {
    /// Nothing: it is refused, and RESULT tells why by this word.
    Refused(u32),
    /// A talk that the machine is to make.
    Talk(Talk),
}
