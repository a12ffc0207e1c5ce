//! Accesses, privilege modes, and what an entry's byte permits.

ghost use Rattle.std.specs.Prelude.{◌≡◌, ◌<◌};
ghost use Rattle.guest_pmp.specs.Registers.{has_bit};
ghost use Rattle.guest_pmp.specs.Allowed.{is_machine, permits, lets};

/// An access that memory protection is asked about.
#[derive(Clone, Copy, Debug, PartialEq, Eq)]
pub enum Access {
    /// An instruction is fetched. It needs X.
    Fetch,
    /// A load or LR. It needs R.
    Load,
    /// A store or SC, whether or not SC succeeds. It needs W.
    Store,
    /// An atomic memory operation. It needs R and W.
    Amo,
}

/// A privilege mode (RISC-V Privileged ISA 20211203, section 1.2).
#[derive(Clone, Copy, Debug, PartialEq, Eq)]
pub enum Mode {
    User,
    Machine,
}

impl Mode {
    /// Whether this is machine mode.
    #[inline]
    pub fn is_machine(self) -> bool
        ensures { result ≡ is_machine self }
    {
        match self {
            Mode::User => false,
            Mode::Machine => true,
        }
    }
}

impl Access {
    /// Whether the bits R (0), W (1) and X (2) of an entry's byte permit the access.
    #[inline]
    pub(crate) fn is_permitted_by(self, configuration: u8) -> bool
        ensures { result ≡ permits self configuration }
    {
        match self {
            Access::Fetch => has_bit(configuration, 2),
            Access::Load => has_bit(configuration, 0),
            Access::Store => has_bit(configuration, 1),
            Access::Amo => has_bit(configuration, 0) && has_bit(configuration, 1),
        }
    }
}

/// Whether the entry that decides, by its byte, lets an access pass: machine mode where the entry is not locked, and
/// otherwise by R, W and X.
#[inline]
pub(crate) fn lets(configuration: u8, access: Access, mode: Mode) -> bool
    ensures { result ≡ lets configuration access mode }
{
    mode.is_machine() && !has_bit(configuration, 7) || access.is_permitted_by(configuration)
}

/// Whether the bit of a byte at this place is 1.
#[inline]
pub(crate) fn has_bit(byte: u8, place: u32) -> bool
    requires { place < 8 }
    ensures { result ≡ has_bit byte place }
{
    byte >> place & 1 == 1
}
