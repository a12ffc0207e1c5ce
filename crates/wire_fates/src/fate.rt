ghost use Rattle.std.specs.Prelude.{◌≡◌, ◌<◌, ◌≤◌};
ghost use Rattle.wire_fates.specs.Fates.{IsAmong, streak_after};
ghost use Rattle.wire_fates.specs.Wires.{wrapped};

/// The most fates since a reply was given that are counted.
pub const LONGEST_STREAK: u32 = 64;

/// What becomes of one of the replies that wait, by its place among them, from 0.
#[derive(Clone, Copy, Debug, PartialEq, Eq)]
pub enum Fate {
    /// The reply is given, and waits no more.
    Give(usize),
    /// The reply is given, and waits on.
    Again(usize),
    /// The reply is lost.
    Lose(usize),
}

impl Fate {
    /// The same fate, of one of so many replies: its place counts round and round.
    pub(crate) fn wrapped(self, waiting: usize) -> Fate
        requires { 0 < waiting }
        ensures value { result ≡ wrapped waiting self }
        ensures among { IsAmong waiting result }
    {
        match self {
            Fate::Give(place) => Fate::Give(place % waiting),
            Fate::Again(place) => Fate::Again(place % waiting),
            Fate::Lose(place) => Fate::Lose(place % waiting),
        }
    }

    /// How many fates there were since a reply was given, after this one.
    pub(crate) fn streak_after(self, streak: u32) -> u32
        requires { streak ≤ LONGEST_STREAK }
        ensures { result ≡ streak_after self streak }
    {
        match self {
            Fate::Give(_) => 0,
            Fate::Again(_) | Fate::Lose(_) => LONGEST_STREAK.min(streak + 1),
        }
    }
}
