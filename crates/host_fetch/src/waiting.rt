ghost use Rattle.std.specs.Prelude.{◌≡◌};
ghost use Rattle.host_fetch.specs.Asked.{reply_in};

use image_depot::Parcel;

/// A reply that waits to be given.
#[derive(Drop)]
pub enum Waiting<'a> {
    /// The depot keeps it for all.
    Kept(&'a Parcel),
    /// Somebody had claimed its page before, or nobody can, so nobody else has it.
    Own(Parcel),
}

impl Waiting<'_> {
    /// The reply itself.
    #[inline]
    pub fn parcel(&self) -> &Parcel
        ensures { result.now ≡ reply_in self.now }
    {
        match self {
            Waiting::Kept(parcel) => parcel,
            Waiting::Own(parcel) => parcel,
        }
    }
}
