ghost use Rattle.std.specs.Prelude.{◌≡◌, ◌⊎◌, ℕ, ◌<◌, Bool, false, List, length, slice_index_or, Option, Some, IfOk, IfSome, OnErr};
ghost use Rattle.std.specs.Option.{option_copied, ForSome};
ghost use Rattle.image_depot.specs.Key.{Key, IsKeyOf};
ghost use Rattle.image_depot.specs.Receiver.{Arrives, HasAbsent, IsAbsent, IsHad};

use crate::depot::Depot;
use crate::key::ImageKey;
use crate::parcel::Parcel;
use cow_disk::Arrived;
use std::alloc::{AllocError, Global};

/// What pages of an image are sent to: a machine, or what holds one. A page is told by its place: those of RAM come first,
/// and then those of the disk.
pub trait Receiver {
    /// For each page, whether it is here.
    ghost here: { Self → List Bool };

    /// The key to the image that has the absent pages.
    ghost key: { Self → Option Key };

    /// The page that it wants.
    ghost wanted: { Self → Option ℕ };

    /// All but the flags of pages that are here.
    ghost rest: { Self → Self };

    /// The key to the image that has the absent pages. A machine that was booted has none, and wants nothing.
    fn key(&self) -> Option<&ImageKey>
        ensures value { option_copied result ≡ key self.now }
        ensures absent { HasAbsent (key self.now) (here self.now) };

    /// The page that it wants, which is absent, or `None` where it wants none.
    fn wanted(&self) -> Option<u32>
        ensures value { result ≡ wanted self.now }
        ensures absent { IfSome result (IsAbsent (here self.now)) };

    /// Whether a page is here. One that is not is absent.
    fn is_here(&self, page: u32) -> bool
        requires { page < length (here self.now) }
        ensures { result ≡ slice_index_or (here self.now) page false };

    /// Takes a page that was sent, where it is absent and one of the image of the key. Nothing else changes, but what
    /// is wanted where this page was. Where the page was had, nothing changes at all.
    fn arrive(
        &mut self,
        alloc: Global,
        depot: &Depot,
        parcel: &Parcel,
    ) -> Result<Arrived, AllocError>
        requires of_depot { ForSome (key self.old) (IsKeyOf depot.now) }
        requires parcel { IsKeyOf depot.now parcel.now.key }
        ensures arrives { IfOk result (Arrives (key self.old) (here self.old) parcel.now (here self.new)) }
        ensures wanted { (wanted self.new ≡ wanted self.old) ⊎ (wanted self.old ≡ Some parcel.now.page) }
        ensures key { key self.new ≡ key self.old }
        ensures rest { rest self.new ≡ rest self.old }
        ensures had { IfOk result (λ arrived. IsHad arrived → self.new ≡ self.old) }
        ensures err { OnErr result (self.new ≡ self.old) };
}
