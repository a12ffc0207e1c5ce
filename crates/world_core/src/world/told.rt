//! The replies that a world was told, for others to hear.

ghost use Rattle.std.specs.Prelude.{◌≡◌, ◌<◌, ◌≤◌, [], ◌∷◌, ◌++◌, length, slice_get, Ok, None, IfOk, OnOk, OnErr};
ghost use Rattle.std.specs.Option.{ForSome};
ghost use Rattle.image_depot.specs.Key.{Shelves};
ghost use Rattle.image_depot.specs.Reply.{IsSentOf};
ghost use Rattle.world_core.specs.Between.{IsSameWorld};
ghost use Rattle.world_core.specs.Images.{AreOfImages, Images};
ghost use Rattle.world_core.specs.Told.{AreKept, told_of};
ghost use Rattle.world_core.specs.World.{Forest, StandsFor};

use crate::world::World;
use image_depot::Sent;
use std::alloc::AllocError;

impl World {
    /// Tells a reply, which others may hear from now on. It goes behind those that were told before.
    pub fn tell(&mut self, sent: Sent) -> Result<(), AllocError>
        ensures ok { OnOk result (told_of self.new ≡ told_of self.old ++ sent ∷ []) }
        ensures err { OnErr result (told_of self.new ≡ told_of self.old) }
        ensures same { IsSameWorld self.old self.new }
        ensures stands { (depot : Shelves) (f : Forest) → StandsFor depot self.old f → StandsFor depot self.new f }
        ensures images { (images : Images) → AreOfImages images self.old → AreOfImages images self.new }
    {
        let Ok(()) = self.told.push(sent) else {
            return Err(AllocError);
        };
        Ok(())
    }

    /// How many replies were told. It takes no memory.
    pub fn told(&self) -> usize
        ensures { result ≡ length (told_of self.now) }
    {
        self.told.len()
    }

    /// The reply at a place, from 0, among those that were told, or `None` behind the last. It is the same reply once
    /// more, of which no byte is copied: it costs one handle, and none behind the last.
    pub fn hear(&self, at: usize) -> Result<Option<Sent>, AllocError>
        ensures value { IfOk result (λ sent. sent ≡ slice_get (told_of self.now) at) }
        ensures beyond { length (told_of self.now) ≤ at → result ≡ Ok None }
        ensures memory { OnErr result (at < length (told_of self.now)) }
        ensures kept { (depot : Shelves) → AreKept depot self.now → IfOk result (λ sent. ForSome sent (IsSentOf depot)) }
    {
        let Some(sent) = self.told.get(at) else {
            return Ok(None);
        };
        let again = sent.again()?;
        Ok(Some(again))
    }
}
