//! Laws of the definitions, each the contract of a function that does nothing.

ghost use Rattle.std.specs.Prelude.{◌≡◌};
ghost use Rattle.image_depot.specs.Key.{Key, image_of};
ghost use Rattle.guest_mem.specs.Ram.{Ram, IsRam, cloned};

/// A clone reads what its parent read when it was frozen: the parent's blank pages were zeros.
pub fn clone_reads_what_was_frozen()
    ensures { (ram : Ram) (key : Key) → IsRam ram → (image_of key).contents ≡ ram.reads → (cloned key ram.blank).reads ≡ ram.reads }
{}
