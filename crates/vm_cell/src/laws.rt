//! Laws of the definitions, each the contract of a function that does nothing.

ghost use Rattle.std.specs.Prelude.{◌≡◌, ℕ, List};
ghost use Rattle.vm_descriptor.specs.declared.descriptor.Descriptor.{Descriptor};
ghost use Rattle.vm_descriptor.specs.Described.{Fits, IsSpelling, read};
ghost use Rattle.image_depot.specs.Key.{Key};
ghost use Rattle.vm_cell.specs.Woken.{woken};

use vm_descriptor::laws::descriptors_are_read_back;

/// Whichever spelling of a descriptor it is read from, in an older version of the format or in the newest, the same machine
/// wakes.
pub fn spellings_wake_alike()
    ensures { (d : Descriptor) (siblings : ℕ) (key : Key) (bytes : List ℕ) → Fits d → IsSpelling d bytes
        → woken (read bytes) siblings key ≡ woken d siblings key }
{
    descriptors_are_read_back();
}
