//! Laws of the definitions, each the contract of a function that does nothing.

ghost use Rattle.std.specs.Prelude.{◌≡◌, ◌<◌, ℕ, Bool, false, List, None, length, slice_index};
ghost use Rattle.vm_descriptor.specs.declared.descriptor.Descriptor.{Descriptor};
ghost use Rattle.vm_descriptor.specs.Descriptor.{IsInRange};
ghost use Rattle.vm_descriptor.specs.Maps.{flags_of, flags_of_runs, map_bytes, runs};
ghost use Rattle.vm_descriptor.specs.Described.{Fits, IsSpelling, read, refused};

/// Bytes that are not refused are a spelling of the descriptor that they are read as.
pub fn accepted_bytes_are_spelled()
    ensures { (bytes : List ℕ) → ((i : ℕ) → slice_index bytes i < 256) → refused bytes ≡ None → IsSpelling (read bytes) bytes }
{}

/// The flags of a map are read as they were, in either form.
pub fn maps_are_read_back()
    ensures bits { (flags : List Bool) → flags_of (length flags) (map_bytes flags) ≡ flags }
    ensures runs { (flags : List Bool) → flags_of_runs false (runs flags) ≡ flags }
{}

/// A descriptor is read from each of its spellings as it was, and where it is in range they are not refused.
pub fn descriptors_are_read_back()
    ensures read { (d : Descriptor) (bytes : List ℕ) → Fits d → IsSpelling d bytes → read bytes ≡ d }
    ensures taken { (d : Descriptor) (bytes : List ℕ) → Fits d → IsInRange d → IsSpelling d bytes → refused bytes ≡ None }
{}
