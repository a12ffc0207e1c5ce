//! Laws of the definitions, each the contract of a function that does nothing.

ghost use Rattle.std.specs.Prelude.{◌≡◌, ℕ, ◌+◌, ◌<◌, ◌≤◌, ◌⊎◌, List, length, slice_index};
ghost use Rattle.flat_memory.specs.Flat.{put_bytes};

/// A write puts its bytes at their place, and leaves all other bytes as they were.
pub fn write_changes_its_bytes()
    ensures written { (memory bytes : List ℕ) (at k : ℕ) → at ≤ length memory → k < length bytes
        → slice_index (put_bytes memory at bytes) (at + k) ≡ slice_index bytes k }
    ensures others { (memory bytes : List ℕ) (at k : ℕ) → at ≤ length memory → (k < at) ⊎ (at + length bytes ≤ k)
        → slice_index (put_bytes memory at bytes) k ≡ slice_index memory k }
    ensures length_stays { (memory bytes : List ℕ) (at : ℕ) → at + length bytes ≤ length memory
        → length (put_bytes memory at bytes) ≡ length memory }
{}
