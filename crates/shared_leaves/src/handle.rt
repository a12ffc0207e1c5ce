/// A value whose clone is equal to it, and shares what it holds. It is small enough that 64 of it lie in
/// memory. Its default stands in the places of a leaf that have no entry, and is to hold nothing.
pub trait Handle: Clone + Default + Drop {
    ghost use Rattle.std.specs.Prelude.{◌≡◌};
    ghost use Rattle.shared_leaves.specs.Room.{IsSmall};

    ghost clone_is_equal: { (value copy : Self) → Self.is_clone value copy → copy ≡ value };

    ghost is_small: { IsSmall Self.row };
}
