//! Laws of the definitions, each the contract of a function that does nothing.

ghost use Rattle.std.specs.Prelude.{◌≡◌, ◌/◌, ℕ, false, true};
ghost use Rattle.guest_pmp.specs.declared.registers.PmpRegisters.{PmpRegisters};
ghost use Rattle.guest_pmp.specs.declared.access.Access.{Access};
ghost use Rattle.guest_pmp.specs.declared.access.Mode.TheVariants.{Machine};
ghost use Rattle.guest_pmp.specs.declared.access.Mode.{Mode};
ghost use Rattle.guest_pmp.specs.Registers.{has_lock};
ghost use Rattle.guest_pmp.specs.Allowed.{allowed};

/// All bytes of a word of memory are allowed alike, since each entry matches whole words.
pub fn words_are_allowed_whole()
    ensures { (r : PmpRegisters) (access : Access) (mode : Mode) (a b : ℕ) → a / 4 ≡ b / 4 → allowed r access mode a ≡ allowed r access mode b }
{}

/// Where no entry is locked, machine mode may do anything.
pub fn machine_mode_is_free_without_locks()
    ensures { (r : PmpRegisters) (access : Access) (address : ℕ) → has_lock r ≡ false → allowed r access Machine address ≡ true }
{}
