//! Laws of the definitions, each the contract of a function that does nothing.

ghost use Rattle.std.specs.Prelude.{◌≡◌, ◌↔◌, ℕ, ◌/◌, ◌%◌, Bool, true, false, Some, None, IsTrue, All, AllPairs};
ghost use Rattle.guest_pmp.specs.declared.access.Mode.TheVariants.{User};
ghost use Rattle.guest_pmp.specs.Registers.{IsNumber};
ghost use Rattle.rv_traps.specs.declared.registers.CsrRegisters.{CsrRegisters};
ghost use Rattle.guest_pmp.specs.declared.access.Access.{Access};
ghost use Rattle.rv_traps.specs.Access.{csr_read, csr_write};
ghost use Rattle.rv_traps.specs.Protection.{allows, is_unrestricted};
ghost use Rattle.rv_traps.specs.Registers.{interrupt_enable};
ghost use Rattle.rv_traps.specs.Table.{rows, is_of, csr_of};
ghost use Rattle.rv_traps.specs.Trap.{trap, mret, returned, takes_interrupt};

/// No two rows of the table have one number, so the order of the rows means nothing: a number is of
/// the register of any row that has it.
pub fn rows_are_apart()
    ensures apart { (number : ℕ) → AllPairs (λ a b. ¬ (IsTrue (is_of number a) × IsTrue (is_of number b))) rows }
    ensures csr { (number : ℕ) → All (λ row. IsTrue (is_of number row) → csr_of number ≡ Some row.csr) rows }
{}

/// No interrupt comes between a trap and the return from it, unless the handler enables it. The return
/// goes on where the trap came, in the mode and with interrupts enabled as they were then.
pub fn mret_undoes_trap()
    ensures masked { (c : CsrRegisters) (cause value pc : ℕ) (timer : Bool) → takes_interrupt (trap c cause value pc) timer ≡ false }
    ensures lawful { (c : CsrRegisters) (cause value pc : ℕ) → mret (trap c cause value pc) ≡ Some (returned (trap c cause value pc)) }
    ensures mode { (c : CsrRegisters) (cause value pc : ℕ) → (returned (trap c cause value pc)).mode ≡ c.mode }
    ensures enable { (c : CsrRegisters) (cause value pc : ℕ) → interrupt_enable (returned (trap c cause value pc)) ≡ interrupt_enable c }
    ensures goes_on { (c : CsrRegisters) (cause value pc : ℕ) → pc % 4 ≡ 0 → (returned (trap c cause value pc)).mepc ≡ pc }
{}

/// In user mode no access to a register is lawful, of any number, nor is the return from a trap.
pub fn user_mode_has_no_registers()
    ensures read { (c : CsrRegisters) (number : ℕ) (timer : Bool) → c.mode ≡ User → csr_read c number timer ≡ None }
    ensures write { (c : CsrRegisters) (number value : ℕ) → c.mode ≡ User → csr_write c number value ≡ None }
    ensures mret { (c : CsrRegisters) → mret c ≡ None ↔ (c.mode ≡ User) }
{}

/// A write leaves the mode, and where its number is none of memory protection, the entries too.
pub fn writes_leave_the_mode()
    ensures mode { (c new : CsrRegisters) (number value : ℕ) → csr_write c number value ≡ Some new → new.mode ≡ c.mode }
    ensures entries { (c new : CsrRegisters) (number value : ℕ) → ¬ IsNumber number → csr_write c number value ≡ Some new → new.pmp ≡ c.pmp }
{}

/// Where accesses are made by the rights of machine mode and no entry is locked, memory protection allows everything. All
/// bytes of a word of memory are allowed alike.
pub fn protection_allows()
    ensures unrestricted { (c : CsrRegisters) (access : Access) (address : ℕ) → is_unrestricted c ≡ true → allows c access address ≡ true }
    ensures alike { (c : CsrRegisters) (access : Access) (a b : ℕ) → a / 4 ≡ b / 4 → allows c access a ≡ allows c access b }
{}
