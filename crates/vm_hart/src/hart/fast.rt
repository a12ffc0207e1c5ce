//! Fast steps, which are counted together: each retires an instruction that looks at no counter and reaches no port.

ghost use Rattle.std.specs.Prelude.{◌≡◌, ◌≢◌, ◌%◌, ◌≤◌, ◌<◌, ℕ, length, MatchBool, None, true};
ghost use Rattle.rv_exec.specs.Memory.{IsWidth, store_width};
ghost use Rattle.forest_model.specs.declared.Written.TheVariants.{Nothing};
ghost use Rattle.forest_model.specs.Action.{retire_next};
ghost use Rattle.rv_decode.specs.declared.kinds.Group.TheVariants as group;
ghost use Rattle.rv_decode.specs.Instruction.{Instruction};
ghost use Rattle.rv_decode.specs.Kinds.{group_of};
ghost use Rattle.vm_hart.specs.Acts.{ActsAlone};
ghost use Rattle.instruction_slots.specs.Slots.{ForgetsAt};
ghost use Rattle.rv_traps.specs.Protection.{is_unrestricted};
ghost use Rattle.vm_hart.specs.Kept.{IsSlotAtPc, Keeps, mode_tag, stored_at};
ghost use Rattle.vm_hart.specs.Keyed.{KeyedState};
ghost use Rattle.vm_hart.specs.Fast.{ActsFast, AreMade, IsFastStep, IsQuiet, IsStretch, counted_since};
ghost use Rattle.vm_hart.specs.Tries.{IsTry};
ghost use Rattle.vm_hart.specs.Windows.{AreOpen, IsOpen};

use super::window::Windows;
use super::{Acted, Hart};
use forest_model::Written;
use fork_port::refusals::TICKETS_END;
use guest_pmp::{Access as Right, Span};
use instruction_slots::{Fields, Slot, forget};
use rv_decode::Kind;

/// What came of a try at a fast step.
#[derive(Clone, Copy)]
struct Tried {
    is_made: bool,
    /// The address that is stored to, if it is a store.
    stored: Option<u32>,
    /// The pc after it.
    next: u32,
}

impl Hart {
    /// Makes the fast steps that come, at most `most`, and answers how many. They are counted. What the slots keep at
    /// this epoch holds before and after.
    #[inline(always)]
    pub fn make_fast(&mut self, slots: &mut [Slot], epoch: u32, most: u64) -> u64
        requires tickets { self.old.state.ports.fork.next_ticket < TICKETS_END }
        requires some { 0 < length slots.old }
        requires keeps { Keeps self.old epoch slots.old }
        ensures made { AreMade result self.old self.new }
        ensures most { result ≤ most }
        ensures fork { self.new.state.ports.fork ≡ self.old.state.ports.fork }
        ensures keeps { Keeps self.new epoch slots.new }
        ensures same_length { length slots.new ≡ length slots.old }
    {
        let most = most.min(self.quiet_steps());
        let made = self.stretch(slots, epoch, most);
        self.count_many(made);
        made
    }

    /// Makes the fast steps that come, at most `most`, and answers how many. They are not counted yet. No fast step
    /// changes what memory protection allows, so it is asked once whether that is all.
    #[inline(always)]
    fn stretch(&mut self, slots: &mut [Slot], epoch: u32, most: u64) -> u64
        requires some { 0 < length slots.old }
        requires keeps { Keeps self.old epoch slots.old }
        ensures stretch { IsStretch result self.old self.new }
        ensures most { result ≤ most }
        ensures keeps { Keeps self.new epoch slots.new }
        ensures same_length { length slots.new ≡ length slots.old }
    {
        if self.csrs.is_unrestricted() {
            self.fast_steps::<true>(slots, epoch, most)
        } else {
            self.fast_steps::<false>(slots, epoch, most)
        }
    }

    /// So many steps are made before the timer interrupt comes, if they write no counter: it is the limit of mtime
    /// alone that they come nearer to.
    fn quiet_steps(&self) -> u64
        ensures { IsQuiet result self.now.state }
    {
        if !self.csrs.interrupt(true) {
            return u64::MAX;
        }
        let timer = self.ports.timer();
        timer.mtimecmp.saturating_sub(timer.mtime)
    }

    /// Makes the fast steps that come, at most `most`, and answers how many. They are not counted yet. `FREE` tells that memory
    /// protection allows all. It is apart and never inlined, so that its loop has the processor's registers for itself.
    #[inline(never)]
    fn fast_steps<const FREE: bool>(&mut self, slots: &mut [Slot], epoch: u32, most: u64) -> u64
        requires free { FREE ≡ true → is_unrestricted self.old.state.csrs ≡ true }
        requires some { 0 < length slots.old }
        requires keeps { Keeps self.old epoch slots.old }
        ensures stretch { IsStretch result self.old self.new }
        ensures most { result ≤ most }
        ensures keeps { Keeps self.new epoch slots.new }
        ensures same_length { length slots.new ≡ length slots.old }
    {
        let tag = self.mode_tag::<FREE>();
        let mut windows = Windows::shut();
        let size = self.ram_size();
        let mut left = most;
        while left > 0 && self.step_fast::<FREE>(slots, epoch, tag, size, &mut windows) {
            left -= 1;
        }
        most - left
    }

    /// Makes the coming step if it is fast, with no look at the interrupt. Else nothing changes. RAM has `size` bytes: no fast
    /// step changes that.
    #[inline(always)]
    fn step_fast<const FREE: bool>(
        &mut self,
        slots: &mut [Slot],
        epoch: u32,
        tag: u32,
        size: u32,
        windows: &mut Windows,
    ) -> bool
        requires free { FREE ≡ true → is_unrestricted self.old.state.csrs ≡ true }
        requires some { 0 < length slots.old }
        requires keeps { Keeps self.old epoch slots.old }
        requires tag { tag ≡ mode_tag self.old.state.csrs.mode }
        requires size { size ≡ length self.old.state.ram }
        requires is_open { AreOpen self.old.state.csrs windows.old }
        ensures made { MatchBool result (IsFastStep self.old self.new) (self.new ≡ self.old) }
        ensures same_size { length self.new.state.ram ≡ length self.old.state.ram }
        ensures keeps { Keeps self.new epoch slots.new }
        ensures same_length { length slots.new ≡ length slots.old }
        ensures is_open { AreOpen self.old.state.csrs windows.new }
    {
        let Some(number) = self.slot_at_pc(slots, epoch, tag) else {
            return false;
        };
        self.step_by::<FREE>(slots, number, size, windows)
    }

    /// Makes the coming step, whose instruction is in the slot of this number, if it is fast. Else nothing changes. What
    /// is kept of a word that it stores to is forgotten.
    #[inline(always)]
    fn step_by<const FREE: bool>(
        &mut self,
        slots: &mut [Slot],
        number: usize,
        size: u32,
        windows: &mut Windows,
    ) -> bool
        requires free { FREE ≡ true → is_unrestricted self.old.state.csrs ≡ true }
        requires size { size ≡ length self.old.state.ram }
        requires slot_at_pc { IsSlotAtPc self.old slots.old number }
        requires is_open { AreOpen self.old.state.csrs windows.old }
        ensures made { MatchBool result (IsFastStep self.old self.new) (self.new ≡ self.old) }
        ensures same_size { length self.new.state.ram ≡ length self.old.state.ram }
        ensures keeps { (epoch : ℕ) → Keeps self.old epoch slots.old → Keeps self.new epoch slots.new }
        ensures same_length { length slots.new ≡ length slots.old }
        ensures is_open { AreOpen self.old.state.csrs windows.new }
    {
        self.has_whole_words();
        let instr = slots[number].instr();
        let tried = self.execute_fast::<FREE>(instr, instr.kind(), size, windows);
        self.forget_stored(slots, tried);
        tried.is_made
    }

    /// Forgets what is kept of a word that was stored to. The pc is stored once more after it, since the loop of steps has
    /// in a register what was stored last.
    #[inline(always)]
    fn forget_stored(&mut self, slots: &mut [Slot], tried: Tried)
        requires some { 0 < length slots.old }
        requires next { tried.next ≡ self.old.state.pc }
        ensures same { self.new ≡ self.old }
        ensures forgets { ForgetsAt tried.stored slots.old slots.new }
    {
        if let Some(address) = tried.stored {
            forget(slots, address);
            self.pc = tried.next;
        }
    }

    /// RAM has whole words. It is apart, so that no step reads the size for it.
    #[inline]
    fn has_whole_words(&self)
        ensures { length self.now.state.ram % 4 ≡ 0 }
    {
        let _ = self.memory.size();
    }

    /// Executes an instruction at the pc, if it is fast and retires. Else the hart stays. Each kind has an arm of its own,
    /// so that one jump leads to what it does.
    #[inline(always)]
    #[tactic(auto, unfolding(rv_decode::specs::Kinds::group_of))]
    fn execute_fast<const FREE: bool>(
        &mut self,
        instr: &Fields,
        kind: Kind,
        size: u32,
        windows: &mut Windows,
    ) -> Tried
        requires kind { kind ≡ instr.now.kind }
        requires size { size ≡ length self.old.state.ram }
        requires free { FREE ≡ true → is_unrestricted self.old.state.csrs ≡ true }
        requires is_open { AreOpen self.old.state.csrs windows.old }
        ensures tried { IsTry self.old self.new instr.now result }
        ensures is_open { AreOpen self.old.state.csrs windows.new }
    {
        match kind {
            Kind::Lui => not_a_store(self.load_upper_fast(instr, Kind::Lui), self.pc),
            Kind::Auipc => not_a_store(self.add_upper_fast(instr, Kind::Auipc), self.pc),
            Kind::Jal => not_a_store(self.jump_fast(instr, Kind::Jal), self.pc),
            Kind::Jalr => not_a_store(self.jump_register_fast(instr, Kind::Jalr), self.pc),
            Kind::Beq => not_a_store(self.branch_fast(instr, Kind::Beq), self.pc),
            Kind::Bne => not_a_store(self.branch_fast(instr, Kind::Bne), self.pc),
            Kind::Blt => not_a_store(self.branch_fast(instr, Kind::Blt), self.pc),
            Kind::Bge => not_a_store(self.branch_fast(instr, Kind::Bge), self.pc),
            Kind::Bltu => not_a_store(self.branch_fast(instr, Kind::Bltu), self.pc),
            Kind::Bgeu => not_a_store(self.branch_fast(instr, Kind::Bgeu), self.pc),
            Kind::Lb => not_a_store(
                self.load_fast::<FREE>(instr, Kind::Lb, 1, size, &mut windows.loads),
                self.pc,
            ),
            Kind::Lh => not_a_store(
                self.load_fast::<FREE>(instr, Kind::Lh, 2, size, &mut windows.loads),
                self.pc,
            ),
            Kind::Lw => not_a_store(
                self.load_fast::<FREE>(instr, Kind::Lw, 4, size, &mut windows.loads),
                self.pc,
            ),
            Kind::Lbu => not_a_store(
                self.load_fast::<FREE>(instr, Kind::Lbu, 1, size, &mut windows.loads),
                self.pc,
            ),
            Kind::Lhu => not_a_store(
                self.load_fast::<FREE>(instr, Kind::Lhu, 2, size, &mut windows.loads),
                self.pc,
            ),
            Kind::Addi => not_a_store(self.compute_immediate_fast(instr, Kind::Addi), self.pc),
            Kind::Slti => not_a_store(self.compute_immediate_fast(instr, Kind::Slti), self.pc),
            Kind::Sltiu => not_a_store(self.compute_immediate_fast(instr, Kind::Sltiu), self.pc),
            Kind::Xori => not_a_store(self.compute_immediate_fast(instr, Kind::Xori), self.pc),
            Kind::Ori => not_a_store(self.compute_immediate_fast(instr, Kind::Ori), self.pc),
            Kind::Andi => not_a_store(self.compute_immediate_fast(instr, Kind::Andi), self.pc),
            Kind::Slli => not_a_store(self.compute_immediate_fast(instr, Kind::Slli), self.pc),
            Kind::Srli => not_a_store(self.compute_immediate_fast(instr, Kind::Srli), self.pc),
            Kind::Srai => not_a_store(self.compute_immediate_fast(instr, Kind::Srai), self.pc),
            Kind::Add => not_a_store(self.compute_fast(instr, Kind::Add), self.pc),
            Kind::Sub => not_a_store(self.compute_fast(instr, Kind::Sub), self.pc),
            Kind::Sll => not_a_store(self.compute_fast(instr, Kind::Sll), self.pc),
            Kind::Slt => not_a_store(self.compute_fast(instr, Kind::Slt), self.pc),
            Kind::Sltu => not_a_store(self.compute_fast(instr, Kind::Sltu), self.pc),
            Kind::Xor => not_a_store(self.compute_fast(instr, Kind::Xor), self.pc),
            Kind::Srl => not_a_store(self.compute_fast(instr, Kind::Srl), self.pc),
            Kind::Sra => not_a_store(self.compute_fast(instr, Kind::Sra), self.pc),
            Kind::Or => not_a_store(self.compute_fast(instr, Kind::Or), self.pc),
            Kind::And => not_a_store(self.compute_fast(instr, Kind::And), self.pc),
            Kind::Mul => not_a_store(self.compute_fast(instr, Kind::Mul), self.pc),
            Kind::Mulh => not_a_store(self.compute_fast(instr, Kind::Mulh), self.pc),
            Kind::Mulhsu => not_a_store(self.compute_fast(instr, Kind::Mulhsu), self.pc),
            Kind::Mulhu => not_a_store(self.compute_fast(instr, Kind::Mulhu), self.pc),
            Kind::Div => not_a_store(self.compute_fast(instr, Kind::Div), self.pc),
            Kind::Divu => not_a_store(self.compute_fast(instr, Kind::Divu), self.pc),
            Kind::Rem => not_a_store(self.compute_fast(instr, Kind::Rem), self.pc),
            Kind::Remu => not_a_store(self.compute_fast(instr, Kind::Remu), self.pc),
            Kind::Fence => not_a_store(self.retire_fast(instr, Kind::Fence), self.pc),
            Kind::FenceI => not_a_store(self.retire_fast(instr, Kind::FenceI), self.pc),
            Kind::Wfi => not_a_store(self.retire_fast(instr, Kind::Wfi), self.pc),
            Kind::Sb => self.store_fast::<FREE>(instr, Kind::Sb, 1, size, &mut windows.stores),
            Kind::Sh => self.store_fast::<FREE>(instr, Kind::Sh, 2, size, &mut windows.stores),
            Kind::Sw => self.store_fast::<FREE>(instr, Kind::Sw, 4, size, &mut windows.stores),
            // None is left out, so that no test of the kind goes before the jump.
            Kind::Ecall | Kind::Ebreak | Kind::Mret => not_a_store(false, self.pc),
            Kind::Csrrw | Kind::Csrrs | Kind::Csrrc => not_a_store(false, self.pc),
            Kind::Csrrwi | Kind::Csrrsi | Kind::Csrrci => not_a_store(false, self.pc),
            Kind::LrW | Kind::ScW | Kind::AmoswapW | Kind::AmoaddW => not_a_store(false, self.pc),
            Kind::AmoxorW | Kind::AmoandW | Kind::AmoorW => not_a_store(false, self.pc),
            Kind::AmominW | Kind::AmomaxW | Kind::AmominuW | Kind::AmomaxuW => not_a_store(
                false, self.pc,
            ),
        }
    }

    /// A store, as a fast step. It tells to which address, also where it is not made.
    #[inline(always)]
    fn store_fast<const FREE: bool>(
        &mut self,
        instr: &Fields,
        kind: Kind,
        width: u32,
        size: u32,
        window: &mut Span,
    ) -> Tried
        requires kind { kind ≡ instr.now.kind }
        requires group { group_of kind ≡ group.Store }
        requires width { width ≡ store_width kind }
        requires widths { IsWidth width }
        requires size { size ≡ length self.old.state.ram }
        requires free { FREE ≡ true → is_unrestricted self.old.state.csrs ≡ true }
        requires is_open { IsOpen self.old.state.csrs Right.Store window.old }
        ensures tried { IsTry self.old self.new instr.now result }
        ensures is_open { IsOpen self.old.state.csrs Right.Store window.new }
    {
        let address = self.data_address(instr);
        let is_made = self.store_here::<FREE>(instr, address, kind, width, size, window);
        let next = self.pc;
        Tried {
            is_made,
            stored: Some(address),
            next,
        }
    }

    /// LUI, as a fast step.
    #[inline(always)]
    fn load_upper_fast(&mut self, instr: &Fields, kind: Kind) -> bool
        requires kind { kind ≡ instr.now.kind }
        requires group { group_of kind ≡ group.LoadUpper }
        ensures acts { MatchBool result (ActsFast self.old self.new instr.now) (self.new ≡ self.old) }
        ensures stored { stored_at (group_of instr.now.kind) instr.now self.old.state ≡ None }
    {
        is_retired(self.load_upper(instr))
    }

    /// AUIPC, as a fast step.
    #[inline(always)]
    fn add_upper_fast(&mut self, instr: &Fields, kind: Kind) -> bool
        requires kind { kind ≡ instr.now.kind }
        requires group { group_of kind ≡ group.AddUpper }
        ensures acts { MatchBool result (ActsFast self.old self.new instr.now) (self.new ≡ self.old) }
        ensures stored { stored_at (group_of instr.now.kind) instr.now self.old.state ≡ None }
    {
        is_retired(self.add_upper(instr))
    }

    /// JAL, as a fast step.
    #[inline(always)]
    fn jump_fast(&mut self, instr: &Fields, kind: Kind) -> bool
        requires kind { kind ≡ instr.now.kind }
        requires group { group_of kind ≡ group.Jump }
        ensures acts { MatchBool result (ActsFast self.old self.new instr.now) (self.new ≡ self.old) }
        ensures stored { stored_at (group_of instr.now.kind) instr.now self.old.state ≡ None }
    {
        is_retired(self.jump(instr))
    }

    /// JALR, as a fast step.
    #[inline(always)]
    fn jump_register_fast(&mut self, instr: &Fields, kind: Kind) -> bool
        requires kind { kind ≡ instr.now.kind }
        requires group { group_of kind ≡ group.JumpRegister }
        ensures acts { MatchBool result (ActsFast self.old self.new instr.now) (self.new ≡ self.old) }
        ensures stored { stored_at (group_of instr.now.kind) instr.now self.old.state ≡ None }
    {
        is_retired(self.jump_register(instr))
    }

    /// A branch, as a fast step.
    #[inline(always)]
    fn branch_fast(&mut self, instr: &Fields, kind: Kind) -> bool
        requires kind { kind ≡ instr.now.kind }
        requires group { group_of kind ≡ group.Branch }
        ensures acts { MatchBool result (ActsFast self.old self.new instr.now) (self.new ≡ self.old) }
        ensures stored { stored_at (group_of instr.now.kind) instr.now self.old.state ≡ None }
    {
        is_retired(self.branch_as(instr, kind))
    }

    /// A computation from a register and the immediate, as a fast step.
    #[inline(always)]
    fn compute_immediate_fast(&mut self, instr: &Fields, kind: Kind) -> bool
        requires kind { kind ≡ instr.now.kind }
        requires group { group_of kind ≡ group.ComputeImmediate }
        ensures acts { MatchBool result (ActsFast self.old self.new instr.now) (self.new ≡ self.old) }
        ensures stored { stored_at (group_of instr.now.kind) instr.now self.old.state ≡ None }
    {
        is_retired(self.compute_immediate_as(instr, kind))
    }

    /// A computation from two registers, as a fast step.
    #[inline(always)]
    fn compute_fast(&mut self, instr: &Fields, kind: Kind) -> bool
        requires kind { kind ≡ instr.now.kind }
        requires group { group_of kind ≡ group.Compute }
        ensures acts { MatchBool result (ActsFast self.old self.new instr.now) (self.new ≡ self.old) }
        ensures stored { stored_at (group_of instr.now.kind) instr.now self.old.state ≡ None }
    {
        is_retired(self.compute_as(instr, kind))
    }

    /// What changes nothing else, as a fast step.
    #[inline(always)]
    fn retire_fast(&mut self, instr: &Fields, kind: Kind) -> bool
        requires kind { kind ≡ instr.now.kind }
        requires group { group_of kind ≡ group.Nothing }
        ensures acts { MatchBool result (ActsFast self.old self.new instr.now) (self.new ≡ self.old) }
        ensures stored { stored_at (group_of instr.now.kind) instr.now self.old.state ≡ None }
    {
        is_retired(self.retire_alone())
    }

    /// Retires.
    #[inline(always)]
    fn retire_alone(&mut self) -> Acted
        ensures { ActsAlone self.old self.new (retire_next self.old.state) result }
    {
        self.retire()
    }

    /// Counts so many steps, each of which retired an instruction and wrote no counter.
    fn count_many(&mut self, steps: u64)
        ensures { self.new ≡ counted_since steps self.old self.old }
    {
        if steps == 0 {
            return;
        }
        self.csrs.count_retired(steps);
        self.ports.count_times(steps);
    }
}

/// What is known of a try at an instruction that is no store.
#[inline(always)]
fn not_a_store(is_made: bool, next: u32) -> Tried
    ensures { (old new : KeyedState) (i : Instruction) → MatchBool is_made (ActsFast old new i) (new ≡ old)
        → stored_at (group_of i.kind) i old.state ≡ None → next ≡ new.state.pc → IsTry old new i result }
{
    Tried {
        is_made,
        stored: None,
        next,
    }
}

/// Whether an instruction retired, and wrote no counter.
#[inline(always)]
fn is_retired(acted: Acted) -> bool
    ensures { MatchBool result (acted ≡ Acted.Retired Nothing) (acted ≢ Acted.Retired Nothing) }
{
    matches!(acted, Acted::Retired(Written::Nothing))
}
