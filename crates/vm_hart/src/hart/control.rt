//! Jumps and branches.

ghost use Rattle.std.specs.Prelude.{◌≡◌, ◌+◌, ◌==◌, ◌%◌, ◌^◌};
ghost use Rattle.rv_decode.specs.declared.kinds.Group.TheVariants as group;
ghost use Rattle.rv_decode.specs.Kinds.{group_of};
ghost use Rattle.forest_model.specs.Action.{immediate};
ghost use Rattle.forest_model.specs.Control.{jump_to, relative, linked, jump, jump_register, branch};
ghost use Rattle.vm_hart.specs.Acts.{ActsAlone};

use super::{Acted, Hart, trapped};
use forest_model::Written;
use forest_model::cause::INSTRUCTION_ADDRESS_MISALIGNED;
use instruction_slots::Fields;
use rv_decode::Kind;
use rv_exec::branch_taken;

impl Hart {
    #[inline(always)]
    #[tactic(auto, unfolding(forest_model::specs::Control::jump))]
    pub(super) fn jump(&mut self, instr: &Fields) -> Acted
        ensures { ActsAlone self.old self.new (jump instr.now self.old.state) result }
    {
        let pc = self.pc;
        if !self.lands_aligned(instr) {
            return trapped(INSTRUCTION_ADDRESS_MISALIGNED, after(pc, instr));
        }
        // The target is computed last, so that it can be where the pc was: then each step has the pc in one place.
        self.set_register(instr.rd(), pc.wrapping_add(4));
        self.pc = after(pc, instr);
        Acted::Retired(Written::Nothing)
    }

    #[inline(always)]
    #[tactic(auto, unfolding(forest_model::specs::Control::jump_register))]
    pub(super) fn jump_register(&mut self, instr: &Fields) -> Acted
        ensures { ActsAlone self.old self.new (jump_register instr.now self.old.state) result }
    {
        let address = self
            .register(instr.rs1())
            .wrapping_add(instr.imm().cast_unsigned());
        self.link_and_jump(instr, address - address % 2)
    }

    #[inline(always)]
    #[tactic(auto, unfolding(rv_decode::specs::Kinds::group_of))]
    pub(super) fn branch(&mut self, instr: &Fields) -> Acted
        requires { group_of instr.now.kind ≡ group.Branch }
        ensures { ActsAlone self.old self.new (branch instr.now self.old.state) result }
    {
        match instr.kind() {
            Kind::Beq => self.branch_as(instr, Kind::Beq),
            Kind::Bne => self.branch_as(instr, Kind::Bne),
            Kind::Blt => self.branch_as(instr, Kind::Blt),
            Kind::Bge => self.branch_as(instr, Kind::Bge),
            Kind::Bltu => self.branch_as(instr, Kind::Bltu),
            Kind::Bgeu => self.branch_as(instr, Kind::Bgeu),
            _ => unreachable!(),
        }
    }

    /// The same for a kind that is known where this is inlined, so that its test is one comparison there.
    #[inline(always)]
    #[tactic(auto, unfolding(forest_model::specs::Control::branch))]
    pub(super) fn branch_as(&mut self, instr: &Fields, kind: Kind) -> Acted
        requires kind { kind ≡ instr.now.kind }
        requires group { group_of kind ≡ group.Branch }
        ensures { ActsAlone self.old self.new (branch instr.now self.old.state) result }
    {
        let a = self.register(instr.rs1());
        let b = self.register(instr.rs2());
        if !branch_taken(kind, a, b) {
            return self.retire();
        }
        let target = self.relative(instr);
        self.jump_to(target)
    }

    /// The pc plus the immediate.
    #[inline(always)]
    fn relative(&self, instr: &Fields) -> u32
        ensures { result ≡ relative instr.now self.now.state }
    {
        after(self.pc, instr)
    }

    /// Whether the pc plus the immediate is a multiple of 4. The pc is one, so the immediate tells.
    #[inline(always)]
    fn lands_aligned(&self, instr: &Fields) -> bool
        ensures { result ≡ (relative instr.now self.now.state % 4 == 0) }
    {
        let _ = &self.pc;
        instr.imm().cast_unsigned() % 4 == 0
    }

    /// Jumps, with the address of the next instruction for rd.
    #[inline(always)]
    fn link_and_jump(&mut self, instr: &Fields, target: u32) -> Acted
        ensures { ActsAlone self.old self.new (jump_to target (linked instr.now self.old.state)) result }
    {
        if target % 4 != 0 {
            return trapped(INSTRUCTION_ADDRESS_MISALIGNED, target);
        }
        let next = self.pc.wrapping_add(4);
        self.set_register(instr.rd(), next);
        self.pc = target;
        Acted::Retired(Written::Nothing)
    }

    #[inline(always)]
    fn jump_to(&mut self, target: u32) -> Acted
        ensures { ActsAlone self.old self.new (jump_to target self.old.state) result }
    {
        if target % 4 != 0 {
            return trapped(INSTRUCTION_ADDRESS_MISALIGNED, target);
        }
        self.pc = target;
        Acted::Retired(Written::Nothing)
    }
}

/// An address plus the immediate.
#[inline(always)]
fn after(address: u32, instr: &Fields) -> u32
    ensures { result ≡ (address + immediate instr.now) % 2 ^ 32 }
{
    address.wrapping_add(instr.imm().cast_unsigned())
}
