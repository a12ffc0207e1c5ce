//! Instructions that compute a value for rd.

ghost use Rattle.std.specs.Prelude.{◌≡◌};
ghost use Rattle.rv_decode.specs.declared.kinds.Group.TheVariants as group;
ghost use Rattle.rv_decode.specs.Kinds.{group_of};
ghost use Rattle.forest_model.specs.Compute.{load_upper, add_upper, compute_immediate, compute};
ghost use Rattle.vm_hart.specs.Acts.{ActsAlone};

use super::{Acted, Hart};
use instruction_slots::Fields;
use rv_decode::Kind;
use rv_exec::alu;

impl Hart {
    #[inline(always)]
    #[tactic(auto, unfolding(forest_model::specs::Compute::load_upper))]
    pub(super) fn load_upper(&mut self, instr: &Fields) -> Acted
        ensures { ActsAlone self.old self.new (load_upper instr.now self.old.state) result }
    {
        self.retire_with(instr, instr.imm().cast_unsigned())
    }

    #[inline(always)]
    #[tactic(auto, unfolding(forest_model::specs::Compute::add_upper))]
    pub(super) fn add_upper(&mut self, instr: &Fields) -> Acted
        ensures { ActsAlone self.old self.new (add_upper instr.now self.old.state) result }
    {
        let value = self.pc.wrapping_add(instr.imm().cast_unsigned());
        self.retire_with(instr, value)
    }

    #[inline(always)]
    #[tactic(auto, unfolding(rv_decode::specs::Kinds::group_of))]
    pub(super) fn compute_immediate(&mut self, instr: &Fields) -> Acted
        requires { group_of instr.now.kind ≡ group.ComputeImmediate }
        ensures { ActsAlone self.old self.new (compute_immediate instr.now self.old.state) result }
    {
        match instr.kind() {
            Kind::Addi => self.compute_immediate_as(instr, Kind::Addi),
            Kind::Slti => self.compute_immediate_as(instr, Kind::Slti),
            Kind::Sltiu => self.compute_immediate_as(instr, Kind::Sltiu),
            Kind::Xori => self.compute_immediate_as(instr, Kind::Xori),
            Kind::Ori => self.compute_immediate_as(instr, Kind::Ori),
            Kind::Andi => self.compute_immediate_as(instr, Kind::Andi),
            Kind::Slli => self.compute_immediate_as(instr, Kind::Slli),
            Kind::Srli => self.compute_immediate_as(instr, Kind::Srli),
            Kind::Srai => self.compute_immediate_as(instr, Kind::Srai),
            _ => unreachable!(),
        }
    }

    /// The same for a kind that is known where this is inlined, so that `alu` is one operation there.
    #[inline(always)]
    #[tactic(auto, unfolding(forest_model::specs::Compute::compute_immediate))]
    pub(super) fn compute_immediate_as(&mut self, instr: &Fields, kind: Kind) -> Acted
        requires kind { kind ≡ instr.now.kind }
        requires group { group_of kind ≡ group.ComputeImmediate }
        ensures { ActsAlone self.old self.new (compute_immediate instr.now self.old.state) result }
    {
        let a = self.register(instr.rs1());
        let b = instr.imm().cast_unsigned();
        self.retire_with(instr, alu(kind, a, b))
    }

    #[inline(always)]
    #[tactic(auto, unfolding(rv_decode::specs::Kinds::group_of))]
    pub(super) fn compute(&mut self, instr: &Fields) -> Acted
        requires { group_of instr.now.kind ≡ group.Compute }
        ensures { ActsAlone self.old self.new (compute instr.now self.old.state) result }
    {
        match instr.kind() {
            Kind::Add => self.compute_as(instr, Kind::Add),
            Kind::Sub => self.compute_as(instr, Kind::Sub),
            Kind::Sll => self.compute_as(instr, Kind::Sll),
            Kind::Slt => self.compute_as(instr, Kind::Slt),
            Kind::Sltu => self.compute_as(instr, Kind::Sltu),
            Kind::Xor => self.compute_as(instr, Kind::Xor),
            Kind::Srl => self.compute_as(instr, Kind::Srl),
            Kind::Sra => self.compute_as(instr, Kind::Sra),
            Kind::Or => self.compute_as(instr, Kind::Or),
            Kind::And => self.compute_as(instr, Kind::And),
            Kind::Mul => self.compute_as(instr, Kind::Mul),
            Kind::Mulh => self.compute_as(instr, Kind::Mulh),
            Kind::Mulhsu => self.compute_as(instr, Kind::Mulhsu),
            Kind::Mulhu => self.compute_as(instr, Kind::Mulhu),
            Kind::Div => self.compute_as(instr, Kind::Div),
            Kind::Divu => self.compute_as(instr, Kind::Divu),
            Kind::Rem => self.compute_as(instr, Kind::Rem),
            Kind::Remu => self.compute_as(instr, Kind::Remu),
            _ => unreachable!(),
        }
    }

    /// The same for a kind that is known where this is inlined.
    #[inline(always)]
    #[tactic(auto, unfolding(forest_model::specs::Compute::compute))]
    pub(super) fn compute_as(&mut self, instr: &Fields, kind: Kind) -> Acted
        requires kind { kind ≡ instr.now.kind }
        requires group { group_of kind ≡ group.Compute }
        ensures { ActsAlone self.old self.new (compute instr.now self.old.state) result }
    {
        let a = self.register(instr.rs1());
        let b = self.register(instr.rs2());
        self.retire_with(instr, alu(kind, a, b))
    }
}
