//! Accesses to control and status registers, and the return from a trap.

ghost use Rattle.std.specs.Prelude.{◌≡◌};
ghost use Rattle.forest_model.specs.Execute.{environment_call_cause};
ghost use Rattle.forest_model.specs.System.{operand, operation_of, csr_value, reads, writes, write_action, csr_access, trap_return};
ghost use Rattle.vm_hart.specs.Acts.{ActsAlone};

use super::{Acted, Hart, trapped};
use forest_model::cause::{
    ENVIRONMENT_CALL_FROM_MACHINE, ENVIRONMENT_CALL_FROM_USER, ILLEGAL_INSTRUCTION,
};
use forest_model::{CsrOperation, Written};
use guest_pmp::Mode;
use instruction_slots::Fields;
use rv_decode::Kind;
use rv_traps::Wrote;

impl Hart {
    /// MRET, as `word` encodes. It is not lawful in user mode.
    #[tactic(auto, unfolding(forest_model::specs::System::trap_return))]
    pub(super) fn trap_return(&mut self, word: u32) -> Acted
        ensures { ActsAlone self.old self.new (trap_return word self.old.state) result }
    {
        match self.csrs.mret() {
            Some(pc) => {
                self.pc = pc;
                Acted::Retired(Written::Nothing)
            }
            None => trapped(ILLEGAL_INSTRUCTION, word),
        }
    }

    /// ECALL. Its cause tells the mode that it comes from.
    pub(super) fn environment_call(&self) -> Acted
        ensures { result ≡ Acted.Trapped (environment_call_cause self.now.state.csrs.mode) 0 }
    {
        let cause = match self.csrs.mode() {
            Mode::User => ENVIRONMENT_CALL_FROM_USER,
            Mode::Machine => ENVIRONMENT_CALL_FROM_MACHINE,
        };
        trapped(cause, 0)
    }

    /// Reads and writes a CSR, as `word` encodes.
    #[tactic(auto, unfolding(forest_model::specs::System::csr_access))]
    pub(super) fn csr_access(&mut self, instr: &Fields, word: u32) -> Acted
        ensures { ActsAlone self.old self.new (csr_access instr.now word self.old.state) result }
    {
        let number = instr.imm().cast_unsigned();
        let old = if reads(operation(instr.kind()), instr) {
            match self.csrs.read(number, self.ports.is_timer_due()) {
                Some(old) => old,
                None => return trapped(ILLEGAL_INSTRUCTION, word),
            }
        } else {
            0
        };
        self.csr_write(instr, word, old)
    }

    /// Gives rd the value before, and writes the one after, if there is one.
    fn csr_write(&mut self, instr: &Fields, word: u32, old: u32) -> Acted
        ensures { ActsAlone self.old self.new (write_action (writes (operation_of instr.now.kind) instr.now) old instr.now word self.old.state) result }
    {
        let operation = operation(instr.kind());
        if !writes(operation, instr) {
            return self.retire_with(instr, old);
        }
        let number = instr.imm().cast_unsigned();
        let value = csr_value(operation, old, self.operand(instr));
        if self.csrs.write(number, value).is_none() {
            return trapped(ILLEGAL_INSTRUCTION, word);
        }
        self.retire_with(instr, old);
        Acted::Retired(Written::Counter(Wrote::by_write(number)))
    }

    /// The operand: a register, or the field itself.
    fn operand(&self, instr: &Fields) -> u32
        ensures { result ≡ operand instr.now.kind instr.now self.now.state }
    {
        match instr.kind() {
            Kind::Csrrwi | Kind::Csrrsi | Kind::Csrrci => instr.rs1(),
            _ => self.register(instr.rs1()),
        }
    }
}

/// What an access of this kind does.
fn operation(kind: Kind) -> CsrOperation
    ensures { result ≡ operation_of kind }
{
    match kind {
        Kind::Csrrs | Kind::Csrrsi => CsrOperation::SetBits,
        Kind::Csrrc | Kind::Csrrci => CsrOperation::ClearBits,
        _ => CsrOperation::Write,
    }
}

/// The value that is written, by the one before.
fn csr_value(operation: CsrOperation, old: u32, operand: u32) -> u32
    ensures { result ≡ csr_value operation old operand }
{
    match operation {
        CsrOperation::Write => operand,
        CsrOperation::SetBits => old | operand,
        CsrOperation::ClearBits => old & (u32::MAX - operand),
    }
}

/// Whether the register is read: a write that gives its value to nobody does not read.
fn reads(operation: CsrOperation, instr: &Fields) -> bool
    ensures { result ≡ reads operation instr.now }
{
    operation != CsrOperation::Write || instr.rd() != 0
}

/// Whether the register is written: bits are set or cleared where the field rs1 is not 0.
fn writes(operation: CsrOperation, instr: &Fields) -> bool
    ensures { result ≡ writes operation instr.now }
{
    operation == CsrOperation::Write || instr.rs1() != 0
}
