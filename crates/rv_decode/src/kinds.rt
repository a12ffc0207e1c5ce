ghost use Rattle.std.specs.Prelude.{◌≡◌};
ghost use Rattle.rv_decode.specs.Kinds.{format_of, group_of};

/// What an instruction does, by its name in the RISC-V Unprivileged ISA 20191213, chapter 24, and for
/// `Mret` and `Wfi` in the Privileged ISA 20211203, chapter 5.
#[derive(Clone, Copy)]
pub enum Kind {
    /// Load upper immediate.
    Lui,
    /// Add upper immediate to pc.
    Auipc,
    /// Jump and link.
    Jal,
    /// Jump and link, to a register's address.
    Jalr,
    /// Branch where equal.
    Beq,
    /// Branch where not equal.
    Bne,
    /// Branch where less, signed.
    Blt,
    /// Branch where greater or equal, signed.
    Bge,
    /// Branch where less, unsigned.
    Bltu,
    /// Branch where greater or equal, unsigned.
    Bgeu,
    /// Load byte, sign-extended.
    Lb,
    /// Load halfword, sign-extended.
    Lh,
    /// Load word.
    Lw,
    /// Load byte, zero-extended.
    Lbu,
    /// Load halfword, zero-extended.
    Lhu,
    /// Store byte.
    Sb,
    /// Store halfword.
    Sh,
    /// Store word.
    Sw,
    /// Add immediate.
    Addi,
    /// Set where less than the immediate, signed.
    Slti,
    /// Set where less than the immediate, unsigned.
    Sltiu,
    /// Exclusive or with the immediate.
    Xori,
    /// Or with the immediate.
    Ori,
    /// And with the immediate.
    Andi,
    /// Shift left by the immediate.
    Slli,
    /// Shift right by the immediate, zeros in.
    Srli,
    /// Shift right by the immediate, copies of the sign in.
    Srai,
    /// Add.
    Add,
    /// Subtract.
    Sub,
    /// Shift left.
    Sll,
    /// Set where less, signed.
    Slt,
    /// Set where less, unsigned.
    Sltu,
    /// Exclusive or.
    Xor,
    /// Shift right, zeros in.
    Srl,
    /// Shift right, copies of the sign in.
    Sra,
    /// Or.
    Or,
    /// And.
    And,
    /// Low half of the product.
    Mul,
    /// High half of the product, signed by signed.
    Mulh,
    /// High half of the product, signed by unsigned.
    Mulhsu,
    /// High half of the product, unsigned by unsigned.
    Mulhu,
    /// Quotient, signed.
    Div,
    /// Quotient, unsigned.
    Divu,
    /// Remainder, signed.
    Rem,
    /// Remainder, unsigned.
    Remu,
    /// Order memory accesses.
    Fence,
    /// Order fetches after stores.
    FenceI,
    /// Call the environment.
    Ecall,
    /// Break to a debugger.
    Ebreak,
    /// Return from a trap, to the mode in MPP.
    Mret,
    /// Wait for an interrupt.
    Wfi,
    /// Read and write a CSR.
    Csrrw,
    /// Read a CSR and set bits.
    Csrrs,
    /// Read a CSR and clear bits.
    Csrrc,
    /// Read a CSR and write the operand.
    Csrrwi,
    /// Read a CSR and set the operand's bits.
    Csrrsi,
    /// Read a CSR and clear the operand's bits.
    Csrrci,
    /// Load a word and reserve it.
    LrW,
    /// Store a word where it is reserved.
    ScW,
    /// Swap with a word of memory.
    AmoswapW,
    /// Add to a word of memory.
    AmoaddW,
    /// Exclusive or into a word of memory.
    AmoxorW,
    /// And into a word of memory.
    AmoandW,
    /// Or into a word of memory.
    AmoorW,
    /// Lesser with a word of memory, signed.
    AmominW,
    /// Greater with a word of memory, signed.
    AmomaxW,
    /// Lesser with a word of memory, unsigned.
    AmominuW,
    /// Greater with a word of memory, unsigned.
    AmomaxuW,
}

/// How the fields of an instruction lie in its word (RISC-V Unprivileged ISA 20191213, sections 2.2
/// and 2.3), and so which it has.
#[derive(Clone, Copy)]
pub enum Format {
    /// `rd` and an immediate of the upper 20 bits.
    U,
    /// `rd` and a signed even immediate of 21 bits.
    J,
    /// `rs1`, `rs2` and a signed even immediate of 13 bits.
    B,
    /// `rd`, `rs1` and a signed immediate of 12 bits.
    I,
    /// `rs1`, `rs2` and a signed immediate of 12 bits.
    S,
    /// `rd`, `rs1` and an immediate from 0 to 31.
    Shift,
    /// `rd`, `rs1` and the number of a CSR, from 0 to 4095. Where the kind takes an operand in place
    /// of a register, `rs1` is that operand, from 0 to 31.
    Csr,
    /// `rd`, `rs1` and `rs2`.
    R,
    /// `rd` and `rs1`.
    Lr,
    /// No field.
    Bare,
}

/// The kinds that are executed alike.
#[derive(Clone, Copy)]
pub enum Group {
    /// LUI.
    LoadUpper,
    /// AUIPC.
    AddUpper,
    /// JAL.
    Jump,
    /// JALR.
    JumpRegister,
    /// The branches.
    Branch,
    /// The loads, but for LR.
    Load,
    /// The stores, but for SC.
    Store,
    /// Computations from `rs1` and the immediate.
    ComputeImmediate,
    /// Computations from `rs1` and `rs2`.
    Compute,
    /// FENCE, FENCE.I and WFI, which change nothing.
    Nothing,
    /// ECALL.
    EnvironmentCall,
    /// EBREAK.
    Breakpoint,
    /// MRET.
    TrapReturn,
    /// Accesses to CSRs.
    Csr,
    /// LR.
    LoadReserved,
    /// SC.
    StoreConditional,
    /// The atomic memory operations.
    Amo,
}

impl Kind {
    /// The format of this kind's words.
    #[inline]
    #[tactic(auto, unfolding(crate::specs::Kinds::format_of))]
    pub fn format(self) -> Format
        ensures { result ≡ format_of self }
    {
        match self {
            Kind::Lui | Kind::Auipc => Format::U,
            Kind::Jal => Format::J,
            Kind::Beq | Kind::Bne | Kind::Blt | Kind::Bge | Kind::Bltu | Kind::Bgeu => Format::B,
            Kind::Jalr | Kind::Lb | Kind::Lh | Kind::Lw | Kind::Lbu | Kind::Lhu => Format::I,
            Kind::Sb | Kind::Sh | Kind::Sw => Format::S,
            Kind::Addi | Kind::Slti | Kind::Sltiu | Kind::Xori | Kind::Ori | Kind::Andi =>
                Format::I,
            Kind::Slli | Kind::Srli | Kind::Srai => Format::Shift,
            Kind::Add | Kind::Sub | Kind::Sll | Kind::Slt | Kind::Sltu => Format::R,
            Kind::Xor | Kind::Srl | Kind::Sra | Kind::Or | Kind::And => Format::R,
            Kind::Mul | Kind::Mulh | Kind::Mulhsu | Kind::Mulhu => Format::R,
            Kind::Div | Kind::Divu | Kind::Rem | Kind::Remu => Format::R,
            Kind::Fence | Kind::FenceI | Kind::Ecall | Kind::Ebreak | Kind::Mret | Kind::Wfi => {
                Format::Bare
            }
            Kind::Csrrw | Kind::Csrrs | Kind::Csrrc => Format::Csr,
            Kind::Csrrwi | Kind::Csrrsi | Kind::Csrrci => Format::Csr,
            Kind::LrW => Format::Lr,
            Kind::ScW | Kind::AmoswapW | Kind::AmoaddW => Format::R,
            Kind::AmoxorW | Kind::AmoandW | Kind::AmoorW => Format::R,
            Kind::AmominW | Kind::AmomaxW | Kind::AmominuW | Kind::AmomaxuW => Format::R,
        }
    }

    /// The group of this kind.
    #[inline]
    #[tactic(auto, unfolding(crate::specs::Kinds::group_of))]
    pub fn group(self) -> Group
        ensures { result ≡ group_of self }
    {
        match self {
            Kind::Lui => Group::LoadUpper,
            Kind::Auipc => Group::AddUpper,
            Kind::Jal => Group::Jump,
            Kind::Jalr => Group::JumpRegister,
            Kind::Beq | Kind::Bne | Kind::Blt | Kind::Bge | Kind::Bltu | Kind::Bgeu =>
                Group::Branch,
            Kind::Lb | Kind::Lh | Kind::Lw | Kind::Lbu | Kind::Lhu => Group::Load,
            Kind::Sb | Kind::Sh | Kind::Sw => Group::Store,
            Kind::Addi | Kind::Slti | Kind::Sltiu | Kind::Xori | Kind::Ori | Kind::Andi => {
                Group::ComputeImmediate
            }
            Kind::Slli | Kind::Srli | Kind::Srai => Group::ComputeImmediate,
            Kind::Add | Kind::Sub | Kind::Sll | Kind::Slt | Kind::Sltu => Group::Compute,
            Kind::Xor | Kind::Srl | Kind::Sra | Kind::Or | Kind::And => Group::Compute,
            Kind::Mul | Kind::Mulh | Kind::Mulhsu | Kind::Mulhu => Group::Compute,
            Kind::Div | Kind::Divu | Kind::Rem | Kind::Remu => Group::Compute,
            Kind::Fence | Kind::FenceI | Kind::Wfi => Group::Nothing,
            Kind::Ecall => Group::EnvironmentCall,
            Kind::Ebreak => Group::Breakpoint,
            Kind::Mret => Group::TrapReturn,
            Kind::Csrrw | Kind::Csrrs | Kind::Csrrc => Group::Csr,
            Kind::Csrrwi | Kind::Csrrsi | Kind::Csrrci => Group::Csr,
            Kind::LrW => Group::LoadReserved,
            Kind::ScW => Group::StoreConditional,
            Kind::AmoswapW | Kind::AmoaddW | Kind::AmoxorW | Kind::AmoandW => Group::Amo,
            Kind::AmoorW | Kind::AmominW | Kind::AmomaxW | Kind::AmominuW => Group::Amo,
            Kind::AmomaxuW => Group::Amo,
        }
    }
}
