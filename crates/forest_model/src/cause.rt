//! The causes of exceptions (RISC-V Privileged ISA 20211203, table 3.6).

/// A jump goes to an address that is no multiple of 4.
pub const INSTRUCTION_ADDRESS_MISALIGNED: u32 = 0;

/// Memory protection denies the fetch, or the program counter is outside RAM.
pub const INSTRUCTION_ACCESS_FAULT: u32 = 1;

/// The word is no instruction that the machine has, or none that the mode may execute.
pub const ILLEGAL_INSTRUCTION: u32 = 2;

/// EBREAK.
pub const BREAKPOINT: u32 = 3;

/// The address of a load is no multiple of its width.
pub const LOAD_ADDRESS_MISALIGNED: u32 = 4;

/// Memory protection denies the load, or neither RAM nor a port gives it.
pub const LOAD_ACCESS_FAULT: u32 = 5;

/// The address of a store or of an atomic operation is no multiple of its width.
pub const STORE_ADDRESS_MISALIGNED: u32 = 6;

/// Memory protection denies the store, or neither RAM nor a port takes it.
pub const STORE_ACCESS_FAULT: u32 = 7;

/// ECALL in user mode.
pub const ENVIRONMENT_CALL_FROM_USER: u32 = 8;

/// ECALL in machine mode.
pub const ENVIRONMENT_CALL_FROM_MACHINE: u32 = 11;
