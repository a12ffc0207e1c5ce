//! Tests of the parts of a machine and of the programs for it, by public calls: instructions, traps, ports, the
//! assembler, generated guests, and the fates of replies. They look at what no clause says: the table of instruction
//! words against words that were encoded by hand, results at edge values, the numbers of registers, commands and
//! refusals, known words and images of programs, that calls succeed where there is memory, and that a port moves between
//! threads. They stand here and not in the crates of the calls, since a crate with tests is proved twice, and this one
//! has nothing else.
#![tactic(auto)]

#[cfg(test)]
mod block_port_tests;
#[cfg(test)]
mod console_port_tests;
#[cfg(test)]
mod equal;
#[cfg(test)]
mod fields;
#[cfg(test)]
mod fork_port_tests;
#[cfg(test)]
mod guest_gen_tests;
#[cfg(test)]
mod guest_pmp_tests;
#[cfg(test)]
mod rows;
#[cfg(test)]
mod rv_asm_tests;
#[cfg(test)]
mod rv_decode_tests;
#[cfg(test)]
mod rv_exec_tests;
#[cfg(test)]
mod rv_traps_tests;
#[cfg(test)]
mod sibling_port_tests;
#[cfg(test)]
mod sizes;
#[cfg(test)]
mod timer_port_tests;
#[cfg(test)]
mod vm_bus_tests;
#[cfg(test)]
mod wire_fates_tests;
