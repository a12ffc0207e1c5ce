//! The bus of a machine: where its ports lie, and what of them crosses to a child. `specs/Bus.antt` has their registers,
//! and what a load and a store of an address are.
#![tactic(auto)]

ghost use Rattle.std.specs.Prelude.{◌≡◌, ◌+◌, ◌^◌, ◌<◌, ◌≤◌, IsTrue};
ghost use Rattle.port_map.specs.Ranges.{is_within};
ghost use Rattle.port_map.specs.Bus.{IsAt, place_of};

use block_port::BlockFields;
use block_port::registers::BLOCK_SIZE;
use console_port::ConsoleFields;
use console_port::registers::CONSOLE_SIZE;
use fork_port::ForkFields;
use fork_port::registers::FORK_SIZE;
use sibling_port::registers::SIBLING_SIZE;
use timer_port::TimerRegisters;

/// The address of the console.
pub const CONSOLE_BASE: u32 = 0x1000_0000;

/// The address of the timer.
pub const TIMER_BASE: u32 = 0x0200_4000;

/// The bytes from the timer's first register to the end of its last.
pub const TIMER_SIZE: u32 = 0x8000;

/// The address of the block port.
pub const BLOCK_BASE: u32 = 0x1000_1000;

/// The address of the fork port.
pub const FORK_BASE: u32 = 0x1000_2000;

/// The address of the sibling port.
pub const SIBLING_BASE: u32 = 0x1000_3000;

/// The port that an address is of, with the offset there.
#[derive(Clone, Copy)]
pub enum Place {
    Console(u32),
    Timer(u32),
    Block(u32),
    Fork(u32),
    Sibling(u32),
    NoPort,
}

/// The registers of the ports, but for the disk, the input and the output, the tickets and what was
/// joined, and those of the sibling port, which is new in each machine.
#[derive(Clone, Copy)]
pub struct PortFields {
    pub timer: TimerRegisters,
    pub console: ConsoleFields,
    pub block: BlockFields,
    pub fork: ForkFields,
}

/// The port that an address is of, if it is of one.
#[tactic(auto, using(crate::proofs::Ranges::first_place, crate::proofs::Ranges::later_place, crate::proofs::Ranges::no_place))]
#[inline]
pub fn place_of(address: u32) -> Place
    ensures value { result ≡ place_of address }
    ensures offset { IsAt address result }
{
    if is_within(CONSOLE_BASE, CONSOLE_SIZE, address) {
        return Place::Console(address - CONSOLE_BASE);
    }
    if is_within(TIMER_BASE, TIMER_SIZE, address) {
        return Place::Timer(address - TIMER_BASE);
    }
    if is_within(BLOCK_BASE, BLOCK_SIZE, address) {
        return Place::Block(address - BLOCK_BASE);
    }
    if is_within(FORK_BASE, FORK_SIZE, address) {
        return Place::Fork(address - FORK_BASE);
    }
    if is_within(SIBLING_BASE, SIBLING_SIZE, address) {
        return Place::Sibling(address - SIBLING_BASE);
    }
    Place::NoPort
}

/// Whether an address is one of a range of so many.
#[inline]
fn is_within(base: u32, size: u32, address: u32) -> bool
    requires { base + size < 2 ^ 32 }
    ensures value { result ≡ is_within base size address }
    ensures above { IsTrue result → base ≤ address }
{
    base <= address && address < base + size
}
