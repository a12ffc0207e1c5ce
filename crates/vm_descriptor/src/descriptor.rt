ghost use Rattle.std.specs.Prelude.{◌↔◌, IsTrue};
ghost use Rattle.vm_descriptor.specs.Descriptor.{IsRam, IsRamWord, IsClone, IsWithinLimit, IsInRange};

use crate::page_map::PageMap;
use block_port::BlockFields;
use console_port::{ConsoleFields, MAX_INPUT};
use elf_load::{MAX_PAGES, MIN_PAGES, RAM_BASE};
use guest_pmp::{ENTRIES, PmpRegisters};
use page_frames::PAGE_SIZE;
use rv_traps::CsrRegisters;
use timer_port::TimerRegisters;

/// The most clones of one ticket.
pub const MAX_CLONES: u32 = 4096;

/// The most clones that a clone may make in its turn.
pub const MAX_SHARE: u32 = 4095;

/// The most steps that a machine may make.
pub const MAX_LIMIT: u64 = 1_000_000_000;

/// What a clone of a machine starts with. The contents of its RAM, its disk and its input are those of
/// an image, and all that is not named here is empty or 0.
#[derive(Drop)]
pub struct Descriptor {
    /// The number of the image.
    pub image: u32,
    /// The pages of RAM, `MIN_PAGES` to `MAX_PAGES`.
    pub pages: u32,
    /// Which clone of its ticket it is, from 1. CLONE ID and RESULT of its fork port.
    pub clone_id: u32,
    /// How many clones it may make: ALLOT of its fork port.
    pub share: u32,
    /// A multiple of 4.
    pub pc: u32,
    /// x1 to x31.
    pub registers: [u32; 31],
    pub csrs: CsrRegisters,
    pub timer: TimerRegisters,
    /// The steps that were made up to the fork, the fork's own among them.
    pub steps: u64,
    /// 1 to `MAX_LIMIT`.
    pub limit: u64,
    /// The address of the word that LR reserved, if any.
    pub reservation: Option<u32>,
    pub console: ConsoleFields,
    pub block: BlockFields,
    /// ARG0 of the fork port.
    pub argument_0: u32,
    /// ARG1 of the fork port.
    pub argument_1: u32,
    /// JSEL of the fork port.
    pub join_select: u32,
    /// GRANTED of the fork port.
    pub granted: u32,
    /// For each page of RAM, whether it is blank: it reads as zeros.
    pub blank: PageMap,
}

impl Descriptor {
    /// Whether each field holds only what it can in a machine.
    pub fn is_in_range(&self) -> bool
        ensures { IsTrue result ↔ IsInRange self.now }
    {
        self.is_ram()
            && self.is_clone()
            && self.pc % 4 == 0
            && self.csrs.is_in_range()
            && self.is_within_limit()
            && match self.reservation {
                Some(address) => is_ram_word(self.pages, address),
                None => true,
            }
            && self.console.place as usize <= MAX_INPUT
    }

    fn is_ram(&self) -> bool
        ensures { IsTrue result ↔ IsRam self.now }
    {
        (MIN_PAGES..=MAX_PAGES).contains(&self.pages) && self.blank.has(self.pages)
    }

    fn is_clone(&self) -> bool
        ensures { IsTrue result ↔ IsClone self.now }
    {
        (1..=MAX_CLONES).contains(&self.clone_id) && self.share <= MAX_SHARE
    }

    fn is_within_limit(&self) -> bool
        ensures { IsTrue result ↔ IsWithinLimit self.now }
    {
        (1..=MAX_LIMIT).contains(&self.limit) && self.steps <= self.limit
    }
}

/// What versions without entries of memory protection tell of them.
pub(crate) const NO_ENTRIES: PmpRegisters = PmpRegisters {
    configurations: [0; ENTRIES],
    addresses: [0; ENTRIES],
};

/// Whether a word of RAM that has so many pages lies at an address.
fn is_ram_word(pages: u32, address: u32) -> bool
    ensures { IsTrue result ↔ IsRamWord pages address }
{
    let end = u64::from(RAM_BASE) + PAGE_SIZE as u64 * u64::from(pages);
    address % 4 == 0 && address >= RAM_BASE && u64::from(address) < end
}
