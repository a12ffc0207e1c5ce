//! Descriptors as bytes.

ghost use Rattle.std.specs.Prelude.{◌≡◌, ◌≤◌, ◌<◌, ◌^◌, ◌+◌, [], ◌∷◌, ◌++◌, length, IfOk, OnOk};
ghost use Rattle.std.specs.List.{flat_map};
ghost use Rattle.vm_descriptor.specs.Descriptor.{IsInRange};
ghost use Rattle.guest_pmp.specs.Registers.{at_reset as no_entries};
ghost use Rattle.rv_traps.specs.Registers.{IsInRange as AreCsrsInRange};
ghost use Rattle.vm_descriptor.specs.Fields.{address_of, mode_bit, reserved_of};
ghost use Rattle.vm_descriptor.specs.Versions.{IsVersion};
ghost use Rattle.vm_descriptor.specs.Described.{before_buffer, described, described_as, described_old, described_v2, double, entries_as, word};

use crate::descriptor::Descriptor;
use crate::map::push_rest;
use crate::version::{VERSION_1, VERSION_2, VERSION_3, Version};
use flat_memory::push_words;
use guest_pmp::{Mode, PmpRegisters};
use rv_traps::CsrRegisters;
use std::alloc::{AllocError, Global};

/// The room for a map at first, in bytes: that of the lengths of some twenty runs.
const MAP_ROOM: usize = 40;

impl Descriptor {
    /// The bytes of a descriptor that is in range, in the newest version.
    pub fn encode(&self, alloc: Global) -> Result<Vec<u8>, AllocError>
        requires { IsInRange self.now }
        ensures { IfOk result (λ bytes. bytes.items ≡ described self.now) }
    {
        self.encode_as(alloc, &VERSION_3)
    }

    /// Its bytes in the second version, where all entries of memory protection are 0.
    pub fn encode_v2(&self, alloc: Global) -> Result<Vec<u8>, AllocError>
        requires in_range { IsInRange self.now }
        requires entries { self.now.csrs.pmp ≡ no_entries }
        ensures { IfOk result (λ bytes. bytes.items ≡ described_v2 self.now) }
    {
        self.encode_as(alloc, &VERSION_2)
    }

    /// Its bytes in the first version, where they are 0, and it has at most 1,024 pages.
    pub fn encode_old(&self, alloc: Global) -> Result<Vec<u8>, AllocError>
        requires in_range { IsInRange self.now }
        requires entries { self.now.csrs.pmp ≡ no_entries }
        requires few { self.now.pages ≤ 1024 }
        ensures { IfOk result (λ bytes. bytes.items ≡ described_old self.now) }
    {
        self.encode_as(alloc, &VERSION_1)
    }

    /// Its bytes in a version.
    #[tactic(auto, using(std::proofs::lemmas::List::append_assoc), unfolding(crate::specs::Described::described_as))]
    fn encode_as(&self, alloc: Global, version: &Version) -> Result<Vec<u8>, AllocError>
        requires in_range { IsInRange self.now }
        requires known { IsVersion version.now }
        ensures { IfOk result (λ bytes. bytes.items ≡ described_as version.now self.now) }
    {
        let mut bytes = Vec::with_capacity(alloc, version.fields + MAP_ROOM)?;
        self.push_fields(version, &mut bytes)?;
        bytes.extend_from_slice(&self.block.buffer)?;
        push_entries(&mut bytes, version.has_entries, &self.csrs.pmp)?;
        push_rest(&mut bytes, version.has_forms, &self.blank)?;
        Ok(bytes)
    }

    /// Adds the fields before the buffer.
    #[tactic(auto, using(std::proofs::lemmas::List::append_assoc))]
    fn push_fields(&self, version: &Version, bytes: &mut Vec<u8>) -> Result<(), AllocError>
        requires { IsInRange self.now }
        ensures { OnOk result (bytes.new.items ≡ bytes.old.items ++ before_buffer version.now.mark self.now) }
    {
        bytes.extend_from_slice(&version.mark)?;
        push_words(
            bytes,
            &[self.image, self.pages, self.clone_id, self.share, self.pc],
        )?;
        push_words(bytes, &self.registers)?;
        push_csrs(bytes, &self.csrs)?;
        push_doubles(
            bytes,
            &[
                self.csrs.mcycle,
                self.csrs.minstret,
                self.timer.mtime,
                self.timer.mtimecmp,
                self.steps,
                self.limit,
            ],
        )?;
        push_words(bytes, &reservation_words(self.reservation))?;
        push_words(
            bytes,
            &[
                self.console.place,
                u32::from(self.console.line_control),
                self.block.sector,
                self.block.status.word(),
                self.argument_0,
                self.argument_1,
                self.join_select,
                self.granted,
            ],
        )?;
        Ok(())
    }
}

/// Adds the bytes of numbers of 64 bits.
fn push_doubles(bytes: &mut Vec<u8>, doubles: &[u64]) -> Result<(), AllocError>
    ensures { OnOk result (bytes.new.items ≡ bytes.old.items ++ flat_map double doubles.now) }
{
    for double in doubles {
        bytes.extend_from_slice(&double.to_le_bytes())?;
    }
    Ok(())
}

/// Adds the entries of memory protection, in a version that has them.
#[tactic(auto, using(std::proofs::lemmas::List::append_assoc))]
fn push_entries(
    bytes: &mut Vec<u8>,
    has_entries: bool,
    pmp: &PmpRegisters,
) -> Result<(), AllocError>
    ensures { OnOk result (bytes.new.items ≡ bytes.old.items ++ entries_as has_entries pmp.now) }
{
    if !has_entries {
        return Ok(());
    }
    bytes.extend_from_slice(&pmp.configurations)?;
    push_words(bytes, &pmp.addresses)
}

/// The word of mstatus, with the mode in bit 31.
fn mode_and_mstatus(mode: Mode, mstatus: u32) -> u32
    requires { mstatus < 2 ^ 31 }
    ensures { result ≡ mode_bit mode + mstatus }
{
    match mode {
        Mode::User => 0x8000_0000 + mstatus,
        Mode::Machine => mstatus,
    }
}

/// Adds the words of the control and status registers but the counters.
fn push_csrs(bytes: &mut Vec<u8>, csrs: &CsrRegisters) -> Result<(), AllocError>
    requires { AreCsrsInRange csrs.now }
    ensures { OnOk result (bytes.new.items ≡ bytes.old.items ++ (word (mode_bit csrs.now.mode + csrs.now.mstatus) ++ (word csrs.now.mie ++ (word csrs.now.mtvec
        ++ (word csrs.now.mscratch ++ (word csrs.now.mepc ++ (word csrs.now.mcause ++ word csrs.now.mtval))))))) }
{
    push_words(
        bytes,
        &[
            mode_and_mstatus(csrs.mode, csrs.mstatus),
            csrs.mie,
            csrs.mtvec,
            csrs.mscratch,
            csrs.mepc,
            csrs.mcause,
            csrs.mtval,
        ],
    )
}

/// The words of a reservation: whether there is one, and the address.
fn reservation_words(reservation: Option<u32>) -> [u32; 2]
    ensures { result ≡ reserved_of reservation ∷ address_of reservation ∷ [] }
{
    match reservation {
        Some(address) => [1, address],
        None => [0, 0],
    }
}
