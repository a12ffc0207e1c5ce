//! Words that are loaded, computed with and stored in one step.

ghost use Rattle.std.specs.Prelude.{◌≡◌, ◌-◌, ◌/◌, ◌%◌, ◌<◌, length, Some, None, Ok, OnOk, OnErr, true};
ghost use Rattle.std.specs.Int.{to_le_bytes, w32};
ghost use Rattle.page_frames.specs.declared.page.TheConstants.{PAGE_SIZE};
ghost use Rattle.rv_decode.specs.declared.kinds.Group.TheVariants as group;
ghost use Rattle.rv_decode.specs.Kinds.{group_of};
ghost use Rattle.forest_model.specs.Action.{rs2};
ghost use Rattle.forest_model.specs.Memory.{with_bytes};
ghost use Rattle.forest_model.specs.Atomic.{load_reserved, reserve_access, conditional_access, conditional_action, store_conditional, amo, amo_access, amo_by};
ghost use Rattle.forest_model.specs.declared.access.Direction.TheVariants as access;
ghost use Rattle.forest_model.specs.Access.{of_ram, page_for};
ghost use Rattle.forest_model.specs.Touch.{footprint_in, footprint_of_access};
ghost use Rattle.vm_hart.specs.Acts.{Acts, InstructionGrows, IsPut};
ghost use Rattle.vm_hart.specs.Keyed.{IsHere};

use super::access::{Reach, word_access};
use super::{Acted, Hart, trapped};
use elf_load::RAM_BASE;
use forest_model::Direction;
use forest_model::cause::{LOAD_ACCESS_FAULT, STORE_ACCESS_FAULT};
use instruction_slots::Fields;
use rv_exec::amo_value;
use std::alloc::AllocError;

impl Hart {
    /// LR.
    #[inline]
    #[tactic(auto, unfolding(forest_model::specs::Atomic::load_reserved))]
    pub(super) fn load_reserved(&mut self, instr: &Fields) -> Acted
        ensures { Acts self.old self.new (footprint_of_access (reserve_access instr.now self.old.state) (rs2 instr.now self.old.state) self.old.state) (load_reserved instr.now self.old.state) (Ok result) }
    {
        let address = self.register(instr.rs1());
        match self.reach(word_access(address, Direction::Reserve)) {
            Reach::Faulted(cause) => trapped(cause, address),
            Reach::Absent(page) => Acted::Stalled(page),
            Reach::Ram(offset) => {
                let word = self.word(offset);
                self.reservation = Some(address);
                self.retire_with(instr, word)
            }
            Reach::Port => trapped(LOAD_ACCESS_FAULT, address),
        }
    }

    /// SC.
    #[inline]
    #[tactic(auto, unfolding(forest_model::specs::Atomic::store_conditional))]
    pub(super) fn store_conditional(&mut self, instr: &Fields) -> Result<Acted, AllocError>
        requires { group_of instr.now.kind ≡ group.StoreConditional }
        ensures acts { Acts self.old self.new (footprint_of_access (conditional_access instr.now self.old.state) (rs2 instr.now self.old.state) self.old.state)
            (store_conditional instr.now self.old.state) result }
        ensures memory { OnErr result (InstructionGrows instr.now self.old.state) }
    {
        let address = self.register(instr.rs1());
        let is_reserved = self.is_reserved(address);
        match self.reach(word_access(address, Direction::Conditional(is_reserved))) {
            Reach::Faulted(cause) => Ok(trapped(cause, address)),
            Reach::Absent(page) => Ok(Acted::Stalled(page)),
            Reach::Ram(offset) => self.store_if(instr, address, offset, is_reserved),
            Reach::Port => Ok(trapped(STORE_ACCESS_FAULT, address)),
        }
    }

    /// Stores rs2 at an address in RAM, if it is the one that is reserved. Nothing is reserved then.
    #[inline]
    fn store_if(
        &mut self,
        instr: &Fields,
        address: u32,
        offset: u32,
        is_reserved: bool,
    ) -> Result<Acted, AllocError>
        requires offset { offset ≡ address - RAM_BASE }
        requires aligned { offset % 4 ≡ 0 }
        requires inside { offset < length self.old.state.ram }
        requires here { is_reserved ≡ true → IsHere self.old.pages (offset / PAGE_SIZE) }
        ensures acts { Acts self.old self.new (footprint_in (access.Conditional is_reserved) (page_for (access.Conditional is_reserved) (offset / PAGE_SIZE)))
            (conditional_action is_reserved instr.now address self.old.state) result }
        ensures memory { OnErr result (is_reserved ≡ true) }
    {
        if is_reserved {
            let word = self.register(instr.rs2());
            self.write_word(address, offset, word)?;
        }
        self.reservation = None;
        Ok(self.retire_with(instr, u32::from(!is_reserved)))
    }

    /// The atomic memory operations.
    #[inline]
    #[tactic(auto, unfolding(forest_model::specs::Atomic::amo))]
    pub(super) fn amo(&mut self, instr: &Fields) -> Result<Acted, AllocError>
        requires { group_of instr.now.kind ≡ group.Amo }
        ensures acts { Acts self.old self.new (footprint_of_access (amo_access instr.now self.old.state) (rs2 instr.now self.old.state) self.old.state)
            (amo instr.now self.old.state) result }
        ensures memory { OnErr result (InstructionGrows instr.now self.old.state) }
    {
        let address = self.register(instr.rs1());
        match self.reach(word_access(address, Direction::Update)) {
            Reach::Faulted(cause) => Ok(trapped(cause, address)),
            Reach::Absent(page) => Ok(Acted::Stalled(page)),
            Reach::Ram(offset) => self.update(instr, address, offset),
            Reach::Port => Ok(trapped(STORE_ACCESS_FAULT, address)),
        }
    }

    /// Gives rd the word at an address in RAM, and puts there what the kind makes of it and rs2.
    #[inline]
    fn update(&mut self, instr: &Fields, address: u32, offset: u32) -> Result<Acted, AllocError>
        requires group { group_of instr.now.kind ≡ group.Amo }
        requires offset { offset ≡ address - RAM_BASE }
        requires aligned { offset % 4 ≡ 0 }
        requires inside { offset < length self.old.state.ram }
        requires here { IsHere self.old.pages (offset / PAGE_SIZE) }
        ensures { Acts self.old self.new (footprint_in access.Update (Some (offset / PAGE_SIZE))) (amo_by (of_ram (Some (offset / PAGE_SIZE))) instr.now address self.old.state) result }
    {
        let old = self.word(offset);
        let source = self.register(instr.rs2());
        self.write_word(address, offset, amo_value(instr.kind(), old, source))?;
        Ok(self.retire_with(instr, old))
    }

    /// Writes a word at an address in RAM whose page is here.
    #[inline]
    fn write_word(&mut self, address: u32, offset: u32, word: u32) -> Result<(), AllocError>
        requires offset { offset ≡ address - RAM_BASE }
        requires aligned { offset % 4 ≡ 0 }
        requires inside { offset < length self.old.state.ram }
        requires here { IsHere self.old.pages (offset / PAGE_SIZE) }
        ensures ok { OnOk result (IsPut self.old self.new (offset / PAGE_SIZE) (with_bytes address (to_le_bytes w32 word) self.old.state)) }
        ensures err { OnErr result (self.new ≡ self.old) }
    {
        self.store_at(offset, 4, word)
    }
}
