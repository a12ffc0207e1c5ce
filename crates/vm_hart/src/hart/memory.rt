//! Loads and stores.

ghost use Rattle.std.specs.Prelude.{◌≡◌, ◌+◌, ◌-◌, ◌^◌, ◌/◌, ◌%◌, ◌<◌, ◌≤◌, if◌then◌else◌, [], ◌∷◌, length, true, IfSome, IsNone, IsTrue, MatchBool, None, Ok, OnErr, OnOk};
ghost use Rattle.rv_decode.specs.declared.kinds.Group.TheVariants as group;
ghost use Rattle.rv_decode.specs.Kinds.{group_of};
ghost use Rattle.byteorder.specs.Endian.{little_bytes};
ghost use Rattle.forest_model.specs.Access.{reached};
ghost use Rattle.forest_model.specs.Action.{rs2};
ghost use Rattle.port_map.specs.Bus.{port_load};
ghost use Rattle.forest_model.specs.Memory.{bytes_at, data_address, effect_outcome, is_byte_range, load_access, load_by, read_action, load, store, store_access, store_action, to_load, to_store, port_outcome, is_page_range, with_zeros, zeroed};
ghost use Rattle.forest_model.specs.Footprint.{no_change, no_footprint, zeroes};
ghost use Rattle.forest_model.specs.Paged.{pages_after};
ghost use Rattle.forest_model.specs.Touch.{footprint_of_access};
ghost use Rattle.rv_exec.specs.Memory.{IsWidth, load_width, store_width};
ghost use Rattle.rv_traps.specs.Protection.{is_unrestricted};
ghost use Rattle.flat_memory.specs.Flat.{put_bytes};
ghost use Rattle.vm_hart.specs.Acts.{Acts, AccessGrows, HandsOver, InstructionGrows, IsMet, IsPut, IsReadable, StoreGrows, WaitsAt, bytes_needs};
ghost use Rattle.fork_port.specs.Handed.{handed_of};
ghost use Rattle.vm_hart.specs.Kept.{stored_at};
ghost use Rattle.vm_hart.specs.Keyed.{IsHere};
ghost use Rattle.vm_hart.specs.Fast.{ActsFast};
ghost use Rattle.vm_hart.specs.Windows.{IsOpen};

use super::access::Reach;
use super::{Acted, Hart, Request, trapped};
use elf_load::RAM_BASE;
use forest_model::cause::{LOAD_ACCESS_FAULT, STORE_ACCESS_FAULT};
use forest_model::{Access, Direction, Written};
use fork_port::refusals::{BAD_ARGUMENT, TICKETS_END};
use fork_port::registers::FORK_COMMAND;
use fork_port::{Asked, Handed, MAX_HANDED};
use guest_pmp::{Access as Right, Span};
use instruction_slots::Fields;
use page_frames::PAGE_SIZE;
use port_error::PortError;
use port_map::FORK_BASE;
use rv_decode::Kind;
use rv_exec::load_value;
use std::alloc::AllocError;
use vm_bus::Effect;

impl Hart {
    /// The address of a load or a store.
    #[inline]
    pub(super) fn data_address(&self, instr: &Fields) -> u32
        ensures { result ≡ data_address instr.now self.now.state }
    {
        self.register(instr.rs1())
            .wrapping_add(instr.imm().cast_unsigned())
    }

    #[inline(always)]
    #[tactic(auto, unfolding(forest_model::specs::Memory::load, rv_decode::specs::Kinds::group_of))]
    pub(super) fn load(&mut self, instr: &Fields) -> Acted
        requires { group_of instr.now.kind ≡ group.Load }
        ensures { Acts self.old self.new (footprint_of_access (load_access instr.now self.old.state) (rs2 instr.now self.old.state) self.old.state) (load instr.now self.old.state) (Ok result) }
    {
        let address = self.data_address(instr);
        match instr.kind() {
            Kind::Lb => self.load_from(instr, Kind::Lb, address, 1),
            Kind::Lh => self.load_from(instr, Kind::Lh, address, 2),
            Kind::Lw => self.load_from(instr, Kind::Lw, address, 4),
            Kind::Lbu => self.load_from(instr, Kind::Lbu, address, 1),
            Kind::Lhu => self.load_from(instr, Kind::Lhu, address, 2),
            _ => unreachable!(),
        }
    }

    /// Loads the `width` bytes from `address`. The kind is known where this is inlined, so that `load_value` is one
    /// operation there.
    #[inline(always)]
    fn load_from(&mut self, instr: &Fields, kind: Kind, address: u32, width: u32) -> Acted
        requires kind { kind ≡ instr.now.kind }
        requires group { group_of instr.now.kind ≡ group.Load }
        requires width { width ≡ load_width instr.now.kind }
        requires widths { IsWidth width }
        ensures { Acts self.old self.new (footprint_of_access (to_load address width) (rs2 instr.now self.old.state) self.old.state)
            (load_by (reached (to_load address width) self.old.state) instr.now address self.old.state) (Ok result) }
    {
        let access = Access {
            address,
            width,
            direction: Direction::Load,
        };
        match self.reach(access) {
            Reach::Faulted(cause) => trapped(cause, address),
            Reach::Absent(page) => Acted::Stalled(page),
            Reach::Ram(offset) => {
                let Ok(number) = self.load_at(offset, width) else {
                    unreachable!()
                };
                self.retire_with(instr, load_value(kind, number))
            }
            Reach::Port => self.load_from_port(instr, address, width),
        }
    }

    /// Loads the `width` bytes from a port.
    fn load_from_port(&mut self, instr: &Fields, address: u32, width: u32) -> Acted
        requires group { group_of instr.now.kind ≡ group.Load }
        ensures { Acts self.old self.new no_footprint (read_action (port_load self.old.state.ports address width) instr.now address self.old.state) (Ok result) }
    {
        match self.load_port(address, width) {
            Ok(number) => self.retire_with(instr, load_value(instr.kind(), number)),
            Err(_) => trapped(LOAD_ACCESS_FAULT, address),
        }
    }

    #[inline(always)]
    #[tactic(auto, unfolding(forest_model::specs::Memory::store, rv_decode::specs::Kinds::group_of))]
    pub(super) fn store(&mut self, instr: &Fields) -> Result<Acted, AllocError>
        requires group { group_of instr.now.kind ≡ group.Store }
        requires tickets { self.old.state.ports.fork.next_ticket < TICKETS_END }
        ensures acts { Acts self.old self.new (footprint_of_access (store_access instr.now self.old.state) (rs2 instr.now self.old.state) self.old.state)
            (store instr.now self.old.state) result }
        ensures memory { OnErr result (InstructionGrows instr.now self.old.state) }
    {
        let address = self.data_address(instr);
        let word = self.register(instr.rs2());
        match instr.kind() {
            Kind::Sb => self.store_to(address, 1, word),
            Kind::Sh => self.store_to(address, 2, word),
            Kind::Sw => self.store_to(address, 4, word),
            _ => unreachable!(),
        }
    }

    /// Stores the low `width` bytes of `word`.
    #[inline(always)]
    #[tactic(auto, unfolding(forest_model::specs::Memory::store_action))]
    fn store_to(&mut self, address: u32, width: u32, word: u32) -> Result<Acted, AllocError>
        requires width { IsWidth width }
        requires tickets { self.old.state.ports.fork.next_ticket < TICKETS_END }
        ensures acts { Acts self.old self.new (footprint_of_access (to_store address width) word self.old.state)
            (store_action address width (little_bytes width word) word self.old.state) result }
        ensures memory { OnErr result (AccessGrows word self.old.state (to_store address width)) }
    {
        let access = Access {
            address,
            width,
            direction: Direction::Store,
        };
        match self.reach(access) {
            Reach::Faulted(cause) => Ok(trapped(cause, address)),
            Reach::Absent(page) => Ok(Acted::Stalled(page)),
            Reach::Ram(offset) => {
                self.store_at(offset, width, word)?;
                Ok(self.retire())
            }
            Reach::Port => self.store_to_port(address, width, word),
        }
    }

    /// Stores the low `width` bytes of `word` to a port.
    fn store_to_port(&mut self, address: u32, width: u32, word: u32) -> Result<Acted, AllocError>
        requires { self.old.state.ports.fork.next_ticket < TICKETS_END }
        ensures acts { Acts self.old self.new (port_outcome address width word self.old.state).footprint
            (port_outcome address width word self.old.state).action result }
        ensures memory { OnErr result (StoreGrows address width word self.old.state) }
    {
        if let Some(page) = self.wanted_at_port(address, width, word) {
            return Ok(Acted::Stalled(page));
        }
        match self.store_port(address, width, word) {
            Ok(Effect::Done) => Ok(self.retire()),
            Ok(Effect::TimeWritten) => {
                self.retire();
                Ok(Acted::Retired(Written::Time))
            }
            Ok(Effect::Call(call)) => Ok(Acted::Asked(Request::Call(call))),
            Ok(Effect::Talk(talk)) => Ok(Acted::Asked(Request::Talk(talk))),
            Ok(Effect::Exit(value)) => {
                self.retire();
                Ok(exited(value, 0, 0))
            }
            Ok(Effect::ExitWith(value, address, count)) => Ok(self.hand_over(
                value, address, count,
            )),
            Ok(Effect::Zero(first, count)) => {
                self.zero(first, count)?;
                Ok(self.retire())
            }
            Err(PortError::Fault) => Ok(trapped(STORE_ACCESS_FAULT, address)),
            Err(PortError::Memory) => Err(AllocError),
        }
    }

    /// The page that a store to a port waits for, if it waits for one. It is asked for before the store. A command of the
    /// block port needs the page of its sector, EXIT with bytes those of the bytes, and a page that ZERO clears need not be
    /// here.
    pub(super) fn wanted_at_port(&self, address: u32, width: u32, word: u32) -> Option<u32>
        ensures some { IfSome result (WaitsAt (port_outcome address width word self.now.state).footprint.needs self.now.pages) }
        ensures none { IsNone result → IsMet (port_outcome address width word self.now.state).footprint.needs self.now.pages }
    {
        if let Some(page) = self.wanted_on_disk(address, width, word) {
            return Some(page);
        }
        match self.bytes_asked(address, width, word) {
            Some((from, count)) => self.wanted_bytes(from, count),
            None => None,
        }
    }

    /// The bytes that a store to a port asks to hand over, by the address of the first and how many they are. It is EXIT with
    /// bytes, and no other store to a port needs a page for what it does to the machine.
    fn bytes_asked(&self, address: u32, width: u32, word: u32) -> Option<(u32, u32)>
        ensures some { IfSome result (λ bytes. (effect_outcome address width word self.now.state).footprint.needs ≡ bytes_needs self.now.state bytes.0 bytes.1) }
        ensures none { IsNone result → (effect_outcome address width word self.now.state).footprint.needs ≡ [] }
    {
        if width != 4 {
            return None;
        }
        if address != FORK_BASE + FORK_COMMAND {
            return None;
        }
        match self.ports.asked(word) {
            Asked::ExitWith(_, from, count) => Some((from, count)),
            _ => None,
        }
    }

    /// The page that bytes which are to be handed over wait for, if they wait for one.
    #[cold]
    fn wanted_bytes(&self, address: u32, count: u32) -> Option<u32>
        ensures some { IfSome result (WaitsAt (bytes_needs self.now.state address count) self.now.pages) }
        ensures none { IsNone result → IsMet (bytes_needs self.now.state address count) self.now.pages }
    {
        if count == 0 {
            return None;
        }
        if !self.has_bytes(address, count) {
            return None;
        }
        let first = address - RAM_BASE;
        let last = first + (count - 1);
        self.absent_among(first / PAGE_SIZE as u32, last / PAGE_SIZE as u32)
    }

    /// The first of two pages that is not here, if one is not.
    fn absent_among(&self, first: u32, last: u32) -> Option<u32>
        requires first { first < length self.now.pages.blank }
        requires last { last < length self.now.pages.blank }
        ensures some { IfSome result (WaitsAt (first ∷ last ∷ []) self.now.pages) }
        ensures none { IsNone result → IsMet (first ∷ last ∷ []) self.now.pages }
    {
        if !self.has_page(Direction::Load, first) {
            return Some(first);
        }
        if !self.has_page(Direction::Load, last) {
            return Some(last);
        }
        None
    }

    /// Whether bytes of an address on, so many, are bytes of RAM.
    fn has_bytes(&self, address: u32, count: u32) -> bool
        ensures value { result ≡ is_byte_range address count self.now.state.ram }
        ensures pages { IsTrue result → 0 < count → (RAM_BASE ≤ address) × (address - RAM_BASE + (count - 1) < 2 ^ 32) × ((address - RAM_BASE + (count - 1)) / PAGE_SIZE < length self.now.pages.blank) }
    {
        // The call tells that RAM has whole pages.
        let _ = self.memory.pages();
        let end = u64::from(address) + u64::from(count);
        count == 0
            || address >= RAM_BASE && end <= u64::from(RAM_BASE) + u64::from(self.memory.size())
    }

    /// Ends the machine with bytes of RAM, or tells that they are not bytes of RAM.
    #[cold]
    fn hand_over(&mut self, value: u32, address: u32, count: u32) -> Acted
        requires few { count ≤ MAX_HANDED }
        requires met { IsMet (bytes_needs self.old.state address count) self.old.pages }
        ensures { HandsOver self.old self.new value address count result }
    {
        if self.has_bytes(address, count) {
            self.retire();
            return exited(value, address, count);
        }
        self.ports.refuse(BAD_ARGUMENT);
        self.retire()
    }

    /// Bytes of RAM, so many from an address on, that can be handed over.
    #[cold]
    #[inline(never)]
    pub fn handed(&self, address: u32, count: u32) -> Handed
        requires { IsReadable self.now address count }
        ensures { result ≡ handed_of (bytes_at address count self.now.state) }
    {
        if count == 0 {
            return Handed::none();
        }
        // The call tells that RAM has whole pages.
        let _ = self.memory.pages();
        let mut room = [0u8; MAX_HANDED];
        let bytes = &mut room[..count as usize];
        self.memory.read(address - RAM_BASE, bytes);
        Handed::of(bytes)
    }

    /// Loads from RAM, from a page that is here. Else nothing changes. One look-up tells both.
    #[inline(always)]
    pub(super) fn load_fast<const FREE: bool>(
        &mut self,
        instr: &Fields,
        kind: Kind,
        width: u32,
        size: u32,
        window: &mut Span,
    ) -> bool
        requires kind { kind ≡ instr.now.kind }
        requires group { group_of kind ≡ group.Load }
        requires width { width ≡ load_width kind }
        requires widths { IsWidth width }
        requires size { size ≡ length self.old.state.ram }
        requires free { FREE ≡ true → is_unrestricted self.old.state.csrs ≡ true }
        requires is_open { IsOpen self.old.state.csrs Right.Load window.old }
        ensures acts { MatchBool result (ActsFast self.old self.new instr.now) (self.new ≡ self.old) }
        ensures stored { stored_at (group_of instr.now.kind) instr.now self.old.state ≡ None }
        ensures is_open { IsOpen self.old.state.csrs Right.Load window.new }
    {
        // It is read first, as in a computation, so that both end in the same instructions.
        let rd = instr.rd();
        let access = Access {
            address: self.data_address(instr),
            width,
            direction: Direction::Load,
        };
        let Some(offset) = self.place_in::<FREE>(access, Right::Load, size, window) else {
            return false;
        };
        let Ok(number) = self.load_at(offset, width) else {
            return false;
        };
        self.retire_into(rd, load_value(kind, number));
        true
    }

    /// Stores to RAM, to a page that is here. Else the hart stays. One look-up tells both.
    #[inline(always)]
    pub(super) fn store_here<const FREE: bool>(
        &mut self,
        instr: &Fields,
        address: u32,
        kind: Kind,
        width: u32,
        size: u32,
        window: &mut Span,
    ) -> bool
        requires address { address ≡ data_address instr.now self.old.state }
        requires kind { kind ≡ instr.now.kind }
        requires group { group_of kind ≡ group.Store }
        requires width { width ≡ store_width kind }
        requires widths { IsWidth width }
        requires size { size ≡ length self.old.state.ram }
        requires free { FREE ≡ true → is_unrestricted self.old.state.csrs ≡ true }
        requires is_open { IsOpen self.old.state.csrs Right.Store window.old }
        ensures acts { MatchBool result (ActsFast self.old self.new instr.now) (self.new ≡ self.old) }
        ensures is_open { IsOpen self.old.state.csrs Right.Store window.new }
    {
        let access = Access {
            address,
            width,
            direction: Direction::Store,
        };
        let Some(offset) = self.place_in::<FREE>(access, Right::Store, size, window) else {
            return false;
        };
        let word = self.register(instr.rs2());
        // It is read before the store, so that it need not be read again behind it.
        let next = self.next_pc();
        if !self.put_here(offset, width, word) {
            return false;
        }
        self.retire_at(next);
        true
    }

    /// Puts the low `width` bytes of a word at an offset in RAM, if its page is here and memory is not wanting.
    #[inline(always)]
    fn put_here(&mut self, offset: u32, width: u32, word: u32) -> bool
        requires width { IsWidth width }
        requires aligned { offset % width ≡ 0 }
        requires inside { offset < length self.old.state.ram }
        ensures { MatchBool result
            (IsHere self.old.pages (offset / PAGE_SIZE) × IsPut self.old self.new (offset / PAGE_SIZE)
            (record self.old.state { ram = put_bytes self.old.state.ram offset (little_bytes width word) }))
            (self.new ≡ self.old) }
    {
        if self.put_own(offset, width, word) {
            return true;
        }
        self.put_anew(offset, width, word)
    }

    /// The same where the page may be shared, blank or absent. It is apart and never inlined, so that a store to a page that
    /// this hart holds alone is short.
    #[cold]
    #[inline(never)]
    fn put_anew(&mut self, offset: u32, width: u32, word: u32) -> bool
        requires width { IsWidth width }
        requires aligned { offset % width ≡ 0 }
        requires inside { offset < length self.old.state.ram }
        ensures { MatchBool result
            (IsHere self.old.pages (offset / PAGE_SIZE) × IsPut self.old self.new (offset / PAGE_SIZE)
            (record self.old.state { ram = put_bytes self.old.state.ram offset (little_bytes width word) }))
            (self.new ≡ self.old) }
    {
        match self.put_at(offset, width, word) {
            Ok(()) => true,
            Err(_) => false,
        }
    }

    /// Makes pages read as zeros, or tells that they are not pages of RAM.
    fn zero(&mut self, first: u32, count: u32) -> Result<(), AllocError>
        ensures ok { OnOk result (self.new.state ≡ zeroed (is_page_range first count self.old.state.ram) first count self.old.state) }
        ensures pages { OnOk result (self.new.pages ≡ pages_after (if is_page_range first count self.old.state.ram then zeroes first count else no_change) self.old.pages) }
        ensures key { self.new.key ≡ self.old.key }
        ensures err { OnErr result (self.new ≡ self.old) }
        ensures memory { OnErr result (is_page_range first count self.old.state.ram ≡ true) }
    {
        let end = u64::from(first) + u64::from(count);
        if count != 0 && end <= u64::from(self.pages()) {
            self.zero_at(first, count)?;
            self.ports.refuse(0);
        } else {
            self.ports.refuse(BAD_ARGUMENT);
        }
        Ok(())
    }

    /// Makes pages of RAM read as zeros. They are here then, and blank.
    fn zero_at(&mut self, first: u32, count: u32) -> Result<(), AllocError>
        requires { first + count ≤ length self.old.pages.blank }
        ensures ok { OnOk result (self.new ≡ record self.old { state = with_zeros first count self.old.state; pages = pages_after (zeroes first count) self.old.pages }) }
        ensures err { OnErr result (self.new ≡ self.old) }
    {
        // The call tells that there is a flag for each page.
        let _ = self.memory.pages();
        self.memory.zero_pages(first, count)
    }
}

/// The answer of a machine that ends.
#[inline(always)]
fn exited(value: u32, address: u32, count: u32) -> Acted
    ensures { result ≡ Acted.Exited value address count }
{
    Acted::Exited {
        value,
        address,
        count,
    }
}
