ghost use Rattle.std.specs.Prelude.{◌≡◌, ℕ, ◌+◌, ◌*◌, ◌%◌, ◌^◌, ◌<◌, ◌≤◌, ◌↔◌, true, false, List, length, Some, None, Err, IfOk, IfSome, IsErr, IsNone, IsSome, IsSomeAnd, IsTrue, OnErr, OnOk, IsErrOf, option_map};
ghost use Rattle.cow_disk.specs.declared.disk.TheConstants.{PAGE_SECTORS};
ghost use Rattle.cow_disk.specs.Paged.{here_pages, is_page_here, Arrives, IsPageBelow};
ghost use Rattle.console_port.specs.declared.port.TheConstants.{MAX_INPUT};
ghost use Rattle.timer_port.specs.Timer.{is_due, timer_counted};
ghost use Rattle.fork_port.specs.Commands.{fork_command};
ghost use Rattle.fork_port.specs.Fork.{GrantsTicket};
ghost use Rattle.fork_port.specs.Registers.{HasTicket, refused, ticket_found, ticket_told};
ghost use Rattle.fork_port.specs.Children.{after_clone, after_join, after_kill, child_registers};
ghost use Rattle.sibling_port.specs.Commands.{sibling_command};
ghost use Rattle.sibling_port.specs.Registers.{talked};
ghost use Rattle.port_map.specs.Bus.{disk_page_at, fields_of, load_at, place_of, port_load, port_store, store_at, talk_effect, WantsMemory, WantsMemoryAt};
ghost use Rattle.vm_bus.specs.Bus.{bus_over, parts_at_boot, parts_of_fields, IsDiskPageHere, IsDiskPageHereAt, Waits};

use block_port::BlockPort;
use console_port::{ConsolePort, Input};
use cow_disk::{Arrived, Disk, SECTOR_SIZE};
use fork_port::refusals::TICKETS_END;
use fork_port::registers::{FORK_COMMAND, TICKET_COMMAND};
use fork_port::{Asked, Effect, Ending, ForkPort};
use page_frames::PAGE_SIZE;
use port_error::{Fault, PortError};
use port_map::{FORK_BASE, Place, PortFields, place_of};
use sibling_port::{SiblingPort, Talk};
use std::alloc::{AllocError, Global};
use std::marker::Model;
use timer_port::{TimerPort, TimerRegisters};

/// The ports of a machine. Contracts see the pages of its disk, and say of the registers what they are over
/// each disk below, which has the absent pages.
#[derive(Drop)]
pub struct Ports {
    timer: TimerPort,
    console: ConsolePort,
    block: BlockPort,
    fork: ForkPort,
    sibling: SiblingPort,
}

impl Model for Ports {
    ghost use Rattle.vm_bus.specs.Bus.{BusParts};

    ghost Value = { BusParts };

    ghost view = { λ p. record { console = p.console; timer = p.timer; block = p.block; fork = p.fork; sibling = p.sibling } };
}

impl Ports {
    /// The ports of a machine that starts with this disk and this input, and may have `allot` clones.
    pub fn new(alloc: Global, disk: Disk, input: &[u8], allot: u32) -> Result<Ports, AllocError>
        requires { length input.now ≤ MAX_INPUT }
        ensures { IfOk result (λ ports. ports ≡ parts_at_boot disk input.now allot) }
    {
        let console = ConsolePort::new(alloc, input)?;
        let buffer = Box::new(alloc, [0; SECTOR_SIZE])?;
        Ok(Ports {
            timer: TimerPort::new(),
            console,
            block: BlockPort::new(buffer, disk),
            fork: ForkPort::new(alloc, allot),
            sibling: SiblingPort::new(0),
        })
    }

    /// The whole input of the console, read or not.
    pub fn input(&self) -> &[u8]
        ensures value { result.now ≡ self.now.console.input }
        ensures fits { length result.now ≤ MAX_INPUT }
    {
        self.console.input()
    }

    /// The same, shared. It costs one handle.
    pub fn share_input(&self) -> Result<Input, AllocError>
        ensures { IfOk result (λ input. input ≡ self.now.console.input) }
    {
        self.console.share_input()
    }

    /// What the console has put out.
    pub fn output(&self) -> &[u8]
        ensures { result.now ≡ self.now.console.output }
    {
        self.console.output()
    }

    /// The same, of ports that are needed no more.
    pub fn into_output(self) -> Vec<u8>
        ensures { result.items ≡ self.console.output }
    {
        let Ports {
            timer: _,
            console,
            block: _,
            fork: _,
            sibling: _,
        } = self;
        console.into_output()
    }

    /// The disk behind the block port.
    pub fn disk(&self) -> &Disk
        ensures { result.now ≡ self.now.block.disk }
    {
        self.block.disk()
    }

    /// Whether a page of the disk is here.
    pub fn is_here(&self, page: u32) -> bool
        requires { PAGE_SECTORS * page < self.now.block.disk.sectors }
        ensures { result ≡ is_page_here self.now.block.disk page }
    {
        self.block.is_here(page)
    }

    /// A page of the disk that was sent. All registers stay as they are.
    pub fn arrive(&mut self, page: u32, bytes: &[u8; PAGE_SIZE]) -> Result<Arrived, AllocError>
        requires { PAGE_SECTORS * page < self.old.block.disk.sectors }
        ensures ok { IfOk result (Arrives self.old.block.disk page bytes.now self.new.block.disk) }
        ensures registers { self.new ≡ record self.old { block = record self.old.block { disk = self.new.block.disk } } }
        // A page of the disk below changes nothing that is read.
        ensures reads { (below : List ℕ) → IsPageBelow self.old.block.disk page bytes.now below → bus_over self.new below ≡ bus_over self.old below }
        ensures err { OnErr result (self.new ≡ self.old) }
    {
        self.block.arrive(page, bytes)
    }

    /// The page of the disk that a store touches: that of the sector which it has read or written.
    pub fn touched(&self, address: u32, width: u32, word: u32) -> Option<u32>
        ensures value { (below : List ℕ) → result ≡ disk_page_at (place_of address) (bus_over self.now below) width word }
        ensures there { IfSome result (λ page. PAGE_SECTORS * page < self.now.block.disk.sectors) }
        // So a store can be made where no page is touched, or that page is here.
        ensures none { IsNone result → IsDiskPageHere self.now address width word }
        ensures here { IfSome result (λ page. IsTrue (is_page_here self.now.block.disk page) → IsDiskPageHere self.now address width word) }
    {
        match place_of(address) {
            Place::Block(offset) => self.block.touched(offset, width, word),
            _ => None,
        }
    }

    /// Whether the timer asks for an interrupt.
    #[inline]
    pub fn is_timer_due(&self) -> bool
        ensures { result ≡ is_due self.now.timer }
    {
        self.timer.is_due()
    }

    /// Counts a step in mtime, unless the step wrote a half of it.
    #[inline]
    pub fn count_time(&mut self, wrote_mtime: bool)
        ensures { self.new ≡ record self.old { timer = timer_counted self.old.timer wrote_mtime } }
    {
        self.timer.count(wrote_mtime);
    }

    /// What the timer holds.
    #[inline]
    pub fn timer(&self) -> TimerRegisters
        ensures { result ≡ self.now.timer }
    {
        self.timer.fields()
    }

    /// Counts so many steps in mtime, none of which wrote a half of it.
    #[inline]
    pub fn count_times(&mut self, steps: u64)
        ensures { self.new ≡ record self.old { timer = record self.old.timer { mtime = (self.old.timer.mtime + steps) % 2 ^ 64 } } }
    {
        let TimerRegisters { mtime, mtimecmp } = self.timer.fields();
        self.timer = TimerPort::of_fields(TimerRegisters {
            mtime: mtime.wrapping_add(steps),
            mtimecmp,
        });
    }

    /// Loads `width` bytes from the port that `address` is of.
    pub fn load(&mut self, address: u32, width: u32) -> Result<u32, Fault>
        ensures ok { IfOk result (λ value. (below : List ℕ) → port_load (bus_over self.old below) address width ≡ Some (record { ports = bus_over self.new below; value = value })) }
        ensures fault { (below : List ℕ) → (IsErr result ↔ (port_load (bus_over self.old below) address width ≡ None)) }
        ensures disk { self.new.block.disk ≡ self.old.block.disk }
        ensures err { OnErr result (self.new ≡ self.old) }
    {
        self.load_at(place_of(address), width)
    }

    /// Stores the low `width` bytes of `word` to the port that `address` is of, and answers what that
    /// does to the machine. The page of the disk that it touches is to be here.
    pub fn store(&mut self, address: u32, width: u32, word: u32) -> Result<Effect, PortError>
        requires ticket { address ≡ FORK_BASE + FORK_COMMAND → word ≡ TICKET_COMMAND → self.old.fork.next_ticket < TICKETS_END }
        requires here { IsDiskPageHere self.old address width word }
        ensures ok { IfOk result (λ effect. (below : List ℕ) → port_store (bus_over self.old below) address width word ≡ Some (record { ports = bus_over self.new below; effect = effect })) }
        ensures waits { IfOk result (Waits self.old self.new) }
        ensures fault { (below : List ℕ) → (IsErrOf result PortError.Fault ↔ (port_store (bus_over self.old below) address width word ≡ None)) }
        ensures pages { here_pages self.new.block.disk ≡ here_pages self.old.block.disk }
        ensures sectors { self.new.block.disk.sectors ≡ self.old.block.disk.sectors }
        ensures err { OnErr result (self.new ≡ self.old) }
        ensures memory { IsErrOf result PortError.Memory → (below : List ℕ) → WantsMemory (bus_over self.old below) address width word }
    {
        self.store_at(place_of(address), width, word)
    }

    /// How many children a ticket is for, the share of each, and whether they were made; `None` where
    /// there is no such ticket.
    pub fn find(&self, ticket: u32) -> Option<(u32, u32, bool)>
        ensures { result ≡ option_map ticket_told (ticket_found self.now.fork ticket) }
    {
        self.fork.find(ticket)
    }

    /// Sets RESULT of the fork port.
    pub fn refuse(&mut self, word: u32)
        ensures { self.new ≡ record self.old { fork = refused self.old.fork word } }
    {
        self.fork.refuse(word);
    }

    /// Does CLONE in the parent: the ticket's children are made.
    pub fn cloned(&mut self, ticket: u32)
        requires { HasTicket self.old.fork ticket false }
        ensures { self.new ≡ record self.old { fork = after_clone self.old.fork ticket } }
    {
        self.fork.cloned(ticket);
    }

    /// Does JOIN: the ticket's children have ended so, in order.
    pub fn joined(&mut self, ticket: u32, endings: &[Ending]) -> Result<(), AllocError>
        requires there { HasTicket self.old.fork ticket true }
        requires all { IsSomeAnd (ticket_found self.old.fork ticket) (λ ticket. length endings.now ≡ ticket.children) }
        ensures ok { OnOk result (self.new ≡ record self.old { fork = after_join self.old.fork ticket endings.now }) }
        ensures err { OnErr result (self.new ≡ self.old) }
    {
        self.fork.joined(ticket, endings)
    }

    /// Does KILL: the ticket's children are dropped, if it has any.
    pub fn killed(&mut self, ticket: u32)
        requires { IsSome (ticket_found self.old.fork ticket) }
        ensures { self.new ≡ record self.old { fork = after_kill self.old.fork ticket } }
    {
        self.fork.killed(ticket);
    }

    /// The fork port that child k of a ticket with this share starts with.
    pub fn child(&self, k: u32, share: u32) -> ForkPort
        ensures { result ≡ child_registers self.now.fork k share }
    {
        self.fork.child(k, share)
    }

    /// The word that a send of the machine sends.
    pub fn data(&self) -> u32
        ensures { result ≡ self.now.sibling.word }
    {
        self.sibling.data()
    }

    /// A talk was made: the word that it brought, if there is one, goes to DATA, and RESULT of the sibling port is
    /// the answer.
    pub fn talked(&mut self, word: Option<u32>, answer: u32)
        ensures { self.new ≡ record self.old { sibling = talked word answer self.old.sibling } }
    {
        self.sibling.talked(word, answer);
    }

    /// The registers, but for the disk, the input and the output, the tickets and what was joined, and those of the
    /// sibling port.
    pub fn fields(&self) -> PortFields
        ensures value { (below : List ℕ) → result ≡ fields_of (bus_over self.now below) }
        ensures place_fits { result.console.place ≤ MAX_INPUT }
    {
        PortFields {
            timer: self.timer.fields(),
            console: self.console.fields(),
            block: self.block.fields(),
            fork: self.fork.fields(),
        }
    }

    /// Makes ports with these registers, this disk and this input, and no output, tickets and join results, of a
    /// child of a ticket for so many. It takes no memory: `alloc` is for what the ports take later, and the place of the
    /// block port's buffer is handed in.
    pub fn of_fields(
        alloc: Global,
        fields: &PortFields,
        buffer: Box<[u8; SECTOR_SIZE]>,
        disk: Disk,
        input: Input,
        siblings: u32,
    ) -> Ports
        requires { fields.now.console.place ≤ MAX_INPUT }
        ensures { result ≡ parts_of_fields fields.now disk input siblings }
    {
        Ports {
            timer: TimerPort::of_fields(fields.timer),
            console: ConsolePort::of_fields(alloc, fields.console, input),
            block: BlockPort::of_fields(&fields.block, buffer, disk),
            fork: ForkPort::of_fields(alloc, fields.fork),
            sibling: SiblingPort::new(siblings),
        }
    }

    /// What a command of the fork port asks for.
    pub fn asked(&self, command: u32) -> Asked
        ensures { result ≡ fork_command self.now.fork command }
    {
        self.fork.asked(command)
    }

    /// What a command of the sibling port asks for.
    pub fn asked_of_sibling(&self, command: u32) -> sibling_port::Asked
        ensures { result ≡ sibling_command self.now.fork.clone_id self.now.sibling command }
    {
        self.sibling.asked(self.fork.clone_id(), command)
    }

    fn load_at(&mut self, place: Place, width: u32) -> Result<u32, Fault>
        ensures ok { IfOk result (λ value. (below : List ℕ) → load_at place (bus_over self.old below) width ≡ Some (record { ports = bus_over self.new below; value = value })) }
        ensures fault { (below : List ℕ) → (IsErr result ↔ (load_at place (bus_over self.old below) width ≡ None)) }
        ensures disk { self.new.block.disk ≡ self.old.block.disk }
        ensures err { OnErr result (self.new ≡ self.old) }
    {
        match place {
            Place::Console(offset) => self.console.load(offset, width),
            Place::Timer(offset) => self.timer.load(offset, width),
            Place::Block(offset) => self.block.load(offset, width),
            Place::Fork(offset) => self.fork.load(offset, width),
            Place::Sibling(offset) => self.sibling.load(offset, width),
            Place::NoPort => Err(Fault),
        }
    }

    fn store_at(&mut self, place: Place, width: u32, word: u32) -> Result<Effect, PortError>
        requires ticket { place ≡ Place.Fork FORK_COMMAND → word ≡ TICKET_COMMAND → self.old.fork.next_ticket < TICKETS_END }
        requires here { IsDiskPageHereAt place self.old width word }
        ensures ok { IfOk result (λ effect. (below : List ℕ) → store_at place (bus_over self.old below) width word ≡ Some (record { ports = bus_over self.new below; effect = effect })) }
        ensures waits { IfOk result (Waits self.old self.new) }
        ensures fault { (below : List ℕ) → (IsErrOf result PortError.Fault ↔ (store_at place (bus_over self.old below) width word ≡ None)) }
        ensures pages { here_pages self.new.block.disk ≡ here_pages self.old.block.disk }
        ensures sectors { self.new.block.disk.sectors ≡ self.old.block.disk.sectors }
        ensures err { OnErr result (self.new ≡ self.old) }
        ensures memory { IsErrOf result PortError.Memory → (below : List ℕ) → WantsMemoryAt place (bus_over self.old below) width word }
    {
        match place {
            Place::Console(offset) => {
                self.console.store(offset, width, word)?;
                Ok(Effect::Done)
            }
            Place::Timer(offset) => self.store_timer(offset, width, word),
            Place::Block(offset) => {
                self.block.store(offset, width, word)?;
                Ok(Effect::Done)
            }
            Place::Fork(offset) => self.store_fork(offset, width, word),
            Place::Sibling(offset) => self.store_sibling(offset, width, word),
            Place::NoPort => Err(PortError::Fault),
        }
    }

    fn store_sibling(&mut self, offset: u32, width: u32, word: u32) -> Result<Effect, PortError>
        ensures ok { IfOk result (λ effect. (below : List ℕ) → store_at (Place.Sibling offset) (bus_over self.old below) width word ≡ Some (record { ports = bus_over self.new below; effect = effect })) }
        ensures waits { IfOk result (Waits self.old self.new) }
        ensures fault { OnErr result ((below : List ℕ) → store_at (Place.Sibling offset) (bus_over self.old below) width word ≡ None) }
        ensures disk { self.new.block ≡ self.old.block }
        ensures only { OnErr result (result ≡ Err PortError.Fault) }
        ensures err { OnErr result (self.new ≡ self.old) }
    {
        let number = self.fork.clone_id();
        let talk = self.sibling.store(number, offset, width, word)?;
        Ok(talk_effect(talk))
    }

    fn store_fork(&mut self, offset: u32, width: u32, word: u32) -> Result<Effect, PortError>
        requires { offset ≡ FORK_COMMAND → word ≡ TICKET_COMMAND → self.old.fork.next_ticket < TICKETS_END }
        ensures ok { IfOk result (λ effect. (below : List ℕ) → store_at (Place.Fork offset) (bus_over self.old below) width word ≡ Some (record { ports = bus_over self.new below; effect = effect })) }
        ensures waits { IfOk result (Waits self.old self.new) }
        ensures fault { (below : List ℕ) → (IsErrOf result PortError.Fault ↔ (store_at (Place.Fork offset) (bus_over self.old below) width word ≡ None)) }
        ensures disk { self.new.block ≡ self.old.block }
        ensures err { OnErr result (self.new ≡ self.old) }
        ensures memory { IsErrOf result PortError.Memory → GrantsTicket self.old.fork offset width word }
    {
        self.fork.store(offset, width, word)
    }

    fn store_timer(&mut self, offset: u32, width: u32, word: u32) -> Result<Effect, PortError>
        ensures ok { IfOk result (λ effect. (below : List ℕ) → store_at (Place.Timer offset) (bus_over self.old below) width word ≡ Some (record { ports = bus_over self.new below; effect = effect })) }
        ensures waits { IfOk result (Waits self.old self.new) }
        ensures fault { OnErr result ((below : List ℕ) → store_at (Place.Timer offset) (bus_over self.old below) width word ≡ None) }
        ensures disk { self.new.block ≡ self.old.block }
        ensures only { OnErr result (result ≡ Err PortError.Fault) }
        ensures err { OnErr result (self.new ≡ self.old) }
    {
        self.timer.store(offset, width, word)?;
        Ok(if TimerPort::writes_mtime(offset) {
            Effect::TimeWritten
        } else {
            Effect::Done
        })
    }
}

// What a store to the sibling port does to the machine.
fn talk_effect(talk: Option<Talk>) -> Effect
    ensures { result ≡ talk_effect talk }
{
    talk.map_or(Effect::Done, Effect::Talk)
}
