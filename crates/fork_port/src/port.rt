ghost use Rattle.std.specs.Prelude.{◌≡◌, ◌+◌, ◌-◌, ◌*◌, ◌^◌, ◌<◌, ◌≤◌, ◌↔◌, true, false, [], length, Some, None, IsNone, IsSome, IsSomeAnd, IsErr, IsErrOf, option_map, IfOk, IfSome, OnOk, OnErr};
ghost use Rattle.fork_port.specs.Ending.{join_kind, join_value, join_word};
ghost use Rattle.fork_port.specs.Tickets.{cost};
ghost use Rattle.fork_port.specs.Registers.{HasTicket, at_start, fields_of, holding, is_join_word, join_result, refused, register_store, registers_of, ticket_found, ticket_told, told_load};
ghost use Rattle.fork_port.specs.Children.{after_clone, after_join, after_kill, after_ticket, child_registers, children_granted, given_back, with_ticket};
ghost use Rattle.fork_port.specs.Commands.{IsAnswerable, answered, clone_asks, fork_command, join_asks, kill_asks, other_asks};
ghost use Rattle.fork_port.specs.Fork.{GrantsTicket, fork_load, fork_store};

use crate::commands::{Asked, Call, Effect, Stored};
use crate::ending::Ending;
use crate::handed::MAX_HANDED;
use crate::refusals::{
    ALREADY_CLONED, BAD_ARGUMENT, NO_SUCH_TICKET, NOT_CLONED, NOTHING_GRANTED, TICKETS_END,
    UNKNOWN_COMMAND,
};
use crate::registers::{
    CLONE_COMMAND, EXIT_COMMAND, FORK_ALLOT, FORK_CLONE_ID, FORK_COMMAND, FORK_FIRST_ARGUMENT,
    FORK_GRANTED, FORK_JOIN_BYTES, FORK_JOIN_KIND, FORK_JOIN_LENGTH, FORK_JOIN_SELECT,
    FORK_JOIN_VALUE, FORK_RESULT, FORK_SECOND_ARGUMENT, HAND_OVER_COMMAND, JOIN_COMMAND,
    KILL_COMMAND, TICKET_COMMAND, ZERO_COMMAND,
};
use crate::tickets::{Ticket, TicketList};
use port_error::{Fault, PortError};
use std::alloc::{AllocError, Global};
use std::marker::Model;
use std::snapshot::Snapshot;

/// The registers of a fork port that a clone of a machine starts with.
#[derive(Clone, Copy, Debug, PartialEq, Eq)]
pub struct ForkFields {
    pub first_argument: u32,
    pub second_argument: u32,
    pub result: u32,
    pub clone_id: u32,
    pub allot: u32,
    pub join_select: u32,
    pub granted: u32,
    pub next_ticket: u32,
}

/// The fork port. What a machine holds, in `allot` and in its tickets, stays what it started with.
#[derive(Drop)]
pub struct ForkPort {
    first_argument: u32,
    second_argument: u32,
    result: u32,
    clone_id: u32,
    allot: u32,
    join_select: u32,
    granted: u32,
    next_ticket: u32,
    tickets: TicketList,
    joined: Vec<Ending>,
    // allot at the start, for contracts alone
    opening: Snapshot<u32>,
}

impl Model for ForkPort {
    ghost use Rattle.std.specs.Prelude.{List};
    ghost use Rattle.fork_port.specs.declared.tickets.Ticket.{Ticket};
    ghost use Rattle.fork_port.specs.Registers.{ForkRegisters};
    ghost use Rattle.fork_port.specs.Children.{IsBalanced};

    ghost Value = { ForkRegisters };

    ghost view = { λ p. record {
      first_argument = p.first_argument;
      second_argument = p.second_argument;
      result = p.result;
      clone_id = p.clone_id;
      allot = p.allot;
      join_select = p.join_select;
      granted = p.granted;
      next_ticket = p.next_ticket;
      tickets = p.tickets;
      joined = p.joined.items;
      opening = p.opening.value;
    } };

    ghost invariant = { λ p. IsBalanced p.allot p.opening.value p.next_ticket p.tickets };
}

impl ForkPort {
    /// The port of a machine that starts with this allot.
    pub fn new(alloc: Global, allot: u32) -> ForkPort
        ensures { result ≡ at_start allot }
    {
        let fields = ForkFields {
            first_argument: 0,
            second_argument: 0,
            result: 0,
            clone_id: 0,
            allot,
            join_select: 0,
            granted: 0,
            next_ticket: 1,
        };
        ForkPort::of_fields(alloc, fields)
    }

    /// A port with these registers, without tickets and join results.
    pub fn of_fields(alloc: Global, fields: ForkFields) -> ForkPort
        ensures { result ≡ registers_of fields }
    {
        let ForkFields {
            first_argument,
            second_argument,
            result,
            clone_id,
            allot,
            join_select,
            granted,
            next_ticket,
        } = fields;
        ForkPort {
            first_argument,
            second_argument,
            result,
            clone_id,
            allot,
            join_select,
            granted,
            next_ticket,
            tickets: TicketList::new(alloc),
            joined: Vec::new(alloc),
            opening: Snapshot::of(&allot),
        }
    }

    /// The registers.
    pub fn fields(&self) -> ForkFields
        ensures { result ≡ fields_of self.now }
    {
        ForkFields {
            first_argument: self.first_argument,
            second_argument: self.second_argument,
            result: self.result,
            clone_id: self.clone_id,
            allot: self.allot,
            join_select: self.join_select,
            granted: self.granted,
            next_ticket: self.next_ticket,
        }
    }

    /// 0 in a machine that started from a program, and else which child of its ticket the machine is.
    pub fn clone_id(&self) -> u32
        ensures { result ≡ self.now.clone_id }
    {
        self.clone_id
    }

    /// How many children a ticket is for, the share of each, and whether they were made; `None` where
    /// there is no such ticket.
    pub fn find(&self, number: u32) -> Option<(u32, u32, bool)>
        ensures { result ≡ option_map ticket_told (ticket_found self.now number) }
    {
        let ticket = self.tickets.get(number)?;
        Some((ticket.children, ticket.share, ticket.is_cloned))
    }

    /// Loads a word.
    #[tactic(auto, unfolding(crate::specs::Fork::fork_load))]
    pub fn load(&self, offset: u32, width: u32) -> Result<u32, Fault>
        ensures ok { IfOk result (λ word. fork_load self.now offset width ≡ Some word) }
        ensures fault { IsErr result ↔ (fork_load self.now offset width ≡ None) }
    {
        if width != 4 {
            return Err(Fault);
        }
        match offset {
            FORK_FIRST_ARGUMENT => Ok(self.first_argument),
            FORK_SECOND_ARGUMENT => Ok(self.second_argument),
            FORK_RESULT => Ok(self.result),
            FORK_CLONE_ID => Ok(self.clone_id),
            FORK_ALLOT => Ok(self.allot),
            _ => self.load_told(offset),
        }
    }

    // The registers that tell of tickets and joins.
    fn load_told(&self, offset: u32) -> Result<u32, Fault>
        ensures ok { IfOk result (λ word. told_load self.now offset ≡ Some word) }
        ensures fault { IsErr result ↔ (told_load self.now offset ≡ None) }
    {
        match offset {
            FORK_JOIN_SELECT => Ok(self.join_select),
            FORK_JOIN_KIND => Ok(self.join_result().map_or(0, Ending::kind)),
            FORK_JOIN_VALUE => Ok(self.join_result().map_or(0, Ending::value)),
            FORK_GRANTED => Ok(self.granted),
            FORK_JOIN_LENGTH => Ok(self.join_result().map_or(0, Ending::handed_count)),
            _ => match join_bytes_place(offset) {
                Some(at) => Ok(self.join_word(at)),
                None => Err(Fault),
            },
        }
    }

    // The word at a place of the bytes that the selected child of the last join handed over.
    fn join_word(&self, at: usize) -> u32
        requires { at + 4 ≤ MAX_HANDED }
        ensures { result ≡ join_word (join_result self.now) at }
    {
        match self.join_result() {
            Some(ending) => ending.handed_word(at),
            None => 0,
        }
    }

    // How the selected child of the last join ended, if there is one such.
    fn join_result(&self) -> Option<Ending>
        ensures { result ≡ join_result self.now }
    {
        let at = self.join_select.checked_sub(1)?;
        self.joined.get(at as usize).copied()
    }

    /// Stores a word, and does at once what a command does to the port alone.
    #[tactic(auto, unfolding(crate::specs::Fork::fork_store))]
    pub fn store(&mut self, offset: u32, width: u32, word: u32) -> Result<Effect, PortError>
        requires { offset ≡ FORK_COMMAND → word ≡ TICKET_COMMAND → self.old.next_ticket < TICKETS_END }
        ensures ok { IfOk result (λ effect. fork_store self.old offset width word ≡ Some (record { fork = self.new; effect = effect })) }
        ensures fault { IsErrOf result PortError.Fault ↔ (fork_store self.old offset width word ≡ None) }
        ensures err { OnErr result (self.new ≡ self.old) }
        ensures memory { IsErrOf result PortError.Memory → GrantsTicket self.old offset width word }
    {
        if width != 4 {
            return Err(PortError::Fault);
        }
        match self.store_reg(offset, word)? {
            Stored::Register => Ok(Effect::Done),
            Stored::Command(command) => Ok(self.command(command)?.effect()),
        }
    }

    /// Stores a word to a register. A command is answered, and not done.
    pub fn store_reg(&mut self, offset: u32, word: u32) -> Result<Stored, Fault>
        ensures ok { IfOk result (λ stored. register_store self.old offset word ≡ Some (record { fork = self.new; stored = stored })) }
        ensures fault { IsErr result ↔ (register_store self.old offset word ≡ None) }
        ensures err { OnErr result (self.new ≡ self.old) }
    {
        match offset {
            FORK_FIRST_ARGUMENT => self.first_argument = word,
            FORK_SECOND_ARGUMENT => self.second_argument = word,
            FORK_JOIN_SELECT => self.join_select = word,
            FORK_COMMAND => return Ok(Stored::Command(word)),
            _ => return Err(Fault),
        }
        Ok(Stored::Register)
    }

    /// What a command asks for.
    #[tactic(auto, unfolding(crate::specs::Commands::fork_command))]
    pub fn asked(&self, command: u32) -> Asked
        ensures value { result ≡ fork_command self.now command }
        // what answers it has its conditions met
        ensures answerable { IsAnswerable self.now command result }
    {
        let number = self.first_argument;
        match command {
            TICKET_COMMAND => Asked::NewTicket,
            CLONE_COMMAND => clone_asked(number, self.tickets.get(number)),
            JOIN_COMMAND => join_asked(number, self.tickets.get(number)),
            KILL_COMMAND => kill_asked(number, self.tickets.get(number)),
            EXIT_COMMAND => Asked::Exit(number),
            ZERO_COMMAND => Asked::Zero(number, self.second_argument),
            _ => other_asked(command, number, self.second_argument),
        }
    }

    /// Does what a command does at once, and answers what it asks for. Calls, EXIT, with bytes or
    /// without, and ZERO are left to the machine.
    pub fn command(&mut self, command: u32) -> Result<Asked, AllocError>
        requires { command ≡ TICKET_COMMAND → self.old.next_ticket < TICKETS_END }
        ensures asked { IfOk result (λ asked. asked ≡ fork_command self.old command) }
        ensures ok { OnOk result (self.new ≡ answered (fork_command self.old command) self.old) }
        ensures err { OnErr result (self.new ≡ self.old) }
        ensures holding_stays { holding self.new ≡ holding self.old }
        // Memory is wanted where a ticket is granted.
        ensures memory { OnErr result ((command ≡ TICKET_COMMAND) × (0 < children_granted self.old)) }
    {
        let asked = self.asked(command);
        match asked {
            Asked::Refused(word) => self.refuse(word),
            Asked::NewTicket => self.ticket()?,
            Asked::Discard(number) => self.killed(number),
            _ => {}
        }
        Ok(asked)
    }

    /// Sets RESULT.
    pub fn refuse(&mut self, word: u32)
        ensures { self.new ≡ refused self.old word }
    {
        self.result = word;
    }

    /// Does TICKET.
    #[tactic(auto, unfolding(crate::specs::Children::after_ticket))]
    pub fn ticket(&mut self) -> Result<(), AllocError>
        requires { self.old.next_ticket < TICKETS_END }
        ensures ok { OnOk result (self.new ≡ after_ticket self.old) }
        ensures err { OnErr result (self.new ≡ self.old) }
        ensures holding_stays { holding self.new ≡ holding self.old }
        // Memory is wanted where a ticket is granted.
        ensures memory { OnErr result (0 < children_granted self.old) }
    {
        if self.first_argument == 0 {
            self.result = BAD_ARGUMENT;
            return Ok(());
        }
        let children = self.children_granted();
        if children == 0 {
            self.result = NOTHING_GRANTED;
            return Ok(());
        }
        self.grant(children)
    }

    // How many children TICKET is granted.
    fn children_granted(&self) -> u32
        ensures { result ≡ children_granted self.now }
    {
        let each = 1 + u64::from(self.second_argument);
        let affordable = u64::from(self.allot) / each;
        self.first_argument.min(affordable as u32)
    }

    // Grants a ticket for so many children.
    fn grant(&mut self, children: u32) -> Result<(), AllocError>
        requires some { 0 < children }
        requires affordable { children * (1 + self.old.second_argument) ≤ self.old.allot }
        requires room { self.old.next_ticket < TICKETS_END }
        ensures ok { OnOk result (self.new ≡ with_ticket self.old children) }
        ensures err { OnErr result (self.new ≡ self.old) }
    {
        let ticket = Ticket {
            number: self.next_ticket,
            children,
            share: self.second_argument,
            is_cloned: false,
        };
        self.tickets.push(ticket)?;
        self.allot -= ticket.cost() as u32;
        self.result = ticket.number;
        self.granted = children;
        self.next_ticket += 1;
        Ok(())
    }

    /// Does CLONE in the parent: the ticket's children are made.
    pub fn cloned(&mut self, number: u32)
        requires { HasTicket self.old number false }
        ensures ok { self.new ≡ after_clone self.old number }
        ensures holding_stays { holding self.new ≡ holding self.old }
    {
        self.tickets.mark_cloned(number);
        self.result = 0;
    }

    /// Does JOIN: the ticket's children have ended so, in order.
    #[tactic(auto, unfolding(crate::specs::Children::after_join))]
    pub fn joined(&mut self, number: u32, endings: &[Ending]) -> Result<(), AllocError>
        requires there { HasTicket self.old number true }
        requires all { IsSomeAnd (ticket_found self.old number) (λ ticket. length endings.now ≡ ticket.children) }
        ensures ok { OnOk result (self.new ≡ after_join self.old number endings.now) }
        ensures err { OnErr result (self.new ≡ self.old) }
        ensures holding_stays { holding self.new ≡ holding self.old }
    {
        let joined = Vec::from_slice(*self.joined.allocator(), endings)?;
        let ticket = self.give_back(number);
        self.result = ticket.children;
        self.joined = joined;
        Ok(())
    }

    /// Does KILL: the ticket's children are dropped, if it has any.
    #[tactic(auto, unfolding(crate::specs::Children::after_kill))]
    pub fn killed(&mut self, number: u32)
        requires { IsSome (ticket_found self.old number) }
        ensures ok { self.new ≡ after_kill self.old number }
        ensures holding_stays { holding self.new ≡ holding self.old }
    {
        let ticket = self.give_back(number);
        self.result = ticket.children_made();
    }

    // Takes a ticket out, and its cost back.
    fn give_back(&mut self, number: u32) -> Ticket
        requires { IsSome (ticket_found self.old number) }
        ensures found { ticket_found self.old number ≡ Some result }
        ensures back { self.new ≡ given_back self.old number result }
        ensures holding_stays { holding self.new ≡ holding self.old }
    {
        let ticket = self.tickets.remove(number);
        self.allot += ticket.cost() as u32;
        ticket
    }

    /// The port that child k of a ticket with this share starts with.
    pub fn child(&self, k: u32, share: u32) -> ForkPort
        ensures ok { result ≡ child_registers self.now k share }
        ensures holding_is_share { holding result ≡ share }
    {
        let fields = ForkFields {
            first_argument: self.first_argument,
            second_argument: self.second_argument,
            result: k,
            clone_id: k,
            allot: share,
            join_select: self.join_select,
            granted: self.granted,
            next_ticket: 1,
        };
        ForkPort::of_fields(*self.joined.allocator(), fields)
    }
}

// The place among the bytes that a child handed over of the word at an offset, if one of their words is there.
fn join_bytes_place(offset: u32) -> Option<usize>
    ensures inside { IfSome result (λ at. (is_join_word offset ≡ true) × (at ≡ offset - FORK_JOIN_BYTES) × (at + 4 ≤ MAX_HANDED)) }
    ensures outside { IsNone result ↔ (is_join_word offset ≡ false) }
{
    let at = offset.checked_sub(FORK_JOIN_BYTES)? as usize;
    if at < MAX_HANDED && at % 4 == 0 {
        Some(at)
    } else {
        None
    }
}

// What is asked for by a command that is told by its low byte, if it is one.
fn other_asked(command: u32, value: u32, address: u32) -> Asked
    ensures { result ≡ other_asks command value address }
{
    if command % 256 != HAND_OVER_COMMAND {
        return Asked::Refused(UNKNOWN_COMMAND);
    }
    let count = command / 256;
    if count > MAX_HANDED as u32 {
        Asked::Refused(BAD_ARGUMENT)
    } else {
        Asked::ExitWith(value, address, count)
    }
}

fn clone_asked(number: u32, ticket: Option<Ticket>) -> Asked
    ensures { result ≡ clone_asks number ticket }
{
    match ticket {
        None => Asked::Refused(NO_SUCH_TICKET),
        Some(ticket) if ticket.is_cloned => Asked::Refused(ALREADY_CLONED),
        Some(_) => Asked::Call(Call::Clone(number)),
    }
}

fn join_asked(number: u32, ticket: Option<Ticket>) -> Asked
    ensures { result ≡ join_asks number ticket }
{
    match ticket {
        None => Asked::Refused(NO_SUCH_TICKET),
        Some(ticket) if ticket.is_cloned => Asked::Call(Call::Join(number)),
        Some(_) => Asked::Refused(NOT_CLONED),
    }
}

fn kill_asked(number: u32, ticket: Option<Ticket>) -> Asked
    ensures { result ≡ kill_asks number ticket }
{
    match ticket {
        None => Asked::Refused(NO_SUCH_TICKET),
        Some(ticket) if ticket.is_cloned => Asked::Call(Call::Kill(number)),
        Some(_) => Asked::Discard(number),
    }
}
