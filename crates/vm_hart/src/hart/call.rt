//! Calls and talks: which one the coming step is, and what they do in this hart.

ghost use Rattle.std.specs.Prelude.{◌≡◌, ℕ, true, false, length, option_map, IsSome, IsSomeAnd, OnOk, OnErr};
ghost use Rattle.fork_port.specs.Children.{after_clone, after_join, after_kill};
ghost use Rattle.fork_port.specs.Registers.{HasTicket, ticket_found, ticket_told};
ghost use Rattle.forest_model.specs.Execute.{execute};
ghost use Rattle.vm_hart.specs.Calls.{AsksFor, AsksNext, call_asked, made, made_talk, talk_asked_for};

use super::access::Reach;
use super::{Hart, Request};
use forest_model::{Access, Direction, Written};
use fork_port::registers::FORK_COMMAND;
use fork_port::{Asked, Ending};
use instruction_slots::Fields;
use port_map::{FORK_BASE, SIBLING_BASE};
use rv_decode::{Instr, Kind, decode};
use sibling_port::registers::SIBLING_COMMAND;
use std::alloc::AllocError;

impl Hart {
    /// The call or the talk that the coming step is, if it is one and waits for no page.
    #[tactic(auto, unfolding(forest_model::specs::Execute::action))]
    pub fn request(&self) -> Option<Request>
        ensures { AsksNext self.now result }
    {
        if self.takes_interrupt() {
            return None;
        }
        match self.fetch() {
            Reach::Ram(offset) => self.request_of(decode(self.fetched(offset))?),
            Reach::Faulted(_) | Reach::Absent(_) | Reach::Port => None,
        }
    }

    /// The call or the talk that an instruction at the pc is: a store of a word to a command.
    fn request_of(&self, instr: Instr) -> Option<Request>
        ensures { (word : ℕ) → AsksFor (execute instr word self.now.state) self.now.state result }
    {
        match instr.kind() {
            Kind::Sw => self.request_stored(instr),
            _ => None,
        }
    }

    /// The call or the talk that a store of a word is, which reaches the command of the fork port or of the sibling port.
    fn request_stored(&self, instr: Instr) -> Option<Request>
        requires { instr.kind ≡ Kind.Sw }
        ensures { (word : ℕ) → AsksFor (execute instr word self.now.state) self.now.state result }
    {
        let address = self.data_address(&Fields::of(instr));
        let access = Access {
            address,
            width: 4,
            direction: Direction::Store,
        };
        let Reach::Port = self.reach(access) else {
            return None;
        };
        let word = self.register(instr.rs2());
        if address == FORK_BASE + FORK_COMMAND {
            return call_in(self.ports.asked(word));
        }
        if address == SIBLING_BASE + SIBLING_COMMAND {
            return talk_in(self.ports.asked_of_sibling(word));
        }
        None
    }

    /// How many children a ticket is for, the share of each, and whether they were made.
    pub fn find(&self, ticket: u32) -> Option<(u32, u32, bool)>
        ensures { result ≡ option_map ticket_told (ticket_found self.now.state.ports.fork ticket) }
    {
        self.ports.find(ticket)
    }

    /// Makes CLONE, which retires and is counted.
    pub fn fork(&mut self, ticket: u32)
        requires { HasTicket self.old.state.ports.fork ticket false }
        ensures { self.new ≡ record self.old { state = made (after_clone self.old.state.ports.fork ticket) self.old.state } }
    {
        self.ports.cloned(ticket);
        self.retire_call();
    }

    /// Makes JOIN, which retires and is counted.
    pub fn join(&mut self, ticket: u32, endings: &[Ending]) -> Result<(), AllocError>
        requires there { HasTicket self.old.state.ports.fork ticket true }
        requires all { IsSomeAnd (ticket_found self.old.state.ports.fork ticket) (λ ticket. length endings.now ≡ ticket.children) }
        ensures ok { OnOk result (self.new ≡ record self.old { state = made (after_join self.old.state.ports.fork ticket endings.now) self.old.state }) }
        ensures err { OnErr result (self.new ≡ self.old) }
    {
        self.ports.joined(ticket, endings)?;
        self.retire_call();
        Ok(())
    }

    /// Makes KILL, which retires and is counted.
    pub fn kill(&mut self, ticket: u32)
        requires { IsSome (ticket_found self.old.state.ports.fork ticket) }
        ensures { self.new ≡ record self.old { state = made (after_kill self.old.state.ports.fork ticket) self.old.state } }
    {
        self.ports.killed(ticket);
        self.retire_call();
    }

    /// The word that a send of the machine sends.
    pub fn data(&self) -> u32
        ensures { result ≡ self.now.state.ports.sibling.word }
    {
        self.ports.data()
    }

    /// Makes a talk, which retires and is counted: it brought this word, if there is one, and has this answer.
    pub fn talked(&mut self, word: Option<u32>, answer: u32)
        ensures { self.new ≡ record self.old { state = made_talk word answer self.old.state } }
    {
        self.ports.talked(word, answer);
        self.retire_call();
    }

    /// The instruction of a call or a talk retires, and is counted.
    fn retire_call(&mut self)
        ensures { self.new ≡ record self.old { state = made self.old.state.ports.fork self.old.state } }
    {
        self.pc = self.pc.wrapping_add(4);
        self.count(true, Written::Nothing);
    }
}

/// The call among what commands of the fork port ask for.
fn call_in(asked: Asked) -> Option<Request>
    ensures { result ≡ call_asked asked }
{
    match asked {
        Asked::Call(call) => Some(Request::Call(call)),
        _ => None,
    }
}

/// The talk among what commands of the sibling port ask for.
fn talk_in(asked: sibling_port::Asked) -> Option<Request>
    ensures { result ≡ talk_asked_for asked }
{
    match asked {
        sibling_port::Asked::Talk(talk) => Some(Request::Talk(talk)),
        sibling_port::Asked::Refused(_) => None,
    }
}
