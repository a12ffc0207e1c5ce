ghost use Rattle.std.specs.Prelude.{◌≡◌, ℕ, ◌<◌, [], ◌∷◌, ◌++◌, ◌+◌, length, slice_get, Some, None, IsSome, IfOk, OnOk, OnErr};
ghost use Rattle.std.specs.List.{AllByRecursion};
ghost use Rattle.std.specs.Option.{option_copied};
ghost use Rattle.fork_port.specs.Tickets.{IsAt, children_made, cost, held, ticket_of, with_cloned, without};

use std::alloc::{AllocError, Global};
use std::marker::Model;

/// A grant of children.
#[derive(Clone, Copy)]
pub struct Ticket {
    pub number: u32,
    /// How many children the ticket is for.
    pub children: u32,
    /// What each of them can give to tickets of its own.
    pub share: u32,
    /// Whether the children were made.
    pub is_cloned: bool,
}

impl Ticket {
    /// What the machine gives for the ticket: for each child 1 and its share.
    pub fn cost(self) -> u64
        ensures { result ≡ cost self }
    {
        u64::from(self.children) * (1 + u64::from(self.share))
    }

    /// How many of its children were made.
    pub fn children_made(self) -> u32
        ensures { result ≡ children_made self }
    {
        if self.is_cloned { self.children } else { 0 }
    }
}

/// The tickets of a machine, in the order of their numbers. No two have one number.
#[derive(Drop)]
pub struct TicketList {
    tickets: Vec<Ticket>,
}

impl Model for TicketList {
    ghost use Rattle.std.specs.Prelude.{List};
    ghost use Rattle.fork_port.specs.declared.tickets.Ticket.{Ticket};
    ghost use Rattle.fork_port.specs.Tickets.{IsRising};

    ghost Value = { List Ticket };

    ghost view = { λ l. l.tickets.items };

    ghost invariant = { λ l. IsRising l.tickets.items };
}

impl TicketList {
    pub fn new(alloc: Global) -> TicketList
        ensures { result ≡ [] }
    {
        TicketList {
            tickets: Vec::new(alloc),
        }
    }

    /// The ticket of that number.
    pub fn get(&self, number: u32) -> Option<Ticket>
        ensures { result ≡ ticket_of self.now number }
    {
        match self.search(number) {
            Ok(at) => Some(self.tickets[at]),
            Err(_) => None,
        }
    }

    /// Adds a ticket with a number above all others.
    pub fn push(&mut self, ticket: Ticket) -> Result<(), AllocError>
        requires { AllByRecursion (λ other. other.number < ticket.number) self.old }
        ensures ok { OnOk result (self.new ≡ self.old ++ ticket ∷ []) }
        ensures err { OnErr result (self.new ≡ self.old) }
    {
        self.tickets.push(ticket)?;
        Ok(())
    }

    /// Marks the ticket of that number as cloned.
    pub fn mark_cloned(&mut self, number: u32)
        requires { IsSome (ticket_of self.old number) }
        ensures { self.new ≡ with_cloned self.old number }
    {
        let at = self.search(number).unwrap();
        self.tickets[at].is_cloned = true;
    }

    /// Takes out the ticket of that number.
    pub fn remove(&mut self, number: u32) -> Ticket
        requires { IsSome (ticket_of self.old number) }
        ensures value { ticket_of self.old number ≡ Some result }
        ensures others { self.new ≡ without self.old number }
        ensures cost_freed { held self.new + cost result ≡ held self.old }
    {
        let at = self.search(number).unwrap();
        self.tickets.remove(at)
    }

    // Where the ticket of that number is.
    fn search(&self, number: u32) -> Result<usize, usize>
        ensures found { IfOk result (IsAt self.now number) }
        ensures absent { OnErr result (ticket_of self.now number ≡ None) }
    {
        self.tickets
            .binary_search_by_key(&number, |ticket| ticket.number)
    }
}
