//! Turns one behind another.

ghost use Rattle.std.specs.Prelude.{◌≡◌, ◌∷◌, ◌++◌, [], reverse, IsTrue, MatchOption};
ghost use Rattle.ready_queue.specs.Ready.{Begins, IsOfTicket};

use crate::turn::{Node, ReadyTurn};
use machine_names::Name;
use std::marker::Model;

/// Turns one behind another. Each has its own room, so none of this takes memory.
pub(crate) struct Chain {
    first: Option<Box<Node>>,
}

// By a loop, since a chain may be long.
impl Drop for Chain {
    fn drop(self) {
        let Chain { first } = self;
        let mut left = first;
        while let Some(node) = left {
            let Node {
                name: _,
                children: _,
                next,
            } = Box::into_inner(node);
            left = next;
        }
    }
}

impl Model for Chain {
    ghost use Rattle.std.specs.Prelude.{List};
    ghost use Rattle.ready_queue.specs.Ready.{Ready};

    ghost Value = { List Ready };

    ghost use Rattle.ready_queue.specs.Nodes.{turns_of};

    ghost view = { λ c. turns_of c.first };
}

impl Chain {
    pub(crate) fn new() -> Chain
        ensures { result ≡ [] }
    {
        Chain { first: None }
    }

    /// Whether the first turn is that of the children of a ticket.
    pub(crate) fn begins_with(&self, name: &Name, ticket: u32) -> bool
        ensures { IsTrue result → Begins name.now ticket self.now }
    {
        match &self.first {
            Some(node) => node.is_of(name, ticket),
            None => false,
        }
    }

    /// Puts in a turn before all others.
    #[tactic(auto, using(crate::proofs::NodeLists::turns_from_roll, crate::proofs::NodeLists::turns_from_out))]
    pub(crate) fn push(&mut self, turn: ReadyTurn)
        ensures { self.new ≡ turn ∷ self.old }
    {
        let ReadyTurn { node } = turn;
        let mut node = node;
        node.next = self.first.take();
        self.first = Some(node);
    }

    /// Takes out the first turn.
    #[tactic(auto, using(crate::proofs::NodeLists::turns_from_roll, crate::proofs::NodeLists::turns_from_out))]
    pub(crate) fn pop(&mut self) -> Option<ReadyTurn>
        ensures { MatchOption result ((self.old ≡ []) × (self.new ≡ [])) (λ turn. self.old ≡ turn ∷ self.new) }
    {
        let mut node = self.first.take()?;
        self.first = node.next.take();
        Some(ReadyTurn { node })
    }

    /// Takes out the first turn, if it is that of the children of a ticket.
    pub(crate) fn pop_of(&mut self, name: &Name, ticket: u32) -> Option<ReadyTurn>
        ensures { MatchOption result (self.new ≡ self.old) (λ turn. IsOfTicket name.now ticket turn × (self.old ≡ turn ∷ self.new)) }
    {
        if !self.begins_with(name, ticket) {
            return None;
        }
        self.pop()
    }
}

/// Puts all turns of a chain onto another, so that they come the other way round.
pub(crate) fn turn_over(from: &mut Chain, to: &mut Chain)
    ensures empty { from.new ≡ [] }
    ensures turned { to.new ≡ reverse from.old ++ to.old }
{
    while let Some(turn) = from.pop() {
        to.push(turn);
    }
}
