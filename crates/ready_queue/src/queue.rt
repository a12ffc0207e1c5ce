//! The queue itself.

ghost use Rattle.std.specs.Prelude.{◌≡◌, ◌∷◌, ◌++◌, [], MatchOption, OnErr, OnOk};
ghost use Rattle.ready_queue.specs.Ready.{Raises};

use crate::chain::{Chain, turn_over};
use crate::turn::ReadyTurn;
use machine_names::Name;
use std::alloc::{AllocError, Global};
use std::marker::Model;

/// Turns, in the order in which they are taken. Only `raise` may want memory.
#[derive(Drop)]
pub struct ReadyQueue {
    front: Chain,
    /// Those behind these, the last of them first.
    back: Chain,
}

impl Model for ReadyQueue {
    ghost use Rattle.std.specs.Prelude.{List, ◌++◌, reverse};
    ghost use Rattle.ready_queue.specs.Ready.{Ready};

    ghost Value = { List Ready };

    ghost view = { λ q. q.front ++ reverse q.back };
}

impl ReadyQueue {
    /// No turn.
    pub fn new() -> ReadyQueue
        ensures { result ≡ [] }
    {
        ReadyQueue {
            front: Chain::new(),
            back: Chain::new(),
        }
    }

    /// Puts in a turn before all others.
    pub fn push(&mut self, turn: ReadyTurn)
        ensures { self.new ≡ turn ∷ self.old }
    {
        self.front.push(turn);
    }

    /// Puts in a turn behind all others.
    pub fn push_last(&mut self, turn: ReadyTurn)
        ensures { self.new ≡ self.old ++ turn ∷ [] }
    {
        self.back.push(turn);
    }

    /// Takes out the first turn.
    pub fn pop(&mut self) -> Option<ReadyTurn>
        ensures { MatchOption result ((self.old ≡ []) × (self.new ≡ [])) (λ turn. self.old ≡ turn ∷ self.new) }
    {
        if let Some(turn) = self.front.pop() {
            return Some(turn);
        }
        turn_over(&mut self.back, &mut self.front);
        self.front.pop()
    }

    /// Lets a turn of the children of a ticket be the first: one that stands at an end of the queue, or else one more. The
    /// others stay in their order. Fails if memory is wanting for one more, and changes nothing then.
    pub fn raise(&mut self, alloc: Global, name: &Name, ticket: u32) -> Result<(), AllocError>
        ensures raised { OnOk result (Raises name.now ticket self.old self.new) }
        ensures same { OnErr result (self.new ≡ self.old) }
    {
        if self.front.begins_with(name, ticket) {
            return Ok(());
        }
        // The newest is the first of those behind. One in the midst would have to be looked for, and stays.
        let turn = match self.back.pop_of(name, ticket) {
            Some(turn) => turn,
            None => ReadyTurn::of_children(alloc, name.copy()?, ticket)?,
        };
        self.front.push(turn);
        Ok(())
    }
}
