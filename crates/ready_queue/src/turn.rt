//! What stands in a queue.

ghost use Rattle.std.specs.Prelude.{◌≡◌, [], None, Some, IfOk, IsTrue, ◌↔◌};
ghost use Rattle.ready_queue.specs.Nodes.{ready_of};
ghost use Rattle.ready_queue.specs.Ready.{IsOfTicket};

use machine_names::Name;
use std::alloc::{AllocError, Global};
use std::marker::Model;

/// The room of a turn, with those behind it.
#[derive(Drop)]
pub(crate) struct Node {
    pub(crate) name: Name,
    /// The ticket and the first of the children, or `None` where it is the machine itself.
    pub(crate) children: Option<(u32, u32)>,
    pub(crate) next: Option<Box<Node>>,
}

/// A turn: that of a machine which is ready, or that of the children of one of its tickets, from one on. It takes its room
/// when it is made, and keeps it, so no queue takes memory for it.
#[derive(Drop)]
pub struct ReadyTurn {
    /// Nothing is behind it.
    pub(crate) node: Box<Node>,
}

impl Model for ReadyTurn {
    ghost use Rattle.ready_queue.specs.Ready.{Ready};

    ghost Value = { Ready };

    ghost use Rattle.ready_queue.specs.Nodes.{IsAlone, ready_of};

    ghost view = { λ t. ready_of t.node.value };

    ghost invariant = { λ t. IsAlone t.node.value };
}

impl ReadyTurn {
    /// The turn of the machine of that name.
    pub fn of_machine(alloc: Global, name: Name) -> Result<ReadyTurn, AllocError>
        ensures { IfOk result (λ turn. turn ≡ record { name = name; children = None }) }
    {
        Ok(ReadyTurn {
            node: Box::new(
                alloc,
                Node {
                    name,
                    children: None,
                    next: None,
                },
            )?,
        })
    }

    /// The turn of the children of a ticket of the machine of that name.
    pub fn of_children(alloc: Global, name: Name, ticket: u32) -> Result<ReadyTurn, AllocError>
        ensures { IfOk result (λ turn. turn ≡ record { name = name; children = Some (ticket, 1) }) }
    {
        Ok(ReadyTurn {
            node: Box::new(
                alloc,
                Node {
                    name,
                    children: Some((ticket, 1)),
                    next: None,
                },
            )?,
        })
    }

    /// The name of the machine, or of the children's parent.
    pub fn name(&self) -> &Name
        ensures { result.now ≡ self.now.name }
    {
        &self.node.name
    }

    /// The ticket and the first of the children, or `None` where it is the machine's own turn.
    pub fn children(&self) -> Option<(u32, u32)>
        ensures { result ≡ self.now.children }
    {
        self.node.children
    }

    /// Lets it be the turn of the children of a ticket from one on.
    pub fn set_children(&mut self, ticket: u32, first: u32)
        ensures { self.new ≡ record { name = self.old.name; children = Some (ticket, first) } }
    {
        self.node.children = Some((ticket, first));
    }

    /// The name in a turn that is needed no more.
    pub fn into_name(self) -> Name
        ensures { result ≡ self.name }
    {
        let ReadyTurn { node } = self;
        let Node {
            name,
            children: _,
            next: _,
        } = Box::into_inner(node);
        name
    }
}

impl Node {
    /// Whether it is the turn of the children of a ticket of the machine of that name.
    pub(crate) fn is_of(&self, name: &Name, ticket: u32) -> bool
        ensures { IsTrue result ↔ IsOfTicket name.now ticket (ready_of self.now) }
    {
        match self.children {
            Some((of, _)) => of == ticket
                && self.name.depth() == name.depth()
                && self.name == *name,
            None => false,
        }
    }
}
