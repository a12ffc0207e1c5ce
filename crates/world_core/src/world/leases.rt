//! Which machines are on lease, where somebody finds none that is ready.

ghost use Rattle.std.specs.Prelude.{◌≡◌, MatchBool, false, true};
ghost use Rattle.std.specs.BTreeMap.{get};
ghost use Rattle.forest_tree.specs.Tree.{Path};
ghost use Rattle.machine_names.specs.NameOrder.{path_cmp};
ghost use Rattle.world_core.specs.Shows.{is_out_cell};

use crate::cell::{Cell, State};
use crate::world::{Taken, World};
use machine_names::Name;
use std::alloc::{AllocError, Global};
use std::collections::BTreeMap;

/// For so many names there is room: twice as many as there are threads at most.
const MAX_NAMES: usize = 128;

/// Names of machines that are on lease, and of some that have come back. Their room is taken with that of the world, so none
/// of this takes memory.
#[derive(Drop)]
pub(crate) struct Leases {
    /// Whether somebody has found no machine that was ready. There are no names before: where one thread takes machines, none
    /// is on lease as it takes the next.
    is_asked: bool,
    names: Vec<Name>,
}

impl Leases {
    /// No names, and room for them.
    pub(crate) fn new(alloc: Global) -> Result<Leases, AllocError> {
        Ok(Leases {
            is_asked: false,
            names: Vec::with_capacity(alloc, MAX_NAMES)?,
        })
    }

    /// Puts a name behind the others, where there is room for it.
    fn keep(&mut self, name: &Name) {
        if self.names.len() >= self.names.capacity() {
            return;
        }
        if let Ok(name) = name.copy() {
            self.names.push_reserved(name);
        }
    }

    /// Keeps the name of a machine that was taken, once somebody has asked. Where there is no room for it, those are dropped
    /// that have come back.
    fn keep_taken(&mut self, cells: &BTreeMap<Name, Cell>, name: &Name) {
        if !self.is_asked {
            return;
        }
        if self.names.len() >= self.names.capacity() {
            self.names.retain(|name| is_out(cells, name));
        }
        self.keep(name);
    }

    /// Whether one of the names is of a machine that is on lease. The last ones are dropped whose machines are not.
    fn last_is_out(&mut self, cells: &BTreeMap<Name, Cell>) -> bool
        ensures { result ≡ true → (name : Path) × (is_out_cell (get path_cmp cells.now name) ≡ true) }
    {
        while let Some(name) = self.names.last() {
            if is_out(cells, name) {
                return true;
            }
            self.names.pop();
        }
        false
    }

    /// Whether a machine is on lease. The names of those that are, are kept, as far as there is room for them.
    fn look_over(&mut self, cells: &BTreeMap<Name, Cell>) -> bool
        ensures { MatchBool result ((name : Path) × (is_out_cell (get path_cmp cells.now name) ≡ true))
            ((name : Path) → is_out_cell (get path_cmp cells.now name) ≡ false) }
    {
        self.is_asked = true;
        let mut is_one_out = false;
        for (name, cell) in cells {
            if let State::Out = &cell.state {
                is_one_out = true;
                self.keep(name);
            }
        }
        is_one_out
    }
}

impl World {
    /// Whether a machine is on lease whose name is still in the forest. The names of those that were taken are looked up, the
    /// last first, until one is on lease. Over all that are awake it looks where nobody has asked before, or where no machine
    /// whose name is kept is on lease: mostly none is, then.
    pub(crate) fn is_one_out(&mut self) -> bool
        ensures one { MatchBool result ((name : Path) × (is_out_cell (get path_cmp self.old.cells name) ≡ true))
            ((name : Path) → is_out_cell (get path_cmp self.old.cells name) ≡ false) }
        ensures same { self.new ≡ record self.old { leases = self.new.leases } }
    {
        if self.leases.last_is_out(&self.cells) {
            return true;
        }
        self.leases.look_over(&self.cells)
    }

    /// Keeps the name of what was taken, once somebody asked which machines are on lease.
    pub(crate) fn keep_taken(&mut self, taken: &Taken)
        ensures { self.new ≡ record self.old { leases = self.new.leases } }
    {
        if let Taken::Took(lease) = taken {
            self.leases.keep_taken(&self.cells, lease.name());
        }
    }
}

/// Whether a machine is on lease.
fn is_out(cells: &BTreeMap<Name, Cell>, name: &Name) -> bool
    ensures { result ≡ is_out_cell (get path_cmp cells.now name.now) }
{
    match cells.get(name) {
        Some(cell) => matches!(&cell.state, State::Out),
        None => false,
    }
}
