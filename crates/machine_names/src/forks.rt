//! The forks of a name, in a row.

ghost use Rattle.std.specs.Prelude.{◌≡◌, ◌<◌, ◌≤◌, ◌-◌, ◌∷◌, ◌++◌, [], drop, length, slice_index_or, take, IfOk, IsTrue};
ghost use Rattle.machine_names.specs.Forks.{IsNamed};

use crate::name::Branch;
use arrayvec::ArrayVec;
use shared_leaves::SharedList;
use std::alloc::{AllocError, Global};
use std::marker::Model;

/// So many forks lie in the row itself. They take no more room than a handle on others.
const SHORT: usize = 3;

/// So many forks have a row of their own. A longer row shares its forks with other names, 64 at a time.
const FEW: usize = 16;

/// Forks in a row.
#[derive(Drop)]
pub(crate) struct Forks {
    row: Row,
}

#[derive(Drop)]
enum Row {
    /// In the row itself.
    Short(ArrayVec<Branch, SHORT>),
    /// In as much room as they take.
    Few(Vec<Branch>),
    Many(SharedList<Branch>),
}

impl Model for Forks {
    ghost use Rattle.forest_tree.specs.Tree.{Path};
    ghost use Rattle.machine_names.specs.Forks.{forks_in};

    ghost Value = { Path };

    ghost view = { λ f. forks_in f.row };
}

impl Forks {
    /// The forks that a list has.
    pub(crate) fn few(forks: Vec<Branch>) -> Forks
        ensures { result ≡ forks.items }
    {
        Forks {
            row: Row::Few(forks),
        }
    }

    /// How many they are.
    #[inline]
    pub(crate) fn len(&self) -> usize
        ensures { result ≡ length self.now }
    {
        match &self.row {
            Row::Short(forks) => forks.len(),
            Row::Few(forks) => forks.len(),
            Row::Many(forks) => forks.len(),
        }
    }

    /// The fork at a place.
    #[inline]
    pub(crate) fn get(&self, at: usize) -> &Branch
        requires { at < length self.now }
        ensures { result.now ≡ slice_index_or self.now at result.now }
    {
        match &self.row {
            Row::Short(forks) => &forks.as_slice()[at],
            Row::Few(forks) => &forks[at],
            Row::Many(forks) => forks.get(at),
        }
    }

    /// Whether there is this fork at a place.
    #[inline]
    pub(crate) fn has_at(&self, at: usize, fork: Branch) -> bool
        ensures { IsTrue result → (at < length self.now) × (fork ≡ slice_index_or self.now at fork) }
    {
        at < self.len() && self.get(at).cmp(&fork).is_eq()
    }

    /// The last of the first forks, as many as `count` tells, if there is one.
    pub(crate) fn last_of(&self, count: usize) -> Branch
        requires { count ≤ length self.now }
        ensures { IsNamed count result self.now }
    {
        if count == 0 {
            return Branch::new(0, 0);
        }
        *self.get(count - 1)
    }

    /// Forks in a row that end before a place, as many as lie together: one at least.
    #[inline]
    pub(crate) fn run_before(&self, end: usize) -> &[Branch]
        requires some { 0 < end }
        requires inside { end ≤ length self.now }
        ensures run { result.now ≡ take (length result.now) (drop (end - length result.now) self.now) }
        ensures some { 0 < length result.now }
        ensures most { length result.now ≤ end }
    {
        match &self.row {
            Row::Short(forks) => forks.as_slice().split_at(end).0,
            Row::Few(forks) => forks.split_at(end).0,
            Row::Many(forks) => forks.run_before(end),
        }
    }

    /// The first forks, as many as `count` tells, and another behind them.
    pub(crate) fn followed_by(
        &self,
        alloc: Global,
        count: usize,
        last: Branch,
    ) -> Result<Forks, AllocError>
        requires { count ≤ length self.now }
        ensures { IfOk result (λ forks. forks ≡ take count self.now ++ last ∷ []) }
    {
        match &self.row {
            Row::Short(forks) => followed(alloc, forks.as_slice().split_at(count).0, last),
            Row::Few(forks) => followed(alloc, forks.split_at(count).0, last),
            Row::Many(forks) => Ok(Forks {
                row: Row::Many(forks.followed_by(count, last)?),
            }),
        }
    }
}

/// A row of forks, and another behind them.
fn followed(alloc: Global, forks: &[Branch], last: Branch) -> Result<Forks, AllocError>
    ensures { IfOk result (λ all. all ≡ forks.now ++ last ∷ []) }
{
    if forks.len() < SHORT {
        return Ok(short(forks, last));
    }
    let mut all = Vec::with_capacity(alloc, forks.len() + 1)?;
    all.extend_from_slice(forks)?;
    all.push(last)?;
    if all.len() <= FEW {
        return Ok(Forks::few(all));
    }
    Ok(Forks {
        row: Row::Many(SharedList::from_vec(alloc, all)?),
    })
}

/// The same, where they lie in the row itself.
fn short(forks: &[Branch], last: Branch) -> Forks
    requires { length forks.now < SHORT }
    ensures { result ≡ forks.now ++ last ∷ [] }
{
    let mut all = ArrayVec::new();
    let Ok(()) = all.try_extend_from_slice(forks) else {
        unreachable!();
    };
    all.push(last);
    Forks {
        row: Row::Short(all),
    }
}
