ghost use Rattle.std.specs.Prelude.{◌≡◌, ◌+◌, ◌-◌, ◌*◌, ◌<◌, ◌≤◌, drop, length, slice_index_or, slice_set, take, IfOk, IfSome, OnOk, OnErr};
ghost use Rattle.std.specs.Borrow.{sem};
ghost use Rattle.shared_leaves.specs.Leaves.{leaf_count};
ghost use Rattle.shared_leaves.specs.Lends.{list_lends, list_lends_own};

use crate::handle::Handle;
use crate::leaf::{LEAF_ENTRIES, Leaf};
use crate::steps::Steps;
use std::alloc::{AllocError, Global};
use std::marker::Model;
use std::sync::ledger::Ledger;

/// A list whose leaves other lists share until they write them.
#[derive(Drop)]
pub struct SharedList<T: Handle> {
    pub(crate) leaves: Vec<Leaf<T>>,
    pub(crate) len: usize,
}

impl<T: Handle> Model for SharedList<T> {
    ghost use Rattle.std.specs.Prelude.{List};
    ghost use Rattle.shared_leaves.specs.Leaves.{joined, IsCut};

    ghost Value = { List T };

    ghost view = { λ l. joined l.leaves.items };

    ghost invariant = { λ l. IsCut l.len l.leaves.items };
}

impl<T: Handle> Clone for SharedList<T> {
    ghost use Rattle.std.specs.Prelude.{◌≡◌};

    ghost is_clone = { λ list copy. copy ≡ list };

    fn clone(&self) -> Result<SharedList<T>, AllocError> {
        Ok(SharedList {
            leaves: self.leaves.clone()?,
            len: self.len,
        })
    }
}

impl<T: Handle> SharedList<T> {
    /// How many entries the list has.
    #[inline(always)]
    pub fn len(&self) -> usize
        ensures { result ≡ length self.now }
    {
        self.len
    }

    /// The allocator of the list.
    #[inline(always)]
    pub fn allocator(&self) -> Global {
        *self.leaves.allocator()
    }

    /// The entry at a place.
    #[inline(always)]
    pub fn get(&self, i: usize) -> &T
        requires { i < length self.now }
        ensures { result.now ≡ slice_index_or self.now i result.now }
    {
        self.leaves[i / LEAF_ENTRIES].get(i % LEAF_ENTRIES)
    }

    /// Entries in a row that end before a place, as many as lie together: one at least.
    #[inline(always)]
    pub fn run_before(&self, end: usize) -> &[T]
        requires some { 0 < end }
        requires inside { end ≤ length self.now }
        ensures run { result.now ≡ take (length result.now) (drop (end - length result.now) self.now) }
        ensures some { 0 < length result.now }
        ensures most { length result.now ≤ end }
    {
        let leaf = (end - 1) / LEAF_ENTRIES;
        let (run, _) = self.leaf(leaf).split_at(end - LEAF_ENTRIES * leaf);
        run
    }

    /// The entries of a leaf: 64, and maybe fewer in the last leaf.
    #[inline(always)]
    fn leaf(&self, n: usize) -> &[T]
        requires { LEAF_ENTRIES * n < length self.now }
        ensures { result.now ≡ take LEAF_ENTRIES (drop (LEAF_ENTRIES * n) self.now) }
    {
        self.leaves[n].entries()
    }

    /// The entry at a place, to be written in its place. Its leaf is copied first where another list
    /// shares it.
    #[inline(always)]
    pub fn entry_mut(&mut self, i: usize) -> Result<&mut T, AllocError>
        requires { i < length self.old }
        ensures* writes_back { sem 𝓛 (list_lends T.row T.Clone T.Default self.entry i result) }
        ensures value { IfOk result (λ entry. entry.now ≡ slice_index_or self.old i entry.now) }
    {
        let alloc = self.allocator();
        self.leaves[i / LEAF_ENTRIES].entry_mut(alloc, i % LEAF_ENTRIES)
    }

    /// The entry at a place, to be written in its place, or `None` where another list shares its leaf.
    #[inline(always)]
    pub fn own_entry_mut(&mut self, i: usize) -> Option<&mut T>
        requires { i < length self.old }
        ensures* writes_back { sem 𝓛 (list_lends_own T.row T.Clone T.Default self.entry i result) }
        ensures value { IfSome result (λ entry. entry.now ≡ slice_index_or self.old i entry.now) }
    {
        self.leaves[i / LEAF_ENTRIES].own_entry_mut(i % LEAF_ENTRIES)
    }

    /// Writes the entry at a place. Its leaf is copied first where another list shares it.
    pub fn set(&mut self, i: usize, entry: T) -> Result<(), AllocError>
        requires { i < length self.old }
        ensures ok { OnOk result (self.new ≡ slice_set self.old i entry) }
        ensures err { OnErr result (self.new ≡ self.old) }
    {
        *self.entry_mut(i)? = entry;
        Ok(())
    }

    /// The same list once more. It costs one handle a leaf, and each is a step.
    pub fn share_counted<L: Ledger>(
        &self,
        steps: &mut Steps<L>,
    ) -> Result<SharedList<T>, AllocError>
        ensures value { IfOk result (λ shared. shared ≡ self.now) }
        ensures cost { OnOk result (steps.new ≡ steps.old + leaf_count (length self.now)) }
        ensures most { steps.new ≤ steps.old + leaf_count (length self.now) }
    {
        Ok(SharedList {
            leaves: share_leaves(self.allocator(), &self.leaves, steps)?,
            len: self.len,
        })
    }

    /// The same list once more. It costs one handle a leaf.
    pub fn share(&self) -> Result<SharedList<T>, AllocError>
        ensures { IfOk result (λ shared. shared ≡ self.now) }
    {
        self.clone()
    }
}

/// Handles on these leaves. Each is a step.
fn share_leaves<T: Handle, L: Ledger>(
    alloc: Global,
    leaves: &[Leaf<T>],
    steps: &mut Steps<L>,
) -> Result<Vec<Leaf<T>>, AllocError>
    ensures value { IfOk result (λ shared. shared.items ≡ leaves.now) }
    ensures cost { OnOk result (steps.new ≡ steps.old + length leaves.now) }
    ensures most { steps.new ≤ steps.old + length leaves.now }
{
    let mut shared = Vec::with_capacity(alloc, leaves.len())?;
    for leaf in leaves {
        steps.tick();
        shared.push(leaf.clone()?)?;
    }
    Ok(shared)
}
