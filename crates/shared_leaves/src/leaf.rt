ghost use Rattle.std.specs.Prelude.{◌≡◌, ◌<◌, length, slice_index_or, IfOk, IfSome};
ghost use Rattle.std.specs.Borrow.{sem};
ghost use Rattle.arrayvec.specs.ArrayVec.{array_vec_len};
ghost use Rattle.arrayvec.specs.Lends.{lends_item};
ghost use Rattle.shared_leaves.specs.Lends.{leaf_lends, leaf_lends_own};

use crate::handle::Handle;
use arrayvec::ArrayVec;
use std::alloc::{AllocError, Global};
use std::marker::Model;
use std::sync::Arc;

/// The entries of a leaf. Only the last leaf of a list may have fewer.
pub const LEAF_ENTRIES: usize = 64;

/// Entries in a row, which a leaf and its clones share until one of them is written. They lie in the
/// shared allocation itself: behind a pointer of their own they would cost each read a load more. So a leaf
/// takes the room of 64 entries, however few it has.
#[derive(Drop)]
pub struct Leaf<T: Handle> {
    entries: Arc<ArrayVec<T, LEAF_ENTRIES>>,
}

impl<T: Handle> Model for Leaf<T> {
    ghost use Rattle.std.specs.Prelude.{List};
    ghost use Rattle.std.specs.Arc.{arc_value};

    ghost Value = { List T };

    ghost view = { λ l. (arc_value l.entries).items };
}

impl<T: Handle> Clone for Leaf<T> {
    ghost use Rattle.std.specs.Prelude.{◌≡◌};

    ghost is_clone = { λ leaf copy. copy ≡ leaf };

    fn clone(&self) -> Result<Leaf<T>, AllocError> {
        Ok(Leaf {
            entries: Arc::try_clone(&self.entries)?,
        })
    }
}

impl<T: Handle> Leaf<T> {
    /// The leaf that has these entries.
    pub fn new(alloc: Global, entries: ArrayVec<T, LEAF_ENTRIES>) -> Result<Leaf<T>, AllocError>
        ensures { IfOk result (λ leaf. leaf ≡ entries.items) }
    {
        Ok(Leaf {
            entries: Arc::new(alloc, entries)?,
        })
    }

    /// How many entries the leaf has.
    pub fn len(&self) -> usize
        ensures { result ≡ length self.now }
    {
        self.entries.len()
    }

    /// The entries in a row.
    #[inline(always)]
    pub fn entries(&self) -> &[T]
        ensures { result.now ≡ self.now }
    {
        &self.entries
    }

    /// The entry at a place.
    #[inline(always)]
    pub fn get(&self, i: usize) -> &T
        requires { i < length self.now }
        ensures { result.now ≡ slice_index_or self.now i result.now }
    {
        &self.entries[i]
    }

    /// The entry at a place, to be written. The entries are copied first where a clone shares them.
    #[inline(always)]
    pub fn entry_mut(&mut self, alloc: Global, i: usize) -> Result<&mut T, AllocError>
        requires { i < length self.old }
        ensures* writes_back { sem 𝓛 (leaf_lends T.row T.Clone T.Default self.entry i result) }
        ensures value { IfOk result (λ entry. entry.now ≡ slice_index_or self.old i entry.now) }
    {
        self.unshare(alloc)?;
        let Some(entries) = Arc::get_mut(&mut self.entries) else {
            return Err(AllocError);
        };
        Ok(item_mut(entries, i))
    }

    /// The entry at a place, to be written, or `None` where a clone shares the entries.
    #[inline(always)]
    pub fn own_entry_mut(&mut self, i: usize) -> Option<&mut T>
        requires { i < length self.old }
        ensures* writes_back { sem 𝓛 (leaf_lends_own T.row T.Clone T.Default self.entry i result) }
        ensures value { IfSome result (λ entry. entry.now ≡ slice_index_or self.old i entry.now) }
    {
        let Some(entries) = Arc::get_mut(&mut self.entries) else {
            return None;
        };
        Some(item_mut(entries, i))
    }

    /// Gives this leaf entries of its own where a clone shares them.
    #[inline(always)]
    fn unshare(&mut self, alloc: Global) -> Result<(), AllocError>
        ensures { self.new ≡ self.old }
    {
        if Arc::strong_count(&self.entries) == 1 {
            return Ok(());
        }
        self.copy(alloc)
    }

    /// Copies the entries. It is apart and never inlined, so that a write to a leaf that has one owner
    /// is short.
    #[cold]
    #[inline(never)]
    fn copy(&mut self, alloc: Global) -> Result<(), AllocError>
        ensures { self.new ≡ self.old }
    {
        *self = Leaf::new(alloc, copies(&self.entries)?)?;
        Ok(())
    }
}

/// The same entries once more. Those of a full leaf are made as an array, which takes half the time of one that grows.
fn copies<T: Handle>(
    entries: &ArrayVec<T, LEAF_ENTRIES>,
) -> Result<ArrayVec<T, LEAF_ENTRIES>, AllocError>
    ensures { IfOk result (λ copy. copy.items ≡ entries.now.items) }
{
    match entries.as_slice().as_array::<LEAF_ENTRIES>() {
        Some(all) => Ok(ArrayVec::from_array_in((), all.clone()?)),
        None => ArrayVec::clone(entries),
    }
}

/// The item at a place, to be written.
#[inline(always)]
fn item_mut<T, const CAP: usize, A>(items: &mut ArrayVec<T, CAP, A>, i: usize) -> &mut T
    requires { i < array_vec_len items.old }
    ensures* writes_back { sem 𝓛 (lends_item T.row CAP.row A.row items.entry i result) }
    ensures value { result.now ≡ slice_index_or items.old.items i result.now }
{
    match items.get_mut(i) {
        Some(item) => item,
        None => unreachable!(),
    }
}
