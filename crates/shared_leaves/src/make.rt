//! Lists that are made, and runs of equal entries.

ghost use Rattle.std.specs.Prelude.{◌≡◌, ◌+◌, ◌-◌, ◌*◌, ◌%◌, ◌^◌, ◌<◌, ◌≤◌, [], ◌∷◌, ◌++◌, drop, length, min, replicate, take, IfOk, OnOk, OnErr};
ghost use Rattle.std.specs.List.{splice};
ghost use Rattle.std.specs.Vec.Iter.{into_iter_items};
ghost use Rattle.arrayvec.specs.ArrayVec.{array_vec_len};

use crate::handle::Handle;
use crate::leaf::{LEAF_ENTRIES, Leaf};
use crate::list::SharedList;
use arrayvec::ArrayVec;
use std::alloc::{AllocError, Global};
use std::vec;

impl<T: Handle> SharedList<T> {
    /// The list of no entries.
    pub fn new(alloc: Global) -> SharedList<T>
        ensures { result ≡ [] }
    {
        SharedList {
            leaves: Vec::new(alloc),
            len: 0,
        }
    }

    /// The list that has these entries.
    pub fn from_vec(alloc: Global, entries: Vec<T>) -> Result<SharedList<T>, AllocError>
        ensures { IfOk result (λ list. list ≡ entries.items) }
    {
        let mut list = SharedList::new(alloc);
        list.push_all(alloc, &mut entries.into_iter())?;
        Ok(list)
    }

    /// The list of so many equal entries. Its full leaves are one, so it costs one handle for each of them.
    pub fn repeat(alloc: Global, entry: &T, count: usize) -> Result<SharedList<T>, AllocError>
        ensures { IfOk result (λ list. list ≡ replicate count entry.now) }
    {
        let full = equal_entries(alloc, entry, LEAF_ENTRIES)?;
        let mut list = SharedList::new(alloc);
        list.push_copies(entry, &full, count / LEAF_ENTRIES)?;
        let rest = count % LEAF_ENTRIES;
        if rest == 0 {
            return Ok(list);
        }
        list.push_leaf(equal_entries(alloc, entry, rest)?)?;
        Ok(list)
    }

    /// Puts so many handles on a full leaf of equal entries into a list of none.
    fn push_copies(&mut self, entry: &T, full: &Leaf<T>, count: usize) -> Result<(), AllocError>
        requires none { self.old ≡ [] }
        requires full { full.now ≡ replicate LEAF_ENTRIES entry.now }
        requires fits { LEAF_ENTRIES * count < 2 ^ 64 }
        ensures { OnOk result (self.new ≡ replicate (LEAF_ENTRIES * count) entry.now) }
    {
        'leaves: for _ in 0..count {
            self.push_leaf(full.clone()?)?;
        }
        Ok(())
    }

    /// Puts these entries into a list of none.
    fn push_all(&mut self, alloc: Global, entries: &mut vec::IntoIter<T>) -> Result<(), AllocError>
        requires { self.old ≡ [] }
        ensures { OnOk result (self.new ≡ into_iter_items entries.old) }
    {
        'leaves: while entries.len() > 0 {
            self.push_leaf(Leaf::new(alloc, next_entries(entries))?)?;
        }
        Ok(())
    }

    /// The first entries, as many as `count` tells, and another behind them. The full leaves of these are
    /// shared: it costs one handle for each, and the copies of the entries behind them.
    pub fn followed_by(&self, count: usize, entry: T) -> Result<SharedList<T>, AllocError>
        requires { count ≤ length self.now }
        ensures { IfOk result (λ list. list ≡ take count self.now ++ entry ∷ []) }
    {
        // One more could not be counted.
        if count == usize::MAX {
            return Err(AllocError);
        }
        let begin = count - count % LEAF_ENTRIES;
        let last = self.last_leaf(begin, count, entry)?;
        let mut list = self.first_leaves(begin)?;
        list.push_leaf(last)?;
        Ok(list)
    }

    /// The entries from one place up to another, and another behind them.
    fn last_leaf(&self, first: usize, end: usize, entry: T) -> Result<Leaf<T>, AllocError>
        requires order { first ≤ end }
        requires inside { end ≤ length self.now }
        requires room { end - first < LEAF_ENTRIES }
        ensures { IfOk result (λ leaf. leaf ≡ take (end - first) (drop first self.now) ++ entry ∷ []) }
    {
        let mut copies = ArrayVec::new();
        self.copy_into(first, end, &mut copies)?;
        copies.push(entry);
        Leaf::new(self.allocator(), copies)
    }

    /// The first entries, as many as `len` tells, which fill their leaves.
    fn first_leaves(&self, len: usize) -> Result<SharedList<T>, AllocError>
        requires full { len % LEAF_ENTRIES ≡ 0 }
        requires inside { len ≤ length self.now }
        ensures { IfOk result (λ list. list ≡ take len self.now) }
    {
        let count = len / LEAF_ENTRIES;
        let (first, _) = self.leaves.split_at(count);
        let mut leaves = Vec::with_capacity(self.allocator(), count + 1)?;
        share_into(first, &mut leaves)?;
        Ok(SharedList { leaves, len })
    }

    /// Copies the entries from one place up to another behind others.
    fn copy_into(
        &self,
        first: usize,
        end: usize,
        copies: &mut ArrayVec<T, LEAF_ENTRIES>,
    ) -> Result<(), AllocError>
        requires order { first ≤ end }
        requires inside { end ≤ length self.now }
        requires room { array_vec_len copies.old + (end - first) ≤ LEAF_ENTRIES }
        ensures copies { OnOk result (copies.new.items ≡ copies.old.items ++ take (end - first) (drop first self.now)) }
        ensures count { OnOk result (array_vec_len copies.new ≡ array_vec_len copies.old + (end - first)) }
    {
        'places: for at in first..end {
            copies.push(self.get(at).clone()?);
        }
        Ok(())
    }

    /// Puts a leaf behind the others, which are full.
    pub(crate) fn push_leaf(&mut self, leaf: Leaf<T>) -> Result<(), AllocError>
        requires full { length self.old % LEAF_ENTRIES ≡ 0 }
        requires some { 0 < length leaf }
        requires most { length leaf ≤ LEAF_ENTRIES }
        requires fits { length self.old + length leaf < 2 ^ 64 }
        ensures { OnOk result (self.new ≡ self.old ++ leaf) }
    {
        let len = self.len + leaf.len();
        self.leaves.push(leaf)?;
        self.len = len;
        Ok(())
    }

    /// Sets the entries from one place up to another to one value. A leaf that lies in the run costs
    /// one handle.
    pub fn fill(&mut self, first: usize, end: usize, entry: &T) -> Result<(), AllocError>
        requires order { first ≤ end }
        requires inside { end ≤ length self.old }
        ensures ok { OnOk result (self.new ≡ splice self.old first end (replicate (end - first) entry.now)) }
        ensures err { OnErr result (self.new ≡ self.old) }
    {
        *self = self.filled(first, end, entry)?;
        Ok(())
    }

    /// The list with one value at all places from one up to another.
    fn filled(&self, first: usize, end: usize, entry: &T) -> Result<SharedList<T>, AllocError>
        requires order { first ≤ end }
        requires inside { end ≤ length self.now }
        ensures { IfOk result (λ list. list ≡ splice self.now first end (replicate (end - first) entry.now)) }
    {
        let full = equal_entries(self.allocator(), entry, LEAF_ENTRIES)?;
        let mut list = self.clone()?;
        list.write_run(first, end, entry, &full)?;
        Ok(list)
    }

    /// Sets the entries from one place up to another to one value, and `full` has a leaf of it. At an error
    /// some are set.
    fn write_run(
        &mut self,
        first: usize,
        end: usize,
        entry: &T,
        full: &Leaf<T>,
    ) -> Result<(), AllocError>
        requires order { first ≤ end }
        requires inside { end ≤ length self.old }
        requires full { full.now ≡ replicate LEAF_ENTRIES entry.now }
        ensures { OnOk result (self.new ≡ splice self.old first end (replicate (end - first) entry.now)) }
    {
        let mut at = first;
        'run: while at < end {
            if at % LEAF_ENTRIES == 0 && end - at >= LEAF_ENTRIES {
                self.replace_leaf(at / LEAF_ENTRIES, full.clone()?);
                at += LEAF_ENTRIES;
            } else {
                self.set(at, entry.clone()?)?;
                at += 1;
            }
        }
        Ok(())
    }

    /// Puts a full leaf in the place of one that is full.
    fn replace_leaf(&mut self, n: usize, leaf: Leaf<T>)
        requires full { length leaf ≡ LEAF_ENTRIES }
        requires inside { LEAF_ENTRIES * n + LEAF_ENTRIES ≤ length self.old }
        ensures { self.new ≡ splice self.old (LEAF_ENTRIES * n) (LEAF_ENTRIES * n + LEAF_ENTRIES) leaf }
    {
        self.leaves[n] = leaf;
    }
}

/// Handles on these leaves, behind others.
fn share_into<T: Handle>(leaves: &[Leaf<T>], shared: &mut Vec<Leaf<T>>) -> Result<(), AllocError>
    ensures { OnOk result (shared.new.items ≡ shared.old.items ++ leaves.now) }
{
    'leaves: for leaf in leaves {
        shared.push(leaf.clone()?)?;
    }
    Ok(())
}

/// A leaf of so many equal entries.
fn equal_entries<T: Handle>(alloc: Global, entry: &T, count: usize) -> Result<Leaf<T>, AllocError>
    requires { count ≤ LEAF_ENTRIES }
    ensures { IfOk result (λ leaf. leaf ≡ replicate count entry.now) }
{
    let mut entries = ArrayVec::new();
    'entries: while entries.len() < count {
        entries.push(entry.clone()?);
    }
    Leaf::new(alloc, entries)
}

/// The first of the entries that are left, as many as a leaf has.
fn next_entries<T: Handle>(left: &mut vec::IntoIter<T>) -> ArrayVec<T, LEAF_ENTRIES>
    ensures parts { into_iter_items left.old ≡ result.items ++ into_iter_items left.new }
    ensures most { length result.items ≡ min LEAF_ENTRIES (length (into_iter_items left.old)) }
{
    let mut leaf = ArrayVec::new();
    'entries: while !leaf.is_full() {
        let Some(entry) = left.next() else { break };
        leaf.push(entry);
    }
    leaf
}
