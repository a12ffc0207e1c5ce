//! Lists in which each entry is one of two.

ghost use Rattle.std.specs.Prelude.{◌≡◌, ◌+◌, ◌*◌, ◌^◌, ◌<◌, ◌≤◌, [], length, Some, is_some, IfOk, OnOk};
ghost use Rattle.shared_leaves.specs.Leaves.{joined};
ghost use Rattle.std.specs.Option.{ForSome};
ghost use Rattle.shared_leaves.specs.Choices.{choice, chosen, choice_steps, piece_steps, pieces_steps, equal_steps, made_with, no_leaf, which, AreMade};

use crate::handle::Handle;
use crate::leaf::{LEAF_ENTRIES, Leaf};
use crate::list::SharedList;
use crate::steps::Steps;
use arrayvec::ArrayVec;
use std::alloc::{AllocError, Global};
use std::sync::ledger::Ledger;

/// The leaves of equal entries that are made.
#[derive(Drop)]
pub(crate) struct Made<T: Handle> {
    pub(crate) set: Option<Leaf<T>>,
    pub(crate) unset: Option<Leaf<T>>,
}

impl<T: Handle> SharedList<T> {
    /// The list that has one entry where a flag is set, and another where it is not. All whole leaves of
    /// equal entries are one. A step is a handle on a leaf, or an entry that is written into one.
    pub fn chosen_counted<L: Ledger>(
        alloc: Global,
        flags: &[bool],
        set: &T,
        unset: &T,
        steps: &mut Steps<L>,
    ) -> Result<SharedList<T>, AllocError>
        ensures value { IfOk result (λ list. list ≡ chosen set.now unset.now flags.now) }
        ensures cost { OnOk result (steps.new ≡ steps.old + choice_steps flags.now) }
        ensures most { steps.new ≤ steps.old + choice_steps flags.now }
    {
        let (pieces, rest) = flags.as_chunks::<LEAF_ENTRIES>();
        let mut list = whole_leaves(alloc, pieces, set, unset, steps)?;
        if rest.is_empty() {
            return Ok(list);
        }
        list.push_leaf(written_leaf(alloc, rest, set, unset, steps)?)?;
        Ok(list)
    }
}

/// The list of the whole leaves that have these flags.
fn whole_leaves<T: Handle, L: Ledger>(
    alloc: Global,
    pieces: &[[bool; LEAF_ENTRIES]],
    set: &T,
    unset: &T,
    steps: &mut Steps<L>,
) -> Result<SharedList<T>, AllocError>
    requires fits { LEAF_ENTRIES * length pieces.now < 2 ^ 64 }
    ensures value { IfOk result (λ list. list ≡ chosen set.now unset.now (joined pieces.now)) }
    ensures size { IfOk result (λ list. length list ≡ LEAF_ENTRIES * length pieces.now) }
    ensures cost { OnOk result (steps.new ≡ steps.old + pieces_steps no_leaf pieces.now) }
    ensures most { steps.new ≤ steps.old + pieces_steps no_leaf pieces.now }
{
    let mut list = SharedList {
        leaves: Vec::with_capacity(alloc, pieces.len() + 1)?,
        len: 0,
    };
    let mut made = Made {
        set: None,
        unset: None,
    };
    push_leaves(pieces, set, unset, &mut list, &mut made, steps)?;
    Ok(list)
}

/// Puts the leaves that have these flags into a list of no entries.
fn push_leaves<T: Handle, L: Ledger>(
    pieces: &[[bool; LEAF_ENTRIES]],
    set: &T,
    unset: &T,
    list: &mut SharedList<T>,
    made: &mut Made<T>,
    steps: &mut Steps<L>,
) -> Result<(), AllocError>
    requires fits { LEAF_ENTRIES * length pieces.now < 2 ^ 64 }
    requires empty { list.old ≡ [] }
    requires none { which made.old.set made.old.unset ≡ no_leaf }
    requires made { AreMade set.now unset.now made.old.set made.old.unset }
    ensures value { OnOk result (list.new ≡ chosen set.now unset.now (joined pieces.now)) }
    ensures size { OnOk result (length list.new ≡ LEAF_ENTRIES * length pieces.now) }
    ensures cost { OnOk result (steps.new ≡ steps.old + pieces_steps no_leaf pieces.now) }
    ensures most { steps.new ≤ steps.old + pieces_steps no_leaf pieces.now }
{
    let alloc = list.allocator();
    'pieces: for piece in pieces {
        list.push_leaf(leaf_of(alloc, piece, set, unset, made, steps)?)?;
    }
    Ok(())
}

/// The leaf that has these flags: a handle on one that is made where the flags are equal.
pub(crate) fn leaf_of<T: Handle, L: Ledger>(
    alloc: Global,
    piece: &[bool; LEAF_ENTRIES],
    set: &T,
    unset: &T,
    made: &mut Made<T>,
    steps: &mut Steps<L>,
) -> Result<Leaf<T>, AllocError>
    requires { AreMade set.now unset.now made.old.set made.old.unset }
    ensures value { IfOk result (λ leaf. leaf ≡ chosen set.now unset.now piece.now) }
    ensures made { OnOk result (AreMade set.now unset.now made.new.set made.new.unset) }
    ensures after { OnOk result (which made.new.set made.new.unset ≡ made_with piece.now (which made.old.set made.old.unset)) }
    ensures cost { OnOk result (steps.new ≡ steps.old + piece_steps piece.now (which made.old.set made.old.unset)) }
    ensures most { steps.new ≤ steps.old + piece_steps piece.now (which made.old.set made.old.unset) }
{
    if !piece.contains(&true) {
        return equal_leaf(alloc, piece, set, unset, &mut made.unset, steps);
    }
    if !piece.contains(&false) {
        return equal_leaf(alloc, piece, set, unset, &mut made.set, steps);
    }
    written_leaf(alloc, piece, set, unset, steps)
}

/// A handle on the leaf that has these flags, which are equal. It is made where it is not yet.
pub(crate) fn equal_leaf<T: Handle, L: Ledger>(
    alloc: Global,
    piece: &[bool],
    set: &T,
    unset: &T,
    made: &mut Option<Leaf<T>>,
    steps: &mut Steps<L>,
) -> Result<Leaf<T>, AllocError>
    requires most { length piece.now ≤ LEAF_ENTRIES }
    requires made { ForSome made.old (λ leaf. leaf ≡ chosen set.now unset.now piece.now) }
    ensures value { IfOk result (λ leaf. leaf ≡ chosen set.now unset.now piece.now) }
    ensures made { OnOk result (made.new ≡ Some (chosen set.now unset.now piece.now)) }
    ensures cost { OnOk result (steps.new ≡ steps.old + equal_steps (is_some made.old) piece.now) }
    ensures most { steps.new ≤ steps.old + equal_steps (is_some made.old) piece.now }
{
    if let Some(leaf) = made {
        steps.tick();
        return leaf.clone();
    }
    let leaf = written_leaf(alloc, piece, set, unset, steps)?;
    steps.tick();
    *made = Some(leaf.clone()?);
    Ok(leaf)
}

/// The leaf that has these flags, entry by entry.
pub(crate) fn written_leaf<T: Handle, L: Ledger>(
    alloc: Global,
    flags: &[bool],
    set: &T,
    unset: &T,
    steps: &mut Steps<L>,
) -> Result<Leaf<T>, AllocError>
    requires { length flags.now ≤ LEAF_ENTRIES }
    ensures value { IfOk result (λ leaf. leaf ≡ chosen set.now unset.now flags.now) }
    ensures cost { OnOk result (steps.new ≡ steps.old + length flags.now) }
    ensures most { steps.new ≤ steps.old + length flags.now }
{
    let mut entries = ArrayVec::new();
    'flags: for flag in flags {
        steps.tick();
        entries.push(entry_of(*flag, set, unset).clone()?);
    }
    Leaf::new(alloc, entries)
}

/// The entry of a flag.
fn entry_of<'a, T>(flag: bool, set: &'a T, unset: &'a T) -> &'a T
    ensures { result.now ≡ choice set.now unset.now flag }
{
    if flag { set } else { unset }
}
