//! The replies that a script sends.

ghost use Rattle.std.specs.Prelude.{◌≡◌, ◌≢◌, ◌++◌, ◌∷◌, [], length, Some, IfOk, IfSome, OnOk, option_map};
ghost use Rattle.std.specs.BTreeMap.{get};
ghost use Rattle.forest_tree.specs.Tree.{Path};
ghost use Rattle.machine_names.specs.NameOrder.{path_cmp};
ghost use Rattle.drive_script.specs.Driven.{Keeps, first_of, pages_in};
ghost use Rattle.drive_script.specs.Replies as kept;
ghost use Rattle.drive_script.specs.Replies.{none_sent, page_at, place_of, reply_to, siblings_of, with_reply};

use crate::answer::SentPlace;
use machine_names::Name;
use std::alloc::{AllocError, Global};
use std::collections::BTreeMap;

/// The pages of the replies that were sent, for the children of each ticket.
#[derive(Drop)]
pub(crate) struct Replies {
    /// In order, by the name of the first child.
    pub(crate) lists: BTreeMap<Name, Vec<u32>>,
}

impl Replies {
    /// No reply was sent.
    pub(crate) fn new(alloc: Global) -> Replies
        ensures { Keeps result.lists none_sent }
    {
        Replies {
            lists: BTreeMap::new(alloc),
        }
    }

    /// Sends a reply with a page to a machine and its siblings, if there is a page. The root is sent none.
    pub(crate) fn send(
        &mut self,
        alloc: Global,
        name: &Name,
        page: Option<u32>,
    ) -> Result<Option<SentPlace>, AllocError>
        ensures sends { (sent : kept.Replies) → Keeps self.old.lists sent
            → IfOk result (λ placed. (placed ≡ place_of (reply_to (siblings_of name.now) page) sent)
            × Keeps self.new.lists (with_reply (reply_to (siblings_of name.now) page) sent)) }
        ensures same { IfOk result (λ placed. IfSome placed (λ reply. page ≡ Some reply.page)) }
    {
        let Some(page) = page else {
            return Ok(None);
        };
        let Some(first) = first_sibling(alloc, name)? else {
            return Ok(None);
        };
        let place = self.append(alloc, first, page)?;
        Ok(Some(SentPlace { page, place }))
    }

    /// Puts a page behind those of a list, and tells its place.
    fn append(&mut self, alloc: Global, first: Name, page: u32) -> Result<usize, AllocError>
        ensures place { IfOk result (λ place. place ≡ length (pages_in (get path_cmp self.old.lists first))) }
        ensures here { OnOk result (pages_in (get path_cmp self.new.lists first) ≡ pages_in (get path_cmp self.old.lists first) ++ page ∷ []) }
        ensures others { OnOk result ((other : Path) → first ≢ other → get path_cmp self.new.lists other ≡ get path_cmp self.old.lists other) }
    {
        let mut list = list_or_new(alloc, self.lists.remove(&first));
        let place = list.len();
        list.push(page)?;
        self.lists.insert(first, list)?;
        Ok(place)
    }

    /// The page at a place of those that were sent to a machine and its siblings, if there is one.
    pub(crate) fn page_at(
        &self,
        alloc: Global,
        name: &Name,
        place: u32,
    ) -> Result<Option<u32>, AllocError>
        ensures { (sent : kept.Replies) → Keeps self.now.lists sent → IfOk result (λ page. page ≡ page_at (siblings_of name.now) place sent) }
    {
        let Some(first) = first_sibling(alloc, name)? else {
            return Ok(None);
        };
        match self.lists.get(&first) {
            Some(list) => Ok(list.get(place as usize).copied()),
            None => Ok(None),
        }
    }
}

/// A list, or an empty one.
fn list_or_new(alloc: Global, list: Option<Vec<u32>>) -> Vec<u32>
    ensures { result.items ≡ pages_in list }
{
    match list {
        Some(list) => list,
        None => Vec::new(alloc),
    }
}

/// The name of the first of a machine and its siblings. The root has none.
fn first_sibling(alloc: Global, name: &Name) -> Result<Option<Name>, AllocError>
    ensures { IfOk result (λ first. first ≡ option_map first_of (siblings_of name.now)) }
{
    let mut parent = name.copy()?;
    let Some((ticket, _)) = parent.pop() else {
        return Ok(None);
    };
    Ok(Some(parent.child(alloc, ticket, 1)?))
}
