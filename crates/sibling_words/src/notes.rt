//! Who waits for whom.

ghost use Rattle.std.specs.Prelude.{◌≡◌, ◌≢◌, ◌<◌, ◌≤◌, ◌==◌, ℕ, if◌then◌else◌, IfOk, MatchOption, slice_index_or, vec_capacity};
ghost use Rattle.sibling_words.specs.Notes.{noted, peers_in, room_of};

use std::alloc::{AllocError, Global};

/// For each child of a ticket the sibling that it last came to wait for. Children count from 1. Where there is one child,
/// they take no room of their own.
#[derive(Drop)]
pub struct SiblingNotes {
    peers: Peers,
}

/// The siblings by the number of the child that waited for them; 0 for one that never did.
#[derive(Drop)]
enum Peers {
    /// Of 0 and of 1.
    Two([u32; 2]),
    /// As far as one waited.
    Many(Box<Vec<u32>>),
}

impl SiblingNotes {
    /// Nobody waited yet, and there is room for so many children. The room is not touched before one does.
    pub fn with_room(alloc: Global, children: u32) -> Result<SiblingNotes, AllocError>
        ensures none { IfOk result (λ notes. (who : ℕ) → noted notes who ≡ 0) }
        ensures room { IfOk result (λ notes. children < room_of notes) }
    {
        if children <= 1 {
            return Ok(SiblingNotes {
                peers: Peers::Two([0; 2]),
            });
        }
        let peers = Vec::with_capacity(alloc, children as usize + 1)?;
        Ok(SiblingNotes {
            peers: Peers::Many(Box::new(alloc, peers)?),
        })
    }

    /// Notes that a child comes to wait for a sibling. It takes no memory.
    pub fn note(&mut self, who: u32, peer: u32)
        requires { who < room_of self.old }
        ensures noted { (k : ℕ) → noted self.new k ≡ (if k == who then peer else noted self.old k) }
        ensures room { room_of self.old ≤ room_of self.new }
    {
        match &mut self.peers {
            Peers::Two(peers) => peers[who as usize] = peer,
            Peers::Many(peers) => note_at(peers, who as usize, peer),
        }
    }

    /// The sibling that a child last came to wait for, or 0 where it never did.
    pub fn noted(&self, who: u32) -> u32
        ensures { result ≡ noted self.now who }
    {
        match self.as_slice().get(who as usize) {
            Some(peer) => *peer,
            None => 0,
        }
    }

    /// The siblings, by the number of the child.
    fn as_slice(&self) -> &[u32]
        ensures { result.now ≡ peers_in self.now.peers }
    {
        match &self.peers {
            Peers::Two(peers) => peers,
            Peers::Many(peers) => peers,
        }
    }

    /// The first child, of those from one to another, that last came to wait for a sibling. Where none of the ticket ever
    /// waited, this is known at once.
    pub fn next_of(&self, peer: u32, first: u32, last: u32) -> Option<u32>
        requires peer { peer ≢ 0 }
        requires last { last < u32.MAX }
        ensures { MatchOption result ((k : ℕ) → first ≤ k → k ≤ last → noted self.now k ≢ peer)
            (λ who. (first ≤ who) × (who ≤ last) × (noted self.now who ≡ peer) × ((k : ℕ) → first ≤ k → k < who → noted self.now k ≢ peer)) }
    {
        let peers = self.as_slice();
        let mut who = first;
        while who <= last && (who as usize) < peers.len() {
            if peers[who as usize] == peer {
                return Some(who);
            }
            who += 1;
        }
        None
    }
}

/// Puts a number at a place of those that there is room for, behind noughts where they end before it.
fn note_at(peers: &mut Vec<u32>, at: usize, peer: u32)
    requires { at < vec_capacity peers.old }
    ensures noted { (k : ℕ) → slice_index_or peers.new.items k 0 ≡ (if k == at then peer else slice_index_or peers.old.items k 0) }
    ensures room { vec_capacity peers.old ≤ vec_capacity peers.new }
{
    while peers.len() <= at {
        peers.push_reserved(0);
    }
    peers[at] = peer;
}
