//! What the children of a ticket say to each other.

ghost use Rattle.std.specs.Prelude.{◌≡◌, ◌≢◌, ◌≤◌, ◌==◌, ℕ, false, Some, IfSome, IsSomeAnd, MatchBool, MatchOption, OnErr, OnOk};
ghost use Rattle.std.specs.BTreeMap.{get};
ghost use Rattle.std.specs.Ordering.{nat_cmp};
ghost use Rattle.sibling_words.specs.Notes.{noted};
ghost use Rattle.world_core.specs.Shows.{slot_at};
ghost use Rattle.world_core.specs.Talking.{HasSlot, HaveSameSlots, IsNotAwake, IsSameBut, IsSameCell, IsSendOf};
ghost use Rattle.world_core.specs.Talking.{IsAwakeSlot, IsUnheard, MaySay, Says, SaysSo, SetsSlot, answer_by, change_by, lives_in, peer_of, slot_in, waits_in};

use crate::cell::{Brood, Cell, Change, ChildSlot};
use machine_names::Name;
use sibling_port::Talk;
use sibling_port::answers::{DONE, SIBLING_ENDED};
use std::alloc::{AllocError, Global};
use std::mem;

/// What became of a talk.
#[derive(Clone, Copy)]
pub(crate) enum Said {
    /// It waits.
    Waits,
    /// The word was sent, or dropped where the sibling has ended.
    Sent,
    /// This word was received.
    Received(u32),
    /// There was no word to receive, and the sibling has ended.
    Ended,
}

impl Cell {
    /// Makes the talk of a child of a ticket, as far as it is of the words. Memory is wanted only where a word is put in, and
    /// nothing is changed then.
    pub(crate) fn say(
        &mut self,
        alloc: Global,
        ticket: u32,
        index: u32,
        talk: Talk,
        word: u32,
    ) -> Result<Said, AllocError>
        requires { IsSomeAnd (get nat_cmp self.old.broods ticket) (MaySay index talk) }
        ensures ok { OnOk result ((b : Brood) → get nat_cmp self.old.broods ticket ≡ Some b
            → IsSomeAnd (get nat_cmp self.new.broods ticket) (λ c. Says b index talk word result c × HaveSameSlots b c)) }
        ensures err { OnErr result ((b : Brood) → get nat_cmp self.old.broods ticket ≡ Some b
            → IsSomeAnd (get nat_cmp self.new.broods ticket) (λ c. IsUnheard b c × HaveSameSlots b c) × IsSendOf talk × (waits_in b index talk ≡ false)) }
        ensures others { (u : ℕ) → u ≢ ticket → get nat_cmp self.new.broods u ≡ get nat_cmp self.old.broods u }
        ensures rest { IsSameBut self.old self.new }
    {
        let Some(brood) = self.broods.get_mut(&ticket) else {
            unreachable!();
        };
        brood.say(alloc, index, talk, word)
    }

    /// Whether a child of a ticket is awake.
    pub(crate) fn is_awake(&self, ticket: u32, index: u32) -> bool
        ensures { MatchBool result ((1 ≤ index) × IsAwakeSlot (slot_in index (get nat_cmp self.now.broods ticket)))
            (1 ≤ index → IsNotAwake (get nat_cmp self.now.broods ticket) index) }
    {
        let Some(brood) = self.broods.get(&ticket) else {
            return false;
        };
        if index == 0 {
            return false;
        }
        match brood.slots.get(index as usize - 1) {
            Some(ChildSlot::Awake(_)) => true,
            _ => false,
        }
    }

    /// Whether a child of a ticket last came to wait for this sibling.
    pub(crate) fn is_noted(&self, ticket: u32, index: u32, peer: u32) -> bool
        ensures { IfSome (get nat_cmp self.now.broods ticket) (λ b. result ≡ (noted b.notes index == peer)) }
    {
        match self.broods.get(&ticket) {
            Some(brood) => brood.notes.noted(index) == peer,
            None => false,
        }
    }

    /// Whether a child of a ticket waits that is to make this talk.
    pub(crate) fn talk_waits(&self, ticket: u32, index: u32, talk: Talk) -> bool
        ensures { IfSome (get nat_cmp self.now.broods ticket) (λ b. 1 ≤ peer_of talk → result ≡ waits_in b index talk) }
    {
        match self.broods.get(&ticket) {
            Some(brood) => brood.waits(index, talk),
            None => false,
        }
    }

    /// Takes the name of a child that is awake out of its slot.
    pub(crate) fn take_name(&mut self, ticket: u32, index: u32) -> Option<Name>
        requires { 1 ≤ index }
        ensures { MatchOption result (IsSameCell self.old self.new × IsNotAwake (get nat_cmp self.old.broods ticket) index)
            (λ name. HasSlot (Some (ChildSlot.Awake name)) ticket index self.old × SetsSlot ChildSlot.Asleep ticket index self.old self.new) }
    {
        let brood = self.broods.get_mut(&ticket)?;
        let at = index as usize - 1;
        if at >= brood.slots.len() {
            return None;
        }
        if !matches!(&brood.slots[at], ChildSlot::Awake(_)) {
            return None;
        }
        let ChildSlot::Awake(name) = mem::replace(&mut brood.slots[at], ChildSlot::Asleep) else {
            unreachable!();
        };
        Some(name)
    }

    /// Puts the name of a child that is awake back into its slot.
    pub(crate) fn put_name(&mut self, ticket: u32, index: u32, name: Name)
        requires first { 1 ≤ index }
        requires asleep { HasSlot (Some ChildSlot.Asleep) ticket index self.old }
        ensures { SetsSlot (ChildSlot.Awake name) ticket index self.old self.new }
    {
        let Some(brood) = self.broods.get_mut(&ticket) else {
            unreachable!();
        };
        brood.slots[index as usize - 1] = ChildSlot::Awake(name);
    }
}

impl Brood {
    /// Whether a child lives.
    pub(crate) fn lives(&self, index: u32) -> bool
        ensures { 1 ≤ index → result ≡ lives_in (slot_at index self.now.slots.items) }
    {
        if index == 0 {
            return false;
        }
        match self.slots.get(index as usize - 1) {
            Some(ChildSlot::Asleep) => true,
            Some(ChildSlot::Awake(_)) => true,
            _ => false,
        }
    }

    /// Whether a child waits that is to make this talk.
    pub(crate) fn waits(&self, index: u32, talk: Talk) -> bool
        ensures { 1 ≤ peer_of talk → result ≡ waits_in self.now index talk }
    {
        match talk {
            Talk::Send(to) => self.lives(to) && self.words.is_full(to, index),
            Talk::Receive(from) => self.lives(from) && self.words.is_empty(index, from),
        }
    }

    /// Makes the talk of a child, as far as it is of the words: a word is put behind the others, or the first is taken. A
    /// child that waits is noted. Memory is wanted only where a word is put in, and nothing is changed then.
    pub(crate) fn say(
        &mut self,
        alloc: Global,
        index: u32,
        talk: Talk,
        word: u32,
    ) -> Result<Said, AllocError>
        requires { MaySay index talk self.old }
        ensures says { OnOk result (Says self.old index talk word result self.new) }
        ensures err { OnErr result (IsUnheard self.old self.new × IsSendOf talk × (waits_in self.old index talk ≡ false)) }
        ensures rest { HaveSameSlots self.old self.new }
    {
        match talk {
            Talk::Send(to) => self.send(alloc, index, to, word),
            Talk::Receive(from) => Ok(self.receive(index, from)),
        }
    }

    /// The same of a SEND. Where it waits, the words are as before.
    fn send(&mut self, alloc: Global, index: u32, to: u32, word: u32) -> Result<Said, AllocError>
        requires { MaySay index (Talk.Send to) self.old }
        ensures says { OnOk result (Says self.old index (Talk.Send to) word result self.new) }
        ensures err { OnErr result (IsUnheard self.old self.new × (waits_in self.old index (Talk.Send to) ≡ false)) }
        ensures rest { HaveSameSlots self.old self.new }
    {
        if !self.lives(to) {
            return Ok(Said::Sent);
        }
        if self.words.is_full(to, index) {
            self.notes.note(index, to);
            return Ok(Said::Waits);
        }
        self.words.push(alloc, to, index, word)?;
        Ok(Said::Sent)
    }

    /// The same of a RECEIVE, which takes no memory. A word that waits is received from one that has ended too.
    fn receive(&mut self, index: u32, from: u32) -> Said
        requires { MaySay index (Talk.Receive from) self.old }
        ensures says { (word : ℕ) → SaysSo self.old index (Talk.Receive from) word result self.new }
        ensures rest { HaveSameSlots self.old self.new }
    {
        if let Some(word) = self.words.pop(index, from) {
            return Said::Received(word);
        }
        if !self.lives(from) {
            return Said::Ended;
        }
        self.notes.note(index, from);
        Said::Waits
    }
}

impl Said {
    /// What it changes for the sibling that was named: a word has come, or there is room for one. `index` tells who talked.
    pub(crate) fn change(self, index: u32) -> Option<Change>
        ensures { result ≡ change_by self index }
    {
        match self {
            Said::Sent => Some(Change::Word(index)),
            Said::Received(_) => Some(Change::Room(index)),
            _ => None,
        }
    }

    /// What the machine hears of its talk: the word that it received, if it did, and the answer. `None` where it waits.
    pub(crate) fn answer(self) -> Option<(Option<u32>, u32)>
        ensures { result ≡ answer_by self }
    {
        match self {
            Said::Waits => None,
            Said::Sent => Some((None, DONE)),
            Said::Received(word) => Some((Some(word), DONE)),
            Said::Ended => Some((None, SIBLING_ENDED)),
        }
    }
}

/// The sibling that a talk names.
pub(crate) fn talk_peer(talk: Talk) -> u32
    ensures { result ≡ peer_of talk }
{
    match talk {
        Talk::Send(to) => to,
        Talk::Receive(from) => from,
    }
}
