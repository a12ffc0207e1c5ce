//! The words that wait.

ghost use Rattle.std.specs.Prelude.{◌≡◌, ◌≢◌, ◌<◌, ◌&&◌, ◌==◌, ℕ, [], ◌∷◌, ◌++◌, if◌then◌else◌, true, length, nat_le};
ghost use Rattle.std.specs.Prelude.{IfOk, MatchOption, OnOk, OnErr};
ghost use Rattle.std.specs.BTreeMap.{get};
ghost use Rattle.std.specs.Ordering.{nat_cmp};
ghost use Rattle.sibling_words.specs.Words.{HaveSame, is_empty, words_at, words_from, words_in, words_of};

use arrayvec::ArrayVec;
use std::alloc::{AllocError, Global};
use std::collections::BTreeMap;

/// The most words that wait from one child to another.
pub const MAX_WORDS: usize = 8;

/// The words from one child to another, the oldest first.
type Queue = ArrayVec<u32, MAX_WORDS>;

/// The words that wait for one child. Mostly they are of one sibling, so there is a map only from when another sends a word, too,
/// until all are taken.
#[derive(Drop)]
enum Inbox {
    /// Those of one sibling. Where the queue is empty, it is for the next that sends a word.
    One(u32, Queue),
    /// By the sibling that sent them. Each queue has a word.
    Many(BTreeMap<u32, Queue>),
}

/// The words that wait between the children of a ticket. There are inboxes as far as the last child that a word was ever for,
/// and where no child ever sent one, all is a pointer to nothing.
#[derive(Drop)]
pub struct SiblingWords {
    /// By the child that the words are for.
    inboxes: Option<Box<Vec<Inbox>>>,
}

impl SiblingWords {
    /// No words.
    pub fn new() -> SiblingWords
        ensures { (to from : ℕ) → words_of result to from ≡ [] }
    {
        SiblingWords { inboxes: None }
    }

    /// Whether so many words wait for a child from another as may.
    pub fn is_full(&self, to: u32, from: u32) -> bool
        ensures { result ≡ nat_le MAX_WORDS (length (words_of self.now to from)) }
    {
        let Some(inboxes) = &self.inboxes else {
            return false;
        };
        match inboxes.get(to as usize) {
            Some(inbox) => inbox.count(from) >= MAX_WORDS,
            None => false,
        }
    }

    /// Whether no word waits for a child from another.
    pub fn is_empty(&self, to: u32, from: u32) -> bool
        ensures { result ≡ is_empty (words_of self.now to from) }
    {
        let Some(inboxes) = &self.inboxes else {
            return true;
        };
        match inboxes.get(to as usize) {
            Some(inbox) => inbox.count(from) == 0,
            None => true,
        }
    }

    /// Puts a word behind those that wait for a child from another. Where memory is wanting, the words stay as they are.
    pub fn push(&mut self, alloc: Global, to: u32, from: u32, word: u32) -> Result<(), AllocError>
        requires { length (words_of self.old to from) < MAX_WORDS }
        ensures ok { OnOk result ((t f : ℕ) → words_of self.new t f
            ≡ (if (t == to) && (f == from) then words_of self.old to from ++ word ∷ [] else words_of self.old t f)) }
        ensures err { OnErr result (HaveSame self.old self.new) }
    {
        if let Some(inboxes) = &mut self.inboxes {
            return put_in(inboxes, alloc, to, from, word);
        }
        let mut inboxes = Box::new(alloc, Vec::new(alloc))?;
        put_in(&mut inboxes, alloc, to, from, word)?;
        self.inboxes = Some(inboxes);
        Ok(())
    }

    /// Takes the oldest word that waits for a child from another, if one does. It takes no memory.
    pub fn pop(&mut self, to: u32, from: u32) -> Option<u32>
        ensures first { MatchOption result (words_of self.old to from ≡ []) (λ word. words_of self.old to from ≡ word ∷ words_of self.new to from) }
        ensures none { MatchOption result (HaveSame self.old self.new) (λ word. Unit {0}) }
        ensures others { (t f : ℕ) → ((t == to) && (f == from)) ≢ true → words_of self.new t f ≡ words_of self.old t f }
    {
        let inboxes = self.inboxes.as_mut()?;
        let inbox = inboxes.get_mut(to as usize)?;
        inbox.take_first(from)
    }

    /// Drops the words that wait for a child. It takes no memory.
    pub fn clear(&mut self, to: u32)
        ensures { (t f : ℕ) → words_of self.new t f ≡ (if t == to then [] else words_of self.old t f) }
    {
        if let Some(inboxes) = &mut self.inboxes {
            if let Some(inbox) = inboxes.get_mut(to as usize) {
                *inbox = Inbox::new();
            }
        }
    }
}

impl Inbox {
    /// No words.
    fn new() -> Inbox
        ensures { (from : ℕ) → words_from from result ≡ [] }
    {
        Inbox::One(0, ArrayVec::new())
    }

    /// How many words wait from a sibling.
    fn count(&self, from: u32) -> usize
        ensures { result ≡ length (words_from from self.now) }
    {
        match self {
            Inbox::One(sibling, queue) if *sibling == from => queue.len(),
            Inbox::One(..) => 0,
            Inbox::Many(queues) => match queues.get(&from) {
                Some(queue) => queue.len(),
                None => 0,
            },
        }
    }

    /// Puts a word behind those from a sibling. Where memory is wanting, the words stay as they are.
    fn put(&mut self, alloc: Global, from: u32, word: u32) -> Result<(), AllocError>
        requires { length (words_from from self.old) < MAX_WORDS }
        ensures ok { OnOk result ((f : ℕ) → words_from f self.new
            ≡ (if f == from then words_from from self.old ++ word ∷ [] else words_from f self.old)) }
        ensures err { OnErr result ((f : ℕ) → words_from f self.new ≡ words_from f self.old) }
    {
        let queues = match self {
            Inbox::One(sibling, queue) => {
                if *sibling == from || queue.is_empty() {
                    *sibling = from;
                    queue.push(word);
                    return Ok(());
                }
                queues_of_two(alloc, *sibling, queue, from, word)?
            }
            Inbox::Many(queues) => return put_from(queues, from, word),
        };
        *self = Inbox::Many(queues);
        Ok(())
    }

    /// Takes the oldest word from a sibling, if one is there. The map goes with its last word.
    fn take_first(&mut self, from: u32) -> Option<u32>
        ensures first { MatchOption result (words_from from self.old ≡ []) (λ word. words_from from self.old ≡ word ∷ words_from from self.new) }
        ensures none { MatchOption result ((f : ℕ) → words_from f self.new ≡ words_from f self.old) (λ word. Unit {0}) }
        ensures others { (f : ℕ) → f ≢ from → words_from f self.new ≡ words_from f self.old }
    {
        let queues = match self {
            Inbox::One(sibling, queue) => {
                if *sibling != from {
                    return None;
                }
                return take_oldest(queue);
            }
            Inbox::Many(queues) => queues,
        };
        let word = take_from(queues, from)?;
        if queues.is_empty() {
            *self = Inbox::new();
        }
        Some(word)
    }
}

/// Puts a word behind those for a child from another. Where memory is wanting, all stay as they are.
fn put_in(
    inboxes: &mut Vec<Inbox>,
    alloc: Global,
    to: u32,
    from: u32,
    word: u32,
) -> Result<(), AllocError>
    requires { length (words_at inboxes.old.items to from) < MAX_WORDS }
    ensures ok { OnOk result ((t f : ℕ) → words_at inboxes.new.items t f
        ≡ (if (t == to) && (f == from) then words_at inboxes.old.items to from ++ word ∷ [] else words_at inboxes.old.items t f)) }
    ensures err { OnErr result ((t f : ℕ) → words_at inboxes.new.items t f ≡ words_at inboxes.old.items t f) }
{
    grow_to(inboxes, to as usize)?;
    let inbox = &mut inboxes[to as usize];
    inbox.put(alloc, from, word)
}

/// Puts empty inboxes behind the others until a child has one. Where memory is wanting, the words stay as they are.
fn grow_to(inboxes: &mut Vec<Inbox>, to: usize) -> Result<(), AllocError>
    ensures there { OnOk result (to < length inboxes.new.items) }
    ensures same { (t f : ℕ) → words_at inboxes.new.items t f ≡ words_at inboxes.old.items t f }
{
    while inboxes.len() <= to {
        inboxes.push(Inbox::new())?;
    }
    Ok(())
}

/// The queues of two siblings: the words of one, and a first word of another.
fn queues_of_two(
    alloc: Global,
    sibling: u32,
    queue: &Queue,
    from: u32,
    word: u32,
) -> Result<BTreeMap<u32, Queue>, AllocError>
    requires { from ≢ sibling }
    ensures { IfOk result (λ queues. (f : ℕ) → words_in (get nat_cmp queues f)
        ≡ (if f == from then word ∷ [] else (if f == sibling then queue.now.items else []))) }
{
    let mut queues = BTreeMap::new(alloc);
    queues.insert(sibling, queue.clone()?)?;
    put_from(&mut queues, from, word)?;
    Ok(queues)
}

/// Puts a word behind those from a sibling. Where memory is wanting, they stay as they are.
fn put_from(queues: &mut BTreeMap<u32, Queue>, from: u32, word: u32) -> Result<(), AllocError>
    requires { length (words_in (get nat_cmp queues.old from)) < MAX_WORDS }
    ensures ok { OnOk result ((f : ℕ) → words_in (get nat_cmp queues.new f)
        ≡ (if f == from then words_in (get nat_cmp queues.old from) ++ word ∷ [] else words_in (get nat_cmp queues.old f))) }
    ensures err { OnErr result ((f : ℕ) → get nat_cmp queues.new f ≡ get nat_cmp queues.old f) }
{
    if let Some(waiting) = queues.get_mut(&from) {
        waiting.push(word);
        return Ok(());
    }
    let mut queue = ArrayVec::new();
    queue.push(word);
    queues.insert(from, queue)?;
    Ok(())
}

/// Takes the oldest word from a sibling, if one is there. A queue goes with its last word.
fn take_from(queues: &mut BTreeMap<u32, Queue>, from: u32) -> Option<u32>
    ensures first { MatchOption result (words_in (get nat_cmp queues.old from) ≡ [])
        (λ word. words_in (get nat_cmp queues.old from) ≡ word ∷ words_in (get nat_cmp queues.new from)) }
    ensures none { MatchOption result ((f : ℕ) → words_in (get nat_cmp queues.new f) ≡ words_in (get nat_cmp queues.old f)) (λ word. Unit {0}) }
    ensures others { (f : ℕ) → f ≢ from → words_in (get nat_cmp queues.new f) ≡ words_in (get nat_cmp queues.old f) }
{
    let queue = queues.get_mut(&from)?;
    let word = take_oldest(queue)?;
    if queue.is_empty() {
        queues.remove(&from);
    }
    Some(word)
}

/// Takes the oldest word of a queue, if it has one.
fn take_oldest(queue: &mut Queue) -> Option<u32>
    ensures first { MatchOption result (queue.old.items ≡ []) (λ word. queue.old.items ≡ word ∷ queue.new.items) }
    ensures none { MatchOption result (queue.new.items ≡ queue.old.items) (λ word. Unit {0}) }
{
    // Mostly one word waits, and no other has to move.
    if queue.len() <= 1 {
        return queue.pop();
    }
    Some(queue.remove(0))
}
