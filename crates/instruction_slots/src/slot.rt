//! What is kept of an instruction, and by which number it is found.

ghost use Rattle.std.specs.Prelude.{◌≡◌, ◌<◌, ◌↔◌, IfSome, IsTrue, MatchBool, MatchOption, None, Some, length};
ghost use Rattle.std.specs.List.{HoldsAt};
ghost use Rattle.rv_decode.specs.Table.{decoded};
ghost use Rattle.instruction_slots.specs.Slots.{Forgets, IsLearnt, Learns, kept_by, place_of, slot_of};

use crate::fields::Fields;
use rv_decode::decode;
use std::marker::Model;

/// The place of a slot that keeps nothing. No instruction has it: each address is a multiple of 4.
pub const NOWHERE: u64 = 1;

/// A word that encodes an instruction: the one that does nothing.
const NOP: u32 = 0x13;

/// A place, the word that was there, and the instruction that it encodes. A place is an address at an epoch: one number,
/// so that one comparison tells both.
#[derive(Clone, Copy)]
pub struct Slot {
    place: u64,
    word: u32,
    instr: Fields,
}

impl Model for Slot {
    ghost use Rattle.std.specs.Prelude.{◌≡◌, Some};
    ghost use Rattle.rv_decode.specs.Table.{decoded};
    ghost use Rattle.instruction_slots.specs.Slots.{KeptInstruction};

    ghost Value = { KeptInstruction };

    ghost view = { λ s. record { place = s.place; word = s.word; instr = s.instr } };

    ghost invariant = { λ s. decoded s.word ≡ Some s.instr };

    ghost inverse = { λ v. record { place = v.place; word = v.word; instr = v.instr } };
}

/// An address at an epoch.
#[inline(always)]
fn place_of(address: u32, epoch: u32) -> u64
    ensures { result ≡ place_of address epoch }
{
    u64::from(epoch) * 0x1_0000_0000 + u64::from(address)
}

impl Slot {
    /// A slot that keeps nothing.
    pub fn empty() -> Slot
        ensures { result.place ≡ NOWHERE }
    {
        let Some(instr) = decode(NOP) else {
            unreachable!()
        };
        Slot::nowhere(NOP, Fields::of(instr))
    }

    /// A slot that keeps nothing, and has a word with what it encodes.
    #[inline(always)]
    fn nowhere(word: u32, instr: Fields) -> Slot
        requires { decoded word ≡ Some instr }
        ensures { result ≡ record { place = NOWHERE; word = word; instr = instr } }
    {
        Slot {
            place: NOWHERE,
            word,
            instr,
        }
    }

    /// Whether the slot keeps what was at an address at an epoch.
    #[inline(always)]
    pub fn is_at(&self, address: u32, epoch: u32) -> bool
        ensures place { IsTrue result ↔ (self.now.place ≡ place_of address epoch) }
        ensures says { decoded self.now.word ≡ Some self.now.instr }
    {
        self.place == place_of(address, epoch)
    }

    /// The instruction that is kept.
    #[inline(always)]
    pub fn instr(&self) -> &Fields
        ensures { result.now ≡ self.now.instr }
    {
        &self.instr
    }

    /// Keeps the instruction that a word encodes, at an address and an epoch. Where it encodes none the slot stays.
    #[inline(always)]
    pub fn keep(&mut self, address: u32, epoch: u32, word: u32)
        ensures { self.new ≡ kept_by (decoded word) (place_of address epoch) word self.old }
    {
        let Some(instr) = self.decode(word) else {
            return;
        };
        *self = Slot {
            place: place_of(address, epoch),
            word,
            instr,
        };
    }

    /// The instruction that a word encodes, or `None` where it encodes none. It is known where the slot has the word.
    #[inline(always)]
    fn decode(&self, word: u32) -> Option<Fields>
        ensures { result ≡ decoded word }
    {
        if self.word == word {
            return Some(self.instr);
        }
        decode_anew(word)
    }

    /// Has a word from then on, at no place where it had another, and answers that it encodes an instruction. Where it
    /// encodes none the slot stays.
    #[inline(always)]
    fn learn(&mut self, word: u32) -> bool
        ensures learnt { IsLearnt self.old self.new }
        ensures says { MatchBool result (decoded word ≡ Some self.new.instr) (decoded word ≡ None) }
    {
        if self.word != word {
            return self.learn_anew(word);
        }
        true
    }

    /// The same of another word.
    #[cold]
    #[inline(never)]
    fn learn_anew(&mut self, word: u32) -> bool
        ensures learnt { IsLearnt self.old self.new }
        ensures says { MatchBool result (decoded word ≡ Some self.new.instr) (decoded word ≡ None) }
    {
        let Some(instr) = decode_anew(word) else {
            return false;
        };
        *self = Slot::nowhere(word, instr);
        true
    }

    /// Keeps nothing more.
    #[inline(always)]
    fn clear(&mut self)
        ensures { self.new ≡ record self.old { place = NOWHERE } }
    {
        self.place = NOWHERE;
    }
}

/// The instruction that a word encodes, or `None` where it encodes none.
#[inline(always)]
fn decode_anew(word: u32) -> Option<Fields>
    ensures { result ≡ decoded word }
{
    match decode(word) {
        Some(instr) => Some(Fields::of(instr)),
        None => None,
    }
}

/// The number of the slot of an address, which has a word there and what it encodes from then on, or `None` where it encodes
/// none. It is not decoded where the slot has it, wherever that was.
#[inline(always)]
pub fn slot_with(slots: &mut [Slot], address: u32, word: u32) -> Option<usize>
    requires { 0 < length slots.old }
    ensures learns { Learns slots.old slots.new }
    ensures inside { IfSome result (λ number. number < length slots.new) }
    ensures says { MatchOption result (decoded word ≡ None) (HoldsAt (λ slot. decoded word ≡ Some slot.instr) slots.new) }
{
    let number = slot_of(address, slots.len());
    if slots[number].learn(word) {
        Some(number)
    } else {
        None
    }
}

/// Forgets what is kept of the word that has the byte at an address.
#[inline(always)]
pub fn forget(slots: &mut [Slot], address: u32)
    requires { 0 < length slots.old }
    ensures { Forgets (slot_of address (length slots.old)) slots.old slots.new }
{
    let number = slot_of(address, slots.len());
    slots[number].clear();
}

/// The number of the slot, of so many, of the word that has the byte at an address. It is masked before it is divided,
/// since the place of a slot is its number times a power of 2.
#[inline(always)]
#[tactic(auto, using(crate::proofs::Slots::masked, crate::proofs::Slots::masked_inside))]
pub fn slot_of(address: u32, count: usize) -> usize
    requires { 0 < count }
    ensures value { result ≡ slot_of address count }
    ensures inside { result < count }
{
    (address as usize & (count - 1).wrapping_mul(4)) / 4
}
