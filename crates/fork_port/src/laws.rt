//! Laws of the definitions, each the contract of a function that does nothing.

ghost use Rattle.std.specs.Prelude.{◌≡◌, ◌≢◌, ℕ, ◌+◌, ◌*◌, ◌%◌, ◌^◌, ◌<◌, ◌≤◌, ◌==◌, ◌↔◌, true, if◌then◌else◌, List, Some, None, IsSome, IfSome, option_map, length};
ghost use Rattle.std.specs.List.{AllByRecursion};
ghost use Rattle.fork_port.specs.declared.ending.Ending.{Ending};
ghost use Rattle.fork_port.specs.declared.commands.Call.{Call};
ghost use Rattle.sibling_port.specs.declared.talk.Talk.{Talk};
ghost use Rattle.fork_port.specs.Tickets.{IsRising, as_cloned};
ghost use Rattle.fork_port.specs.Registers.{ForkRegisters, holding, join_result, ticket_found};
ghost use Rattle.fork_port.specs.Commands.{IsAnswerable, IsMakeable, fork_command};
ghost use Rattle.fork_port.specs.Fork.{fork_load, fork_store};
ghost use Rattle.fork_port.specs.Handed.{handed_bytes, handed_count, handed_of, handed_word};
ghost use Rattle.flat_memory.specs.Flat.{word_at};
ghost use Rattle.fork_port.specs.Children.{IsAccounted, after_clone, after_join, after_kill, after_ticket, child_registers, children_granted, new_ticket, with_ticket};

use crate::commands::Effect;
use crate::handed::MAX_HANDED;
use crate::refusals::TICKETS_END;
use crate::registers::{FORK_JOIN_BYTES, FORK_JOIN_LENGTH};
use sibling_port::Talk;

/// A grant is the greatest that was asked for and can be paid.
pub fn grant_is_the_greatest()
    ensures asked { (f : ForkRegisters) → children_granted f ≤ f.first_argument }
    ensures paid { (f : ForkRegisters) → children_granted f * (1 + f.second_argument) ≤ f.allot }
    ensures greatest { (f : ForkRegisters) (children : ℕ) → children ≤ f.first_argument
        → children * (1 + f.second_argument) ≤ f.allot → children ≤ children_granted f }
{}

/// What a machine holds stays, and a child holds its share.
pub fn holding_stays()
    ensures store { (f : ForkRegisters) (offset width word : ℕ) → IsRising f.tickets
        → IfSome (fork_store f offset width word) (λ s. holding s.fork ≡ holding f) }
    ensures ticket { (f : ForkRegisters) → holding (after_ticket f) ≡ holding f }
    ensures clone { (f : ForkRegisters) (number : ℕ) → holding (after_clone f number) ≡ holding f }
    ensures join { (f : ForkRegisters) (number : ℕ) (endings : List Ending) → IsRising f.tickets
        → holding (after_join f number endings) ≡ holding f }
    ensures kill { (f : ForkRegisters) (number : ℕ) → IsRising f.tickets → holding (after_kill f number) ≡ holding f }
    ensures child { (f : ForkRegisters) (k share : ℕ) → holding (child_registers f k share) ≡ share }
{}

/// What holds of every fork port stays: tickets with rising numbers below the next one, each for a
/// child at least, that cost what was taken from allot.
pub fn accounts_stay()
    ensures store { (f : ForkRegisters) (offset width word : ℕ) → IsAccounted f
        → IfSome (fork_store f offset width word) (λ s. IsAccounted s.fork) }
    ensures ticket { (f : ForkRegisters) → IsAccounted f → IsAccounted (after_ticket f) }
    ensures clone { (f : ForkRegisters) (number : ℕ) → IsAccounted f → IsAccounted (after_clone f number) }
    ensures join { (f : ForkRegisters) (number : ℕ) (endings : List Ending) → IsAccounted f
        → IsAccounted (after_join f number endings) }
    ensures kill { (f : ForkRegisters) (number : ℕ) → IsAccounted f → IsAccounted (after_kill f number) }
    ensures child { (f : ForkRegisters) (k share : ℕ) → share < 2 ^ 32 → IsAccounted (child_registers f k share) }
{}

/// Each call changes the ticket that it names, and no other.
pub fn one_ticket_changes()
    ensures granted { (f : ForkRegisters) (children other : ℕ) → IsAccounted f → ticket_found (with_ticket f children) other
        ≡ (if other == f.next_ticket then Some (new_ticket f children) else ticket_found f other) }
    ensures cloned { (f : ForkRegisters) (number other : ℕ) → ticket_found (after_clone f number) other
        ≡ (if other == number then option_map as_cloned (ticket_found f other) else ticket_found f other) }
    ensures joined { (f : ForkRegisters) (number other : ℕ) (endings : List Ending) → IsSome (ticket_found f number)
        → ticket_found (after_join f number endings) other ≡ (if other == number then None else ticket_found f other) }
    ensures killed { (f : ForkRegisters) (number other : ℕ) → IsSome (ticket_found f number)
        → ticket_found (after_kill f number) other ≡ (if other == number then None else ticket_found f other) }
{}

/// RESULT after TICKET is a ticket's number exactly where one was granted.
pub fn a_number_is_no_refusal()
    ensures { (f : ForkRegisters) → f.next_ticket < TICKETS_END → (((after_ticket f).result < TICKETS_END) ↔ (0 < children_granted f)) }
{}

/// A command asks only for what can be answered: its call names a ticket that is there, and that is
/// cloned or not, as the call needs it.
pub fn commands_can_be_answered()
    ensures { (f : ForkRegisters) (command : ℕ) → IsAnswerable f command (fork_command f command) }
{}

/// A store that is a call leaves the registers as they are, and the call can be made.
pub fn calls_wait()
    ensures { (f : ForkRegisters) (offset width word : ℕ) (call : Call)
        → IfSome (fork_store f offset width word) (λ s. s.effect ≡ Effect.Call call → (s.fork ≡ f) × IsMakeable f call) }
{}

/// A store that is EXIT with bytes leaves the registers as they are, and hands over 64 bytes at most.
pub fn handing_over_waits()
    ensures { (f : ForkRegisters) (offset width word value address count : ℕ)
        → IfSome (fork_store f offset width word) (λ s. s.effect ≡ Effect.ExitWith value address count → (s.fork ≡ f) × (count ≤ MAX_HANDED)) }
{}

/// No store to the fork port is a talk with a sibling.
pub fn no_store_is_a_talk()
    ensures { (f : ForkRegisters) (offset width word : ℕ) (talk : Talk)
        → IfSome (fork_store f offset width word) (λ s. s.effect ≢ Effect.Talk talk) }
{}

/// Bytes that are handed over are told as they are, and as words with zeros behind them.
pub fn handed_bytes_are_told()
    ensures count { (bytes : List ℕ) → handed_count (handed_of bytes) ≡ length bytes }
    ensures bytes { (bytes : List ℕ) → length bytes ≤ MAX_HANDED → handed_bytes (handed_of bytes) ≡ bytes }
    ensures words { (bytes : List ℕ) (at : ℕ) → handed_word (handed_of bytes) at ≡ word_at bytes at }
    ensures zeros_behind { (bytes : List ℕ) (at : ℕ) → length bytes ≤ at → handed_word (handed_of bytes) at ≡ 0 }
{}

/// Where the selected child of the last join ended with bytes, loads tell how many they are, and the bytes.
pub fn joins_tell_bytes()
    ensures count { (f : ForkRegisters) (value : ℕ) (bytes : List ℕ) → join_result f ≡ Some (Ending.Exit value (handed_of bytes))
        → fork_load f FORK_JOIN_LENGTH 4 ≡ Some (length bytes) }
    ensures words { (f : ForkRegisters) (value : ℕ) (bytes : List ℕ) (at : ℕ) → join_result f ≡ Some (Ending.Exit value (handed_of bytes))
        → at % 4 ≡ 0 → at < MAX_HANDED → fork_load f (FORK_JOIN_BYTES + at) 4 ≡ Some (word_at bytes at) }
{}

/// A child's registers depend on no ticket of its parent: before and after CLONE they are the same.
pub fn a_child_has_no_ticket()
    ensures { (f : ForkRegisters) (number k share : ℕ) → child_registers (after_clone f number) k share ≡ child_registers f k share }
{}
