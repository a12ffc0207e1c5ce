//! Laws of the definitions, each the contract of a function that does nothing.

ghost use Rattle.std.specs.Prelude.{◌≡◌, ℕ, ◌+◌, ◌*◌, ◌≤◌, ◌^◌, ◌<◌, ◌==◌, ◌&&◌, ◌||◌, ◌↔◌, not, true, false, List, IfSome};
ghost use Rattle.forest_tree.specs.Operations.{is_among};
ghost use Rattle.fork_port.specs.Tickets.{ticket_of, IsRising};
ghost use Rattle.fork_port.specs.Registers.{ForkRegisters, HasTicket, holding, ticket_found, refused};
ghost use Rattle.fork_port.specs.Children.{IsAccounted, after_clone, after_join, after_kill, child_registers};
ghost use Rattle.fork_port.specs.Fork.{fork_store};
ghost use Rattle.port_rules.specs.Rules.{cloned_numbers, is_cloned, grant_of, may_clone, is_accounted, IsPortStep};

use fork_port::{Ending, Ticket};

/// The test of what holds of every fork port decides it.
pub fn accounts_are_tested()
    ensures { (f : ForkRegisters) → (is_accounted f ≡ true) ↔ IsAccounted f }
{}

/// A number is among those of the cloned tickets exactly where the ticket of that number is cloned.
pub fn cloned_tickets_are_listed()
    ensures { (tickets : List Ticket) → IsRising tickets → (number : ℕ)
        → is_among number (cloned_numbers tickets) ≡ is_cloned (ticket_of tickets number) }
{}

/// What a step does to the tickets, by what it is.
pub fn steps_keep_the_rules()
    ensures store { (f : ForkRegisters) (offset width word : ℕ) → is_accounted f ≡ true
        → IfSome (fork_store f offset width word) (λ s. IsPortStep f s.fork (λ t. is_cloned (ticket_found f t))) }
    ensures refused { (f : ForkRegisters) (word : ℕ) → is_accounted f ≡ true → IsPortStep f (refused f word) (λ t. is_cloned (ticket_found f t)) }
    ensures none { (f : ForkRegisters) → is_accounted f ≡ true → IsPortStep f f (λ t. is_cloned (ticket_found f t)) }
    ensures clone { (f : ForkRegisters) (number : ℕ) → is_accounted f ≡ true → HasTicket f number false
        → IsPortStep f (after_clone f number) (λ t. (number == t) || is_cloned (ticket_found f t)) }
    ensures join { (f : ForkRegisters) (number : ℕ) (endings : List Ending) → is_accounted f ≡ true → HasTicket f number true
        → IsPortStep f (after_join f number endings) (λ t. not (number == t) && is_cloned (ticket_found f t)) }
    ensures kill { (f : ForkRegisters) (number : ℕ) → is_accounted f ≡ true → HasTicket f number true
        → IsPortStep f (after_kill f number) (λ t. not (number == t) && is_cloned (ticket_found f t)) }
{}

/// A ticket is cloned once, and a clone affords its children.
pub fn calls_stand_on_tickets()
    ensures once { (f : ForkRegisters) (number : ℕ) → is_accounted f ≡ true → is_cloned (ticket_found f number) ≡ true → may_clone f number ≡ false }
    ensures may { (f : ForkRegisters) (number : ℕ) → HasTicket f number false → may_clone f number ≡ true }
    ensures cloned { (f : ForkRegisters) (number : ℕ) → HasTicket f number true → is_cloned (ticket_found f number) ≡ true }
    ensures affords { (f : ForkRegisters) (number : ℕ) → is_accounted f ≡ true → HasTicket f number false
        → (grant_of (ticket_found f number)).children * (1 + (grant_of (ticket_found f number)).share) ≤ holding f }
    ensures fits { (f : ForkRegisters) (number : ℕ) → is_accounted f ≡ true → HasTicket f number false
        → 1 ≤ (grant_of (ticket_found f number)).children → (grant_of (ticket_found f number)).share < 2 ^ 32 }
{}

/// A child holds its share, and has no ticket.
pub fn children_start_so()
    ensures good { (f : ForkRegisters) (k share : ℕ) → share < 2 ^ 32 → is_accounted (child_registers f k share) ≡ true }
    ensures holds { (f : ForkRegisters) (k share : ℕ) → holding (child_registers f k share) ≡ share }
    ensures tickets { (f : ForkRegisters) (k share t : ℕ) → is_cloned (ticket_found (child_registers f k share) t) ≡ false }
{}
