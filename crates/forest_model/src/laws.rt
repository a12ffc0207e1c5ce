//! Laws of the definitions, each the contract of a function that does nothing.

ghost use Rattle.std.specs.Prelude.{◌≡◌, ◌≢◌, ◌==◌, if◌then◌else◌, ℕ, Bool, true, false, ◌+◌, ◌-◌, ◌/◌, ◌^◌, ◌<◌, ◌≤◌, List, [], ◌∷◌, length, slice_get, slice_index, slice_index_or, Option, Some, None, IsSome, All, AllPairs, Contains};
ghost use Rattle.elf_load.specs.Image.{Image};
ghost use Rattle.guest_pmp.specs.declared.access.Access.TheVariants as right;
ghost use Rattle.guest_pmp.specs.declared.access.Mode.TheVariants.{User};
ghost use Rattle.rv_traps.specs.Counters.{with_counters_of};
ghost use Rattle.rv_traps.specs.Protection.{allows};
ghost use Rattle.rv_traps.specs.Trap.{takes_interrupt};
ghost use Rattle.fork_port.specs.Registers.{ticket_found, refused};
ghost use Rattle.fork_port.specs.Children as fork;
ghost use Rattle.fork_port.specs.Handed.{handed_of};
ghost use Rattle.sibling_port.specs.Registers as sibling;
ghost use Rattle.sibling_port.specs.Commands.{HasSibling, named};
ghost use Rattle.sibling_forest.specs.Talk.{Box, IsTalking, boxed};
ghost use Rattle.sibling_forest.specs.Laws.{IsSilent, TalksAlike, box_of};
ghost use Rattle.sibling_forest.specs.Finish as forest;
ghost use Rattle.sibling_forest.specs.Joins.{finish_by_joins};
ghost use Rattle.sibling_forest.specs.Members.{IsWholeForest};
ghost use Rattle.forest_tree.specs.Operations.{clone, join, kill, IsMachine};
ghost use Rattle.forest_tree.specs.Tree.{Tree, machine};
ghost use Rattle.forest_tree.specs.Projection.{map_tree, Projects};
ghost use Rattle.forest_tree.specs.Step.{alone};
ghost use Rattle.forest_tree.specs.Sound.{IsSound};
ghost use Rattle.forest_model.specs.State.{State, at_next_instruction, is_timer_due};
ghost use Rattle.forest_model.specs.Access.{page_of};
ghost use Rattle.forest_model.specs.Footprint.{no_change};
ghost use Rattle.forest_model.specs.Action.{exit, retire};
ghost use Rattle.forest_model.specs.Memory as memory;
ghost use Rattle.forest_model.specs.Memory.{bytes_at, is_byte_range, is_page_range, outcome, with_fork, zeroed};
ghost use Rattle.forest_model.specs.Execute.{action};
ghost use Rattle.forest_model.specs.Machine.{Machine, IsWithinLimit, exception, plain, talk, timer_interrupt, next, limited, count, trapped, advance, after_steps, boot};
ghost use Rattle.forest_model.specs.Calls.{as_in_parent, child, children_of, fork_of, forked, after_join, after_kill, share_of};
ghost use Rattle.forest_model.specs.Talks.{spoken, talked};
ghost use Rattle.forest_model.specs.Forest.{IsChildless, booted, call_of, finish, machines, port_of, talk_of, talks};
ghost use Rattle.forest_model.specs.Touch.{IsZeroed, change, touch};
ghost use Rattle.forest_model.specs.Paged.{IsPageOf, Paged, Pages, absent_count, advanced_by, paged_machines, paged_talks, pages_arrived, stalled_at};

use crate::{Ending, Options, Written};
use elf_load::RAM_BASE;
use fork_port::refusals::BAD_ARGUMENT;
use fork_port::{Effect, MAX_HANDED};
use page_frames::PAGE_SIZE;
use rv_traps::TIMER_INTERRUPT;
use sibling_port::Talk;

/// A step of a live machine is counted, unless it is a call or a talk, and none moves the limit. A machine that has
/// ended stays, and so does one whose next step is a call or a talk.
pub fn advance_counts()
    ensures counted { (m : Machine) → m.ending ≡ None → call_of (next m) ≡ None → talk_of (next m) ≡ None
        → (advance m).steps ≡ m.steps + 1 }
    ensures limit_stays { (m : Machine) → (advance m).limit ≡ m.limit }
    ensures within { (m : Machine) → IsWithinLimit m → IsWithinLimit (advance m) }
    ensures ended { (m : Machine) → IsSome m.ending → advance m ≡ m }
    ensures waits { (m : Machine) → IsSome (call_of (next m)) → advance m ≡ m }
    ensures talks { (m : Machine) → IsSome (talk_of (next m)) → advance m ≡ m }
{}

/// EXIT ends a live machine with its value and the bytes that it hands over, also in the last step that the limit leaves. A step that is
/// neither EXIT nor a call nor a talk ends it exactly where it is the last.
pub fn machines_end()
    ensures exit { (m : Machine) (value : ℕ) (bytes : List ℕ) (s : State) → m.ending ≡ None → action m.state ≡ exit value bytes s
        → (advance m).ending ≡ Some (Ending.Exit value (handed_of bytes)) }
    ensures limit { (m : Machine) → m.ending ≡ None → call_of (next m) ≡ None → talk_of (next m) ≡ None
        → ((value : ℕ) (bytes : List ℕ) (s : State) → action m.state ≢ exit value bytes s)
        → (advance m).ending ≡ (if m.steps + 1 == m.limit then Some Ending.Limit else None) }
{}

/// A step of a live machine that is an exception is counted and goes to the handler, and changes
/// nothing but what a trap changes.
pub fn exception_traps()
    ensures { (m : Machine) (cause value : ℕ) → m.ending ≡ None → next m ≡ exception cause value
        → advance m ≡ limited (count false Written.Nothing (trapped cause value m.state)) m }
{}

/// Where the timer is due and its interrupt enabled, the interrupt is the coming step of a machine,
/// whatever instruction stands at the pc. It touches no page, and is a trap with the timer's cause.
pub fn interrupt_comes_first()
    ensures comes { (m : Machine) → takes_interrupt m.state.csrs (is_timer_due m.state) ≡ true → next m ≡ timer_interrupt }
    ensures touches_nothing { (m : Machine) → takes_interrupt m.state.csrs (is_timer_due m.state) ≡ true → touch m ≡ [] }
    ensures traps { (m : Machine) → m.ending ≡ None → takes_interrupt m.state.csrs (is_timer_due m.state) ≡ true
        → advance m ≡ limited (count false Written.Nothing (trapped TIMER_INTERRUPT 0 m.state)) m }
{}

/// ZERO makes a range of whole pages of RAM read as zeros, and changes no other byte. RESULT tells where the
/// range is none.
pub fn zero_clears_pages()
    ensures cleared { (s : State) (first count at : ℕ) → is_page_range first count s.ram ≡ true
        → first ≤ at / PAGE_SIZE → at / PAGE_SIZE < first + count → slice_index (zeroed true first count s).ram at ≡ 0 }
    ensures others { (s : State) (first count at : ℕ) → is_page_range first count s.ram ≡ true
        → ¬ ((first ≤ at / PAGE_SIZE) × (at / PAGE_SIZE < first + count)) → slice_index (zeroed true first count s).ram at ≡ slice_index s.ram at }
    ensures size { (s : State) (first count : ℕ) → is_page_range first count s.ram ≡ true → length (zeroed true first count s).ram ≡ length s.ram }
    ensures tells { (s : State) (first count : ℕ) (in_range : Bool)
        → fork_of (zeroed in_range first count s) ≡ refused (fork_of s) (if in_range then 0 else BAD_ARGUMENT) }
{}

/// EXIT with bytes hands over so many bytes of RAM from its address on, as they stand in that step, where they are bytes of
/// RAM, and needs the page of each of them. Else RESULT tells so, and nothing else changes.
pub fn bytes_are_handed_over()
    ensures handed { (s : State) (value address count : ℕ) → is_byte_range address count s.ram ≡ true
        → (outcome (Effect.ExitWith value address count) s).action ≡ exit value (bytes_at address count s) s }
    ensures size { (s : State) (address count : ℕ) → is_byte_range address count s.ram ≡ true → length (bytes_at address count s) ≡ count }
    ensures bytes { (s : State) (address count k : ℕ) → is_byte_range address count s.ram ≡ true → k < count
        → slice_index (bytes_at address count s) k ≡ slice_index s.ram (address + k - RAM_BASE) }
    ensures pages { (s : State) (value address count k : ℕ) → is_byte_range address count s.ram ≡ true → count ≤ MAX_HANDED → k < count
        → Contains (outcome (Effect.ExitWith value address count) s).footprint.needs (page_of (address + k)) }
    ensures refused { (s : State) (value address count : ℕ) → is_byte_range address count s.ram ≡ false
        → outcome (Effect.ExitWith value address count) s ≡ memory.alone (retire Written.Nothing (with_fork (refused (fork_of s) BAD_ARGUMENT) s)) }
{}

/// A call does to the fork port of its machine what it says. After JOIN the children's endings are told in
/// order.
pub fn calls_change_the_port()
    ensures clone { (m : Machine) (t : ℕ) → call_of (next m) ≡ Some (clone t) → port_of (forked m) ≡ fork.after_clone (port_of m) t }
    ensures join { (m : Machine) (t : ℕ) (endings : List Ending) → call_of (next m) ≡ Some (join t)
        → port_of (after_join m endings) ≡ fork.after_join (port_of m) t endings }
    ensures values { (m : Machine) (t : ℕ) (endings : List Ending) → call_of (next m) ≡ Some (join t)
        → (port_of (after_join m endings)).joined ≡ endings }
    ensures kill { (m : Machine) (t : ℕ) → call_of (next m) ≡ Some (kill t) → port_of (after_kill m) ≡ fork.after_kill (port_of m) t }
{}

/// A child is its parent after the clone, but for its fork port, its sibling port and its output: it has no output
/// yet, the registers that child k of a ticket with this share starts with, and a sibling port that is new, with
/// the number of the ticket's children.
pub fn children_are_their_parent()
    ensures as_parent { (m : Machine) (k : ℕ) → as_in_parent (child m k) (forked m) ≡ forked m }
    ensures no_output { (m : Machine) (t k : ℕ) → call_of (next m) ≡ Some (clone t) → (child m k).state.ports.console.output ≡ [] }
    ensures own_port { (m : Machine) (t k : ℕ) → call_of (next m) ≡ Some (clone t)
        → port_of (child m k) ≡ fork.child_registers (port_of (forked m)) k (share_of (ticket_found (port_of m) t)) }
    ensures own_siblings { (m : Machine) (t k : ℕ) → call_of (next m) ≡ Some (clone t)
        → (child m k).state.ports.sibling ≡ sibling.at_start (children_of (ticket_found (port_of m) t)) }
{}

/// A talk is with the sibling that PEER names. It is a step to the next instruction, which is counted, and else it changes
/// DATA and RESULT alone.
pub fn talks_change_two_registers()
    ensures named { (m : Machine) (what : Talk) → next m ≡ talk what
        → HasSibling (port_of m).clone_id m.state.ports.sibling × (named what ≡ m.state.ports.sibling.peer) }
    ensures talked { (m : Machine) (what : Talk) (word : Option ℕ) (answer : ℕ) → next m ≡ talk what
        → talked m word answer ≡ spoken (at_next_instruction m.state) (sibling.talked word answer m.state.ports.sibling) m }
{}

/// The numbers of tickets are given in turn: a step of a machine gives one at most, and a call none.
pub fn tickets_rise()
    ensures step { (m : Machine) → (port_of (advance m)).next_ticket ≤ (port_of m).next_ticket + 1 }
    ensures clone { (m : Machine) → (port_of (forked m)).next_ticket ≡ (port_of m).next_ticket }
    ensures join { (m : Machine) (endings : List Ending) → (port_of (after_join m endings)).next_ticket ≡ (port_of m).next_ticket }
    ensures kill { (m : Machine) → (port_of (after_kill m)).next_ticket ≡ (port_of m).next_ticket }
{}

/// The machines keep the rules of a forest, and those of one whose machines talk: the laws of its trees hold of
/// them. A machine that is booted is a sound tree alone, with the queues that it is to have. (Every allot that the type
/// has is below 2 ^ 32.)
pub fn machines_keep_the_rules()
    ensures rules { IsMachine machines }
    ensures talks { IsTalking machines talks }
    ensures booted { (image : Image) (disk input : List ℕ) (options : Options) → 0 < options.limit → options.allot < 2 ^ 32
        → IsWholeForest machines talks (booted image disk input options) }
{}

/// A family whose machines never come to a talk is run until its root has ended, and comes to the end to which the joins of
/// its root bring it.
pub fn silent_families_end()
    ensures ended { (t : Tree (Box Machine)) → IsSound (boxed machines talks) t → IsSilent machines talks t → IsSome (machine (finish t)).machine.ending }
    ensures by_joins { (t : Tree (Box Machine)) → IsSound (boxed machines talks) t → IsSilent machines talks t
        → finish t ≡ finish_by_joins (boxed machines talks) t }
{}

/// A machine that may have no clones and has no ticket and no siblings never makes a call or a talk, and neither does it
/// after any steps. So it is run to its end by its own steps alone.
pub fn childless_machines_run_alone()
    ensures no_call { (m : Machine) → IsChildless m → call_of (next m) ≡ None }
    ensures no_talk { (m : Machine) → IsChildless m → talk_of (next m) ≡ None }
    ensures stays { (n : ℕ) (m : Machine) → IsChildless m → IsChildless (after_steps n m) }
    ensures ends { (n : ℕ) (m : Machine) → IsChildless m → IsWithinLimit m → m.limit ≤ m.steps + n → IsSome (after_steps n m).ending }
    ensures finish { (n : ℕ) (m : Machine) → IsChildless m → IsWithinLimit m → IsSome (after_steps n m).ending
        → finish (alone (boxed machines talks) (record { machine = m; inbox = [] }))
        ≡ alone (boxed machines talks) (record { machine = after_steps n m; inbox = [] }) }
    ensures boots { (image : Image) (disk input : List ℕ) (options : Options) → options.allot ≡ 0 → IsChildless (boot image disk input options) }
{}

/// Two runs of one machine are equal. A run is one run however it is cut into pieces, and two that have
/// ended came to the same machine, whatever number of steps was asked of each.
pub fn runs_agree()
    ensures in_pieces { (a b : ℕ) (m : Machine) → after_steps (a + b) m ≡ after_steps b (after_steps a m) }
    ensures ended { (a b : ℕ) (m : Machine) → IsSome (after_steps a m).ending → IsSome (after_steps b m).ending
        → after_steps a m ≡ after_steps b m }
{}

/// The pages that a step touches are pages of RAM or of the disk, at most three, and none is listed twice. A machine
/// that has ended touches none.
pub fn touched_pages()
    ensures each { (m : Machine) → All (IsPageOf m.state) (touch m) }
    ensures at_most_three { (m : Machine) → length (touch m) ≤ 3 }
    ensures none_twice { (m : Machine) → AllPairs (λ one other. one ≢ other) (touch m) }
    ensures ended { (m : Machine) → IsSome m.ending → touch m ≡ [] }
{}

/// A machine that is to talk needs the page of its code, and no other. Its talk changes no page.
pub fn talks_touch_their_code()
    ensures needs { (m : Machine) (what : Talk) → m.ending ≡ None → next m ≡ talk what → touch m ≡ page_of m.state.pc ∷ [] }
    ensures changes { (m : Machine) (what : Talk) → next m ≡ talk what → change m ≡ no_change }
{}

/// A step changes RAM only in the pages that it touches, and in those that it zeroes.
pub fn writes_touched_pages()
    ensures { (m : Machine) (at : ℕ) → ¬ Contains (touch m) (at / PAGE_SIZE) → ¬ IsZeroed m (at / PAGE_SIZE)
        → slice_index (advance m).state.ram at ≡ slice_index m.state.ram at }
{}

/// A step changes no byte of RAM that memory protection denies to a store, in the mode by which the step accesses data,
/// but by ZERO.
pub fn denied_bytes_stay()
    ensures { (m : Machine) (at : ℕ) → allows m.state.csrs right.Store (RAM_BASE + at) ≡ false → ¬ IsZeroed m (at / PAGE_SIZE)
        → slice_index (advance m).state.ram at ≡ slice_index m.state.ram at }
{}

/// A step in user mode that is no trap leaves the control and status registers but for their counters: the mode, where
/// traps go and the entries of memory protection among them. So do the parts that calls have in it, which leave RAM too.
pub fn user_mode_keeps_registers()
    ensures step { (m : Machine) → m.state.csrs.mode ≡ User → next m ≡ plain → with_counters_of m.state.csrs (advance m).state.csrs ≡ m.state.csrs }
    ensures clone { (m : Machine) → m.state.csrs.mode ≡ User
        → (with_counters_of m.state.csrs (forked m).state.csrs ≡ m.state.csrs) × ((forked m).state.ram ≡ m.state.ram) }
    ensures join { (m : Machine) (endings : List Ending) → m.state.csrs.mode ≡ User
        → (with_counters_of m.state.csrs (after_join m endings).state.csrs ≡ m.state.csrs) × ((after_join m endings).state.ram ≡ m.state.ram) }
    ensures kill { (m : Machine) → m.state.csrs.mode ≡ User
        → (with_counters_of m.state.csrs (after_kill m).state.csrs ≡ m.state.csrs) × ((after_kill m).state.ram ≡ m.state.ram) }
    ensures talk { (m : Machine) (word : Option ℕ) (answer : ℕ) → m.state.csrs.mode ≡ User
        → (with_counters_of m.state.csrs (talked m word answer).state.csrs ≡ m.state.csrs) × ((talked m word answer).state.ram ≡ m.state.ram) }
{}

/// What is known of a machine's pages changes nothing that the machine does: seen without it, machines of which
/// some pages may be absent are machines, and so are their steps and their forests. They keep the rules.
pub fn absent_pages_add_nothing()
    ensures projects { Projects paged_machines machines (λ (p : Paged). p.machine) }
    ensures rules { IsMachine paged_machines }
    ensures alike { TalksAlike paged_talks talks (λ (p : Paged). p.machine) }
    ensures talking { IsTalking paged_machines paged_talks }
    ensures steps { (n : ℕ) (p : Paged) → (advanced_by n p).machine ≡ after_steps n p.machine }
    ensures finish { (t : Tree (Box Paged)) → finish (map_tree (box_of (λ (p : Paged). p.machine)) t)
        ≡ map_tree (box_of (λ (p : Paged). p.machine)) (forest.finish paged_machines paged_talks t) }
{}

/// The page at which a machine stops is one that its next step touches and that is not here. A machine that has
/// ended stops at none.
pub fn stalls_are_of_touched_pages()
    ensures touched { (p : Paged) (page : ℕ) → stalled_at p ≡ Some page → Contains (touch p.machine) page }
    ensures absent { (p : Paged) (page : ℕ) → stalled_at p ≡ Some page → slice_index_or p.pages.here page false ≡ false }
    ensures ended { (p : Paged) → IsSome p.machine.ending → stalled_at p ≡ None }
{}

/// A page that comes leaves one absent page fewer, and no step makes a page absent. So a machine stalls at most as often
/// as it has absent pages, if each page that it waits for comes.
pub fn absent_pages_run_out()
    ensures arrival { (pages : Pages) (page : ℕ) → slice_get pages.here page ≡ Some false
        → absent_count (pages_arrived page pages).here + 1 ≡ absent_count pages.here }
    ensures steps { (n : ℕ) (p : Paged) → absent_count (advanced_by n p).pages.here ≤ absent_count p.pages.here }
{}
