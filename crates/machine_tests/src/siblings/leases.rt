//! What becomes of the machines of siblings, as one thread takes them and hands them back.

ghost use Rattle.std.specs.Prelude.{◌≡◌, ◌≢◌, ◌≤◌, is_some, length, true};
ghost use Rattle.fork_board.specs.Follows.{depot_of};
ghost use Rattle.fork_board.specs.Passes.{IsHeld};
ghost use Rattle.vm_cell.specs.Keyed.{IsOfDepot};
ghost use Rattle.vm_cell.specs.Standing.{standing_talk};
ghost use Rattle.world_core.specs.Answers.{IsLentOf};
ghost use Rattle.world_core.specs.Lent.{IsSameLease, vm_of};

use super::guests;
use crate::equal::{are_equal, succeeds};
use crate::families::{board_of, finished};
use crate::guests::with_clones;
use fork_board::{Board, Pass};
use fork_port::Call;
use image_depot::Depot;
use std::alloc::Global;
use std::process::Abort;
use std::sync::Wait;
use vm_cell::Slots;
use world_core::{Lease, Placed, Taken};

/// What came of a look for a machine that is ready: that there was none, and why, or what became of the one that was taken and
/// handed back after its next call or talk.
#[derive(Clone, Copy, Debug, PartialEq)]
enum Came {
    Over,
    Stuck,
    Idle,
    Done,
    Parked,
    Dropped,
}

/// What became of a machine that was handed back.
fn came_of(rt: &impl Abort, placed: Placed) -> Came {
    match placed {
        Placed::Done => Came::Done,
        Placed::Parked => Came::Parked,
        Placed::Dropped => Came::Dropped,
        Placed::Memory(_lease) => panic!(rt; "there is memory"),
    }
}

/// Brings a page to a machine on lease.
fn brings(rt: &impl Abort, alloc: Global, lease: &mut Lease, depot: &Depot, page: u32)
    requires { IsOfDepot depot.now lease.old.key }
    ensures { IsSameLease lease.old lease.new }
{
    let key = lease.key().expect(rt, "an image");
    assert!(rt; page < depot.pages(key));
    let parcel = succeeds(rt, depot.answer(key, page));
    succeeds(rt, lease.arrive(alloc, depot, &parcel));
}

/// Brings the page that a machine on lease wants, if it wants one.
fn brings_what_is_wanted(rt: &impl Abort, alloc: Global, lease: &mut Lease, depot: &Depot)
    requires { IsOfDepot depot.now lease.old.key }
    ensures { IsSameLease lease.old lease.new }
{
    if let Some(page) = lease.wanted() {
        brings(rt, alloc, lease, depot, page);
    }
}

/// Lets a machine that a pass holds run to its end or to its next call or talk. It wants one page at most.
fn runs(rt: &impl Abort, alloc: Global, pass: &Pass, lease: &mut Lease, depot: &Depot)
    requires held { IsHeld pass.now lease.old }
    requires of_depot { IsOfDepot depot.now lease.old.key }
    ensures held { IsHeld pass.now lease.new }
    ensures of_depot { IsOfDepot depot.now lease.new.key }
    ensures name { lease.new.name ≡ lease.old.name }
{
    let _ = pass;
    brings_what_is_wanted(rt, alloc, lease, depot);
    succeeds(rt, lease.run(&mut Slots::new(alloc), 10_000));
}

/// Whether a machine on lease stands at a talk.
fn is_at_a_talk(lease: &Lease) -> bool
    ensures { result ≡ is_some (standing_talk (vm_of lease.now)) }
{
    lease.talk().is_some()
}

/// Makes the talk at which a machine stands.
fn talks<R: Wait>(rt: &R, alloc: Global, board: &Board, pass: Pass, lease: Lease) -> (Pass, Placed)
    requires board { pass.board ≡ board.now }
    requires held { IsHeld pass lease }
    requires of_depot { IsLentOf (depot_of board.now.opening) lease }
    requires talks { is_some (standing_talk (vm_of lease)) ≡ true }
    ensures { result.0.board ≡ board.now }
{
    board.talk(rt, alloc, pass, lease)
}

/// Makes the call or the talk at which a machine stands, or gives it back.
fn hands_back<R: Wait>(
    rt: &R,
    alloc: Global,
    board: &Board,
    pass: Pass,
    lease: Lease,
    depot: &Depot,
) -> (Pass, Placed)
    requires board { pass.board ≡ board.now }
    requires depot { depot_of board.now.opening ≡ depot.now }
    requires held { IsHeld pass lease }
    requires of_depot { IsLentOf (depot_of board.now.opening) lease }
    ensures { result.0.board ≡ board.now }
{
    if is_at_a_talk(&lease) {
        return talks(rt, alloc, board, pass, lease);
    }
    if lease.ended().is_some() {
        return board.end(rt, pass, lease);
    }
    match lease.call() {
        Some(Call::Clone(_)) => board.fork(rt, alloc, pass, lease, depot),
        Some(Call::Join(_)) => board.join(rt, alloc, pass, lease),
        Some(Call::Kill(_)) => board.kill(rt, pass, lease),
        None => board.give(rt, pass, lease),
    }
}

/// Lets a machine that was taken run, and hands it back.
fn works<R: Abort + Wait>(
    rt: &R,
    alloc: Global,
    board: &Board,
    pass: Pass,
    lease: Lease,
    depot: &Depot,
) -> (Pass, Came)
    requires board { pass.board ≡ board.now }
    requires depot { depot_of board.now.opening ≡ depot.now }
    requires held { IsHeld pass lease }
    requires of_depot { IsLentOf (depot_of board.now.opening) lease }
    ensures { result.0.board ≡ board.now }
{
    let mut lease = lease;
    runs(rt, alloc, &pass, &mut lease, depot);
    let (pass, placed) = hands_back(rt, alloc, board, pass, lease, depot);
    (pass, came_of(rt, placed))
}

/// What comes of a look for a machine that is ready.
fn comes<R: Abort + Wait>(
    rt: &R,
    alloc: Global,
    board: &Board,
    pass: Pass,
    depot: &Depot,
) -> (Pass, Came)
    requires board { pass.board ≡ board.now }
    requires depot { depot_of board.now.opening ≡ depot.now }
    ensures { result.0.board ≡ board.now }
{
    let (pass, taken) = board.take(rt, alloc, pass, depot);
    match taken {
        Taken::Over => (pass, Came::Over),
        Taken::Stuck => (pass, Came::Stuck),
        Taken::Idle => (pass, Came::Idle),
        Taken::Took(lease) => works(rt, alloc, board, pass, lease, depot),
        Taken::Stopped(_) | Taken::Memory => panic!(rt; "there is memory"),
    }
}

/// These come of looks, one after another.
fn all_come<R: Abort + Wait>(
    rt: &R,
    alloc: Global,
    board: &Board,
    pass: Pass,
    depot: &Depot,
    wants: &[Came],
) -> Pass
    requires board { pass.board ≡ board.now }
    requires depot { depot_of board.now.opening ≡ depot.now }
    ensures { result.board ≡ board.now }
{
    let mut pass = pass;
    for want in wants {
        let (after, came) = comes(rt, alloc, board, pass, depot);
        are_equal(rt, &came, want);
        pass = after;
    }
    pass
}

/// What is done with the first pass of a board.
#[derive(Clone, Copy)]
enum Course<'a> {
    /// These come of looks, one after another.
    Comes(&'a [Came]),
    /// The root is taken, and meanwhile a look finds none.
    Looks,
    /// A child is to talk whose parent has killed it.
    Kills,
}

/// A pass goes its course.
fn goes<R: Abort + Wait>(
    rt: &R,
    alloc: Global,
    board: &Board,
    pass: Pass,
    depot: &Depot,
    course: Course<'_>,
) -> Pass
    requires board { pass.board ≡ board.now }
    requires depot { depot_of board.now.opening ≡ depot.now }
    ensures { result.board ≡ board.now }
{
    match course {
        Course::Comes(wants) => all_come(rt, alloc, board, pass, depot, wants),
        Course::Looks => takes_and_looks(rt, alloc, board, pass, depot),
        Course::Kills => clones_and_kills(rt, alloc, board, pass, depot),
    }
}

/// The first pass of the board of the family of the machine of these words goes its course.
fn family_goes<R: Abort + Wait>(
    rt: &R,
    alloc: Global,
    words: &[u32],
    clones: u32,
    course: Course<'_>,
)
    requires words { length words.now ≤ 64 }
    requires clones { clones ≤ 4096 }
{
    let depot = succeeds(rt, Depot::new(alloc));
    let (board, pass) = board_of(rt, alloc, words, with_clones(clones), &depot);
    let pass = goes(rt, alloc, &board, pass, &depot, course);
    let _ = finished(rt, alloc, board, pass);
}

// The root clones and is parked at its JOIN. The first child sends and is parked at its RECEIVE; the other sends, so that both
// go on and end, and so does the root.
#[test]
fn siblings_swap_in_turns(rt: HostRuntime) {
    let mut wants = [Came::Done; 13];
    wants[1] = Came::Parked;
    wants[3] = Came::Parked;
    wants[11] = Came::Over;
    wants[12] = Came::Over;
    let course = Course::Comes(&wants);
    family_goes(&rt, rt.alloc(), &guests::SIBLING_SWAP, 2, course);
}

// All three are parked, and from then on they are stuck.
#[test]
fn siblings_are_parked_at_a_receive(rt: HostRuntime) {
    let wants = [
        Came::Done,
        Came::Parked,
        Came::Parked,
        Came::Parked,
        Came::Stuck,
        Came::Stuck,
    ];
    let course = Course::Comes(&wants);
    family_goes(&rt, rt.alloc(), &guests::SIBLING_STUCK, 2, course);
}

// The one child alone has no sibling, and ends.
#[test]
fn an_only_child_is_not_parked(rt: HostRuntime) {
    let mut wants = [Came::Done; 6];
    wants[1] = Came::Parked;
    wants[5] = Came::Over;
    let course = Course::Comes(&wants);
    family_goes(&rt, rt.alloc(), &guests::SIBLING_STUCK, 1, course);
}

// Eight words go each way, and the ninth SEND waits.
#[test]
fn siblings_are_parked_at_a_send(rt: HostRuntime) {
    let mut wants = [Came::Done; 21];
    wants[1] = Came::Parked;
    wants[10] = Came::Parked;
    wants[19] = Came::Parked;
    wants[20] = Came::Stuck;
    let course = Course::Comes(&wants);
    family_goes(&rt, rt.alloc(), &guests::EIGHT_WORDS, 2, course);
}

/// Takes the root, looks for another machine meanwhile, and hands the root back.
fn takes_and_looks<R: Abort + Wait>(
    rt: &R,
    alloc: Global,
    board: &Board,
    pass: Pass,
    depot: &Depot,
) -> Pass
    requires board { pass.board ≡ board.now }
    requires depot { depot_of board.now.opening ≡ depot.now }
    ensures { result.board ≡ board.now }
{
    let (pass, taken) = board.take(rt, alloc, pass, depot);
    match taken {
        Taken::Took(lease) => looks_meanwhile(rt, alloc, board, pass, lease, depot),
        Taken::Over | Taken::Stuck | Taken::Idle | Taken::Stopped(_) | Taken::Memory => {
            panic!(rt; "the root is ready")
        }
    }
}

/// None is ready while a machine is on lease that is alone: it is idle, and not stuck. The machine is handed back then.
fn looks_meanwhile<R: Abort + Wait>(
    rt: &R,
    alloc: Global,
    board: &Board,
    pass: Pass,
    lease: Lease,
    depot: &Depot,
) -> Pass
    requires board { pass.board ≡ board.now }
    requires depot { depot_of board.now.opening ≡ depot.now }
    requires held { IsHeld pass lease }
    requires of_depot { IsLentOf (depot_of board.now.opening) lease }
    ensures { result.board ≡ board.now }
{
    let (pass, taken) = board.take(rt, alloc, pass, depot);
    match taken {
        Taken::Idle => {
            let (pass, came) = works(rt, alloc, board, pass, lease, depot);
            are_equal(rt, &came, &Came::Done);
            pass
        }
        Taken::Took(_other) => panic!(rt; "the root is alone"),
        Taken::Over | Taken::Stuck | Taken::Stopped(_) | Taken::Memory => {
            panic!(rt; "the root is on lease")
        }
    }
}

#[test]
fn none_is_ready_while_the_root_is_on_lease(rt: HostRuntime) {
    family_goes(&rt, rt.alloc(), &guests::SIBLING_STUCK, 2, Course::Looks);
}

/// Takes the root to its CLONE, and then the root again.
fn clones_and_kills<R: Abort + Wait>(
    rt: &R,
    alloc: Global,
    board: &Board,
    pass: Pass,
    depot: &Depot,
) -> Pass
    requires board { pass.board ≡ board.now }
    requires depot { depot_of board.now.opening ≡ depot.now }
    ensures { result.board ≡ board.now }
{
    let (pass, came) = comes(rt, alloc, board, pass, depot);
    are_equal(rt, &came, &Came::Done);
    let (pass, taken) = board.take(rt, alloc, pass, depot);
    match taken {
        Taken::Took(parent) => takes_a_child(rt, alloc, board, pass, parent, depot),
        Taken::Over | Taken::Stuck | Taken::Idle | Taken::Stopped(_) | Taken::Memory => {
            panic!(rt; "the root is ready")
        }
    }
}

/// Takes a child beside its parent.
fn takes_a_child<R: Abort + Wait>(
    rt: &R,
    alloc: Global,
    board: &Board,
    pass: Pass,
    parent: Lease,
    depot: &Depot,
) -> Pass
    requires board { pass.board ≡ board.now }
    requires depot { depot_of board.now.opening ≡ depot.now }
    requires held { IsHeld pass parent }
    requires of_depot { IsLentOf (depot_of board.now.opening) parent }
    ensures { result.board ≡ board.now }
{
    let (pass, taken) = board.take(rt, alloc, pass, depot);
    match taken {
        Taken::Took(child) => {
            assert!(rt; parent.name().depth() < child.name().depth());
            kills_a_child(rt, alloc, board, pass, parent, child, depot)
        }
        Taken::Over | Taken::Stuck | Taken::Idle | Taken::Stopped(_) | Taken::Memory => {
            panic!(rt; "a child is ready")
        }
    }
}

/// Makes the KILL at which a machine stands, while the pass holds another one, too.
fn kills<R: Abort + Wait>(
    rt: &R,
    board: &Board,
    pass: Pass,
    parent: Lease,
    child: &Lease,
) -> (Pass, Placed)
    requires board { pass.board ≡ board.now }
    requires parent_held { IsHeld pass parent }
    requires parent_lent { IsLentOf (depot_of board.now.opening) parent }
    requires child_held { IsHeld pass child.now }
    requires apart { parent.name ≢ child.now.name }
    ensures board { result.0.board ≡ board.now }
    ensures held { IsHeld result.0 child.now }
{
    let _ = child;
    match parent.call() {
        Some(Call::Kill(_)) => board.kill(rt, pass, parent),
        _ => panic!(rt; "the root kills its children"),
    }
}

/// A child runs to its talk, its parent kills it, and the child's machine is dropped as it is to talk.
fn kills_a_child<R: Abort + Wait>(
    rt: &R,
    alloc: Global,
    board: &Board,
    pass: Pass,
    parent: Lease,
    child: Lease,
    depot: &Depot,
) -> Pass
    requires board { pass.board ≡ board.now }
    requires depot { depot_of board.now.opening ≡ depot.now }
    requires parent_held { IsHeld pass parent }
    requires parent_lent { IsLentOf (depot_of board.now.opening) parent }
    requires child_held { IsHeld pass child }
    requires child_lent { IsLentOf (depot_of board.now.opening) child }
    requires apart { parent.name ≢ child.name }
    ensures { result.board ≡ board.now }
{
    let mut parent = parent;
    let mut child = child;
    runs(rt, alloc, &pass, &mut parent, depot);
    runs(rt, alloc, &pass, &mut child, depot);
    let (pass, killed) = kills(rt, board, pass, parent, &child);
    assert!(rt; is_at_a_talk(&child));
    let (pass, dropped) = talks(rt, alloc, board, pass, child);
    let found = [came_of(rt, killed), came_of(rt, dropped)];
    are_equal(rt, &found, &[Came::Done, Came::Dropped]);
    pass
}

#[test]
fn a_talk_of_one_that_was_killed_is_dropped(rt: HostRuntime) {
    family_goes(&rt, rt.alloc(), &guests::SECOND_BROOD, 2, Course::Kills);
}
