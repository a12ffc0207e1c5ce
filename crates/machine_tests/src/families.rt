//! Families that workers run on a board, from its start to its end.

ghost use Rattle.std.specs.Prelude.{◌≡◌, ◌<◌, ◌≤◌, [], IfOk, length, None};
ghost use Rattle.forest_model.specs.Forest.{port_of};
ghost use Rattle.fork_board.specs.Follows.{depot_of};
ghost use Rattle.fork_board.specs.Passes.{HoldsNone, IsHeld};
ghost use Rattle.world_core.specs.Answers.{IsLentOf};

use crate::equal::succeeds;
use crate::guests::{TWO_CHILDREN, booted, with_clones};
use forest_model::Options;
use fork_board::{Board, Pass};
use host_workers::{Finish, Gate, MAX_WORKERS, OpenGate, Settings, Site, run_hosts};
use image_depot::{Depot, Sent};
use page_claims::Claims;
use run_report::Outcome;
use std::alloc::{AllocError, Global};
use std::marker::{Send, Sync};
use std::process::Abort;
use std::snapshot::Snapshot;
use std::sync::Wait;
use std::thread::Threads;
use vm_cell::Vm;
use wire_fates::{Seeded, Wire};
use world_core::{Lease, Placed, Reason, Taken, World};

/// How many pages a worker asks for beside a wanted one.
pub(crate) const AHEAD: u32 = 4;

/// How the work on a family ended, and the family, once it had come to its end.
#[derive(Drop)]
pub struct Ended {
    pub finish: Finish,
    pub outcome: Option<Outcome>,
}

/// The board of the family of the machine of these words, and the one pass to it.
pub(crate) fn board_of(
    rt: &impl Abort,
    alloc: Global,
    words: &[u32],
    options: Options,
    depot: &Depot,
) -> (Board, Pass)
    requires words { length words.now ≤ 64 }
    requires least { 1 ≤ options.limit }
    requires most { options.limit ≤ 1_000_000 }
    requires clones { options.allot ≤ 4096 }
    ensures depot { depot_of result.0.opening ≡ depot.now }
    ensures pass { result.1 ≡ record { board = result.0; number = []; splits = 0; seen = []; mine = []; ended = [] } }
    ensures none { HoldsNone result.1 }
{
    let vm = booted(rt, alloc, words, options);
    succeeds(rt, board_of_machine(alloc, vm, depot))
}

/// The same of a machine.
fn board_of_machine(alloc: Global, vm: Vm, depot: &Depot) -> Result<(Board, Pass), AllocError>
    requires no_ticket { (port_of vm.machine).tickets ≡ [] }
    requires no_siblings { vm.machine.state.ports.sibling.siblings ≡ 0 }
    requires no_image { vm.key ≡ None }
    ensures depot { IfOk result (λ made. depot_of made.0.opening ≡ depot.now) }
    ensures pass { IfOk result (λ made. made.1 ≡ record { board = made.0; number = []; splits = 0; seen = []; mine = []; ended = [] }) }
    ensures none { IfOk result (λ made. HoldsNone made.1) }
{
    let first = Snapshot::of(&vm);
    let world = World::new(alloc, vm, depot)?;
    Board::new(alloc, world, first, depot)
}

/// This gate, slices of so many steps, and so many pages more with a wanted one.
pub(crate) fn gated<G>(gate: G, slice: u32, ahead: u32) -> Settings<G>
    requires { ahead ≤ 16 }
{
    Settings { gate, slice, ahead }
}

/// The same with a gate that holds nobody.
pub(crate) fn ungated(slice: u32, ahead: u32) -> Settings<OpenGate>
    requires { ahead ≤ 16 }
{
    gated(OpenGate, slice, ahead)
}

/// Lets a worker for each wire run the family of a board, of which nobody holds a machine.
fn run_family<R: AllocGlobal + Threads + Wait + Abort + Sync, W: Wire + Send, G: Gate + Sync>(
    rt: &R,
    board: &Board,
    pass: Pass,
    depot: &Depot,
    wires: &mut [W],
    settings: &Settings<G>,
) -> (Pass, Finish)
    requires board { pass.board ≡ board.now }
    requires depot { depot_of board.now.opening ≡ depot.now }
    requires none { HoldsNone pass }
    requires wires { (1 ≤ length wires.old) × (length wires.old ≤ MAX_WORKERS) }
    requires parts { length pass.number < 3 }
    requires splits { pass.splits ≡ 0 }
    ensures { result.0.board ≡ board.now }
{
    let (claims, claiming) = succeeds(rt, Claims::new(rt.alloc(), 256, 64, 8));
    let site = Site {
        board,
        depot,
        claims: &claims,
    };
    let (pass, _, finish) = run_hosts(rt, &site, pass, claiming, wires, settings);
    (pass, finish)
}

/// Ends a board. The outcome of its family, once it has come to its end or is stuck.
pub(crate) fn finished<R: Abort + Wait>(
    rt: &R,
    alloc: Global,
    board: Board,
    pass: Pass,
) -> Option<Outcome>
    requires { pass.board ≡ board }
{
    succeeds(rt, board.close(rt, pass).into_outcome(alloc))
}

/// Lets a worker for each wire run the family of the machine of these words, in a depot of its own.
pub fn end_over<R: AllocGlobal + Threads + Wait + Abort + Sync, W: Wire + Send, G: Gate + Sync>(
    rt: &R,
    words: &[u32],
    options: Options,
    wires: &mut [W],
    settings: &Settings<G>,
) -> Ended
    requires words { length words.now ≤ 64 }
    requires least { 1 ≤ options.limit }
    requires most { options.limit ≤ 1_000_000 }
    requires clones { options.allot ≤ 4096 }
    requires wires { (1 ≤ length wires.old) × (length wires.old ≤ MAX_WORKERS) }
{
    let depot = succeeds(rt, Depot::new(rt.alloc()));
    let (board, pass) = board_of(rt, rt.alloc(), words, options, &depot);
    let (pass, finish) = run_family(rt, &board, pass, &depot, wires, settings);
    Ended {
        finish,
        outcome: finished(rt, rt.alloc(), board, pass),
    }
}

/// So many wires, each of a seed of its own.
pub(crate) fn seeded(alloc: Global, count: u32) -> Result<Vec<Seeded>, AllocError>
    ensures { IfOk result (λ wires. length wires.items ≡ count) }
{
    let mut wires = Vec::new(alloc);
    for number in 0..count {
        let mut wire = Seeded::new();
        wire.seed(number);
        wires.push(wire)?;
    }
    Ok(wires)
}

/// Lets so many workers run the family of the machine of these words.
pub fn end_by<R: AllocGlobal + Threads + Wait + Abort + Sync>(
    rt: &R,
    words: &[u32],
    options: Options,
    workers: u32,
    slice: u32,
) -> Ended
    requires words { length words.now ≤ 64 }
    requires least { 1 ≤ options.limit }
    requires most { options.limit ≤ 1_000_000 }
    requires clones { options.allot ≤ 4096 }
    requires workers { (1 ≤ workers) × (workers ≤ MAX_WORKERS) }
{
    let mut wires = succeeds(rt, seeded(rt.alloc(), workers));
    end_over(rt, words, options, &mut wires, &ungated(slice, AHEAD))
}

/// Whether two children come to no end, whose board is stopped first.
pub fn is_stopped<R: AllocGlobal + Threads + Wait + Abort + Sync>(rt: &R) -> bool {
    let depot = succeeds(rt, Depot::new(rt.alloc()));
    let (board, pass) = board_of(rt, rt.alloc(), &TWO_CHILDREN, with_clones(2), &depot);
    let pass = board.stop(rt, pass, Reason::Wire);
    let mut wires = [Seeded::new(), Seeded::new()];
    let (pass, finish) = run_family(rt, &board, pass, &depot, &mut wires, &ungated(1, AHEAD));
    let lives = finished(rt, rt.alloc(), board, pass).is_none();
    lives && matches!(finish, Finish::Stopped(Reason::Wire))
}

/// The same of a board that nobody comes to, of which passes are split and joined.
pub fn is_left<R: Abort + Wait>(rt: &R, alloc: Global) -> bool {
    let depot = succeeds(rt, Depot::new(alloc));
    let (board, pass) = board_of(rt, alloc, &TWO_CHILDREN, with_clones(2), &depot);
    let pass = split_and_joined(&board, pass);
    finished(rt, alloc, board, pass).is_none()
}

/// Splits a pass, and each of the two again, and joins them all.
fn split_and_joined(board: &Board, pass: Pass) -> Pass
    requires board { pass.board ≡ board.now }
    requires none { HoldsNone pass }
    requires new { (pass.number ≡ []) × (pass.splits ≡ 0) }
    ensures { result.board ≡ board.now }
{
    let (pass, second) = board.split(pass);
    let (pass, third) = board.split(pass);
    let (second, fourth) = board.split(second);
    board.join_pass(
        board.join_pass(pass, third),
        board.join_pass(second, fourth),
    )
}

/// Whether a machine is given back by a pass that was split, and joined again, since the machine was taken.
pub fn is_given_after_a_join<R: Abort + Wait>(rt: &R, alloc: Global) -> bool {
    let depot = succeeds(rt, Depot::new(alloc));
    let (board, pass) = board_of(rt, alloc, &TWO_CHILDREN, with_clones(2), &depot);
    let (pass, is_given) = takes_and_joins(rt, alloc, &board, pass, &depot);
    is_given && finished(rt, alloc, board, pass).is_none()
}

/// Takes a machine, and gives it back after a join.
fn takes_and_joins<R: Wait>(
    rt: &R,
    alloc: Global,
    board: &Board,
    pass: Pass,
    depot: &Depot,
) -> (Pass, bool)
    requires board { pass.board ≡ board.now }
    requires depot { depot_of board.now.opening ≡ depot.now }
    requires new { (pass.number ≡ []) × (pass.splits ≡ 0) }
    ensures { result.0.board ≡ board.now }
{
    let (pass, taken) = board.take(rt, alloc, pass, depot);
    match taken {
        Taken::Took(lease) => joins_and_gives(rt, board, pass, lease),
        Taken::Over | Taken::Stopped(_) | Taken::Stuck | Taken::Idle | Taken::Memory => {
            (pass, false)
        }
    }
}

/// Splits a pass, joins the two again, and only then gives back the machine that the pass holds.
fn joins_and_gives<R: Wait>(rt: &R, board: &Board, pass: Pass, lease: Lease) -> (Pass, bool)
    requires board { pass.board ≡ board.now }
    requires held { IsHeld pass lease }
    requires of_depot { IsLentOf (depot_of board.now.opening) lease }
    requires new { (pass.number ≡ []) × (pass.splits ≡ 0) }
    ensures { result.0.board ≡ board.now }
{
    let (pass, other) = board.split(pass);
    let pass = board.join_pass(pass, other);
    match board.give(rt, pass, lease) {
        (pass, Placed::Done) => (pass, true),
        (pass, Placed::Parked | Placed::Dropped) => (pass, false),
        (_, Placed::Memory(_lease)) => unreachable!(),
    }
}

/// The numbers of the image and of the page of a reply that was heard.
fn numbers_of(heard: Option<Sent>) -> Option<(u32, u32)> {
    match heard {
        Some(sent) => Some((sent.image(), sent.page())),
        None => None,
    }
}

/// The numbers of the image and of the page of the reply at a place, where a board has been told one.
fn numbers_at<R: Abort + Wait>(
    rt: &R,
    board: &Board,
    pass: Pass,
    place: usize,
) -> (Pass, Option<(u32, u32)>)
    requires { pass.board ≡ board.now }
    ensures { result.0.board ≡ board.now }
{
    let (pass, heard) = board.hear(rt, pass, place);
    (pass, numbers_of(succeeds(rt, heard)))
}

/// The same of the first two replies, after a worker has run the family of a board.
fn heard_after<R: AllocGlobal + Threads + Wait + Abort + Sync>(
    rt: &R,
    board: &Board,
    pass: Pass,
    depot: &Depot,
) -> [Option<(u32, u32)>; 2]
    requires board { pass.board ≡ board.now }
    requires depot { depot_of board.now.opening ≡ depot.now }
    requires none { HoldsNone pass }
    requires parts { length pass.number < 3 }
    requires splits { pass.splits ≡ 0 }
{
    let mut wires = [Seeded::new()];
    let (pass, _) = run_family(rt, board, pass, depot, &mut wires, &ungated(1000, 0));
    let (pass, told) = numbers_at(rt, board, pass, 0);
    let (_, beyond) = numbers_at(rt, board, pass, 1);
    [told, beyond]
}

/// The same of the first reply before a worker runs the family of one child, and of the first two after.
pub fn heard_of<R: AllocGlobal + Threads + Wait + Abort + Sync>(rt: &R) -> [Option<(u32, u32)>; 3] {
    let depot = succeeds(rt, Depot::new(rt.alloc()));
    let (board, pass) = board_of(rt, rt.alloc(), &TWO_CHILDREN, with_clones(1), &depot);
    let (pass, other) = board.split(pass);
    let (pass, before) = numbers_at(rt, &board, pass, 0);
    let [told, beyond] = heard_after(rt, &board, other, &depot);
    let _ = finished(rt, rt.alloc(), board, pass);
    [before, told, beyond]
}
