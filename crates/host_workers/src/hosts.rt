//! All workers of a board, one to a wire.

ghost use Rattle.std.specs.Prelude.{◌≡◌, ◌⊎◌, ℕ, ◌+◌, ◌-◌, ◌<◌, ◌≤◌, true, length, map};
ghost use Rattle.std.specs.List.{All};
ghost use Rattle.std.specs.Thread.{IsSend, IsSync};
ghost use Rattle.fork_board.specs.Passes.{HoldsNone, PassValue};
ghost use Rattle.page_claims.specs.Calls.{IsSamePass};
ghost use Rattle.board_ends.specs.Finishes.{AreDone, Finishes, IsStopped, IsStoppedElsewhere, WorkedAll, is_at_rest};
ghost use Rattle.board_ends.specs.Lost.{IsOneLost};
ghost use Rattle.host_workers.specs.Spread.{HasWorked, HaveWorked, IsDue, WorkAll, finish_of, states_of};

use crate::state::State;
use arrayvec::ArrayVec;
use board_ends::Finish;
use board_worker::{Gate, Lookout, Settings, Shared, Site, work};
use fork_board::{Board, Pass};
use page_claims::{ClaimPass, Claims};
use std::marker::{Send, Sync};
use std::mem;
use std::sync::Wait;
use std::thread::{self, Threads, join_mut};
use wire_fates::{MAX_WIRES, Wire};
use world_core::Reason;

/// The most workers of a board, of which each has a wire.
pub const MAX_WORKERS: usize = MAX_WIRES;

/// The end of two, of whom each came to one.
fn finish_of(first: Finish, second: Finish) -> Finish
    ensures { result ≡ finish_of first second }
{
    match first {
        Finish::Over => Finish::Over,
        Finish::Stopped(reason) => match second {
            Finish::Stuck => Finish::Stopped(reason),
            Finish::Over | Finish::Stopped(_) => second,
        },
        Finish::Stuck => second,
    }
}

/// Lets a worker for each of the wires take machines and run them, on a thread of its own where it is called and there can be
/// one, until the root has ended, the world was stopped, or no machine makes a step any more. Their passes, by which they enter
/// turns and claim pages, are split off from these, and are joined to them again. The workers have the numbers from 0 on at the
/// gate.
pub fn run_hosts<R: AllocGlobal + Threads + Wait + Sync, W: Wire + Send, G: Gate + Sync>(
    rt: &R,
    site: &Site<'_>,
    pass: Pass,
    claiming: ClaimPass,
    wires: &mut [W],
    settings: &Settings<G>,
) -> (Pass, ClaimPass, Finish)
    requires board { pass.board ≡ site.now.board.now }
    requires claims { claiming.table ≡ site.now.claims.now.table }
    requires shares { length wires.old < claiming.parts }
    requires none { HoldsNone pass }
    requires wires { (1 ≤ length wires.old) × (length wires.old ≤ MAX_WORKERS) }
    requires parts { length pass.number < 3 }
    requires splits { pass.splits + length wires.old ≤ 65535 }
    ensures worked { WorkedAll pass result.0 }
    ensures none { HoldsNone result.0 }
    ensures claims { IsSamePass claiming result.1 }
    ensures finish { Finishes result.0 result.2 }
    ensures rests { result.2 ≡ Finish.Stuck → is_at_rest result.0 ≡ true }
    ensures done { AreDone (length wires.new) pass result.0 }
    ensures wire { result.2 ≡ Finish.Stopped Reason.Wire → IsOneLost W.streak wires.new ⊎ (IsStopped pass ⊎ IsStoppedElsewhere pass result.0) }
    ensures seeds { map W.seeds wires.new ≡ map W.seeds wires.old }
    ensures len { length wires.new ≡ length wires.old }
{
    let (board, claims) = (site.board, site.claims);
    let shared = Shared {
        board,
        claims,
        depot: site.depot,
        settings,
        lookout: Lookout::new(wires.len(), processors(rt, wires.len())),
        alloc: rt.alloc(),
    };
    let (claiming, mut dealt) = deal(board, pass, claims, claiming, wires.len());
    let states = dealt.as_mut_slice();
    work_all(rt, &shared, states, wires);
    let (pass, claimed, finish) = gather(board, claims, states, wires);
    (pass, claims.join(claiming, claimed), finish)
}

/// How many workers may run at once, of so many. One has no use for the answer, which is read from files of the system.
// Apart from `run_hosts`: to read a file takes 8 KB of the stack, which the workers' runs would have below them.
#[inline(never)]
fn processors<R: Threads>(rt: &R, workers: usize) -> usize {
    if workers == 1 {
        return 1;
    }
    match thread::available_parallelism(rt) {
        Ok(count) => count.get(),
        Err(_) => workers,
    }
}

/// The states of so many workers, and what is left of the pass to claim by. Each has a pass that is split off from that one, and
/// each but the last one that is split off from the other.
// Apart from `run_hosts`, which else has room for the states three times.
#[inline(never)]
fn deal(
    board: &Board,
    pass: Pass,
    claims: &Claims,
    claiming: ClaimPass,
    count: usize,
) -> (ClaimPass, ArrayVec<State, MAX_WORKERS>)
    requires board { pass.board ≡ board.now }
    requires claims { claiming.table ≡ claims.now.table }
    requires shares { count < claiming.parts }
    requires parts { length pass.number < 3 }
    requires splits { pass.splits + count ≤ 65535 }
    requires none { HoldsNone pass }
    requires count { (1 ≤ count) × (count ≤ MAX_WORKERS) }
    ensures states { (k : ℕ) → count ≡ k + 1 → result.1.items ≡ states_of claims.now 0 pass k }
    ensures due { All (IsDue board.now claims.now) result.1.items }
    ensures len { length result.1.items ≡ count }
    ensures left { result.0 ≡ record claiming { parts = claiming.parts - count } }
{
    let mut pass = pass;
    let mut claiming = claiming;
    let mut states = ArrayVec::new();
    for number in 0..count - 1 {
        let (rest, split) = board.split(pass);
        let (left, share) = claims.split(claiming);
        states.push(State::Due(number as u32, split, share));
        pass = rest;
        claiming = left;
    }
    let (left, share) = claims.split(claiming);
    states.push(State::Due((count - 1) as u32, pass, share));
    (left, states)
}

/// Lets the workers work, each from its state on and over its wire. The first works in this thread, once it is let begin.
/// The others go to a new thread, if there can be one, in which the same holds: so a thread is made as one is called.
#[cycle(rest)]
fn work_all<R: Threads + Wait + Sync, W: Wire + Send, G: Gate + Sync>(
    rt: &R,
    shared: &Shared<G>,
    states: &mut [State],
    wires: &mut [W],
)
    requires due { All (IsDue shared.now.board.now shared.now.claims.now) states.old }
    requires each { length states.old ≡ length wires.old }
    requires some { 1 ≤ length wires.old }
    ensures worked { HaveWorked W.streak wires.new states.old states.new }
    ensures seeds { map W.seeds wires.new ≡ map W.seeds wires.old }
    ensures len { length wires.new ≡ length wires.old }
{
    shared.lookout.begin(rt);
    if wires.len() > 1 && !shared.lookout.is_over() {
        let (here, there) = wires.split_at_mut(1);
        let (first, rest) = states.split_at_mut(1);
        work_beside(rt, shared, first, here, rest, there);
        return;
    }
    work_in_turn(rt, shared, states, wires);
}

/// The first worker beside the others. A function of its own, so that what the closures require is what it is given.
#[cycle(rest)]
fn work_beside<R: Threads + Wait + Sync, W: Wire + Send, G: Gate + Sync>(
    rt: &R,
    shared: &Shared<G>,
    first: &mut [State],
    here: &mut [W],
    rest: &mut [State],
    there: &mut [W],
)
    requires crosses { IsSync R.row × IsSend W.row × IsSync G.row }
    requires first { All (IsDue shared.now.board.now shared.now.claims.now) first.old × (length first.old ≡ length here.old) × (1 ≤ length here.old) }
    requires rest { All (IsDue shared.now.board.now shared.now.claims.now) rest.old × (length rest.old ≡ length there.old) × (1 ≤ length there.old) }
    ensures first { HaveWorked W.streak here.new first.old first.new × (length here.new ≡ length here.old) × (map W.seeds here.new ≡ map W.seeds here.old) }
    ensures rest { HaveWorked W.streak there.new rest.old rest.new × (length there.new ≡ length there.old) × (map W.seeds there.new ≡ map W.seeds there.old) }
{
    let mut front = move ||
        requires { All (IsDue shared.now.board.now shared.now.claims.now) first.now × (length first.now ≡ length here.now) × (1 ≤ length here.now) }
        ensures { HaveWorked W.streak here.exit.now first.entry.now first.exit.now × (length here.exit.now ≡ length here.entry.now)
            × (map W.seeds here.exit.now ≡ map W.seeds here.entry.now) }
    { work_in_turn(rt, shared, first, here) };
    let mut back = move ||
        requires { IsSync R.row × IsSend W.row × IsSync G.row
            × All (IsDue shared.now.board.now shared.now.claims.now) rest.now × (length rest.now ≡ length there.now) × (1 ≤ length there.now) }
        ensures { HaveWorked W.streak there.exit.now rest.entry.now rest.exit.now × (length there.exit.now ≡ length there.entry.now)
            × (map W.seeds there.exit.now ≡ map W.seeds there.entry.now) }
    { work_all(rt, shared, rest, there) };
    join_mut(rt, &mut back, &mut front);
}

/// Lets workers work in this thread, one after another. They are halved again and again, so the stack grows as the logarithm
/// of their number.
#[cycle(halves)]
fn work_in_turn<R: Wait, W: Wire, G: Gate>(
    rt: &R,
    shared: &Shared<G>,
    states: &mut [State],
    wires: &mut [W],
)
    requires due { All (IsDue shared.now.board.now shared.now.claims.now) states.old }
    requires each { length states.old ≡ length wires.old }
    requires some { 1 ≤ length wires.old }
    ensures worked { HaveWorked W.streak wires.new states.old states.new }
    ensures seeds { map W.seeds wires.new ≡ map W.seeds wires.old }
    ensures len { length wires.new ≡ length wires.old }
{
    if wires.len() == 1 {
        work_in(rt, shared, &mut states[0], &mut wires[0]);
        return;
    }
    let half = wires.len() / 2;
    let (here, there) = wires.split_at_mut(half);
    let (first, second) = states.split_at_mut(half);
    work_in_turn(rt, shared, first, here);
    work_in_turn(rt, shared, second, there);
}

/// Lets one worker work.
fn work_in<R: Wait, W: Wire, G: Gate>(rt: &R, shared: &Shared<G>, state: &mut State, wire: &mut W)
    requires { IsDue shared.now.board.now shared.now.claims.now state.old }
    ensures worked { HasWorked W.streak wire.new state.old state.new }
    ensures seeds { W.seeds wire.new ≡ W.seeds wire.old }
{
    let State::Due(number, pass, claiming) = mem::replace(state, State::Begun) else {
        unreachable!()
    };
    let (pass, claiming, finish) = work(rt, shared, number, pass, claiming, wire);
    *state = State::Done(pass, claiming, finish);
}

/// Joins the passes of all workers again, and tells how their work ended.
#[cycle(gather)]
fn gather<W: Wire>(
    board: &Board,
    claims: &Claims,
    states: &mut [State],
    wires: &[W],
) -> (Pass, ClaimPass, Finish)
    requires some { 1 ≤ length wires.now }
    requires each { length states.old ≡ length wires.now }
    requires worked { (first : ℕ) × (pass : PassValue) × (k : ℕ) × (pass.board ≡ board.now) × (length wires.now ≡ k + 1)
        × HaveWorked W.streak wires.now (states_of claims.now first pass k) states.old }
    ensures worked { (first : ℕ) (pass : PassValue) (k : ℕ) → length wires.now ≡ k + 1 → HaveWorked W.streak wires.now (states_of claims.now first pass k) states.old
        → WorkAll W.streak wires.now pass result.0 result.2 }
    ensures claims { result.1.table ≡ claims.now.table }
    ensures parts { result.1.parts ≡ length wires.now }
{
    let Some((state, states)) = states.split_first_mut() else {
        unreachable!()
    };
    let Some((_, wires)) = wires.split_first() else {
        unreachable!()
    };
    let State::Done(split, share, one) = mem::replace(state, State::Begun) else {
        unreachable!()
    };
    if wires.is_empty() {
        return (split, share, one);
    }
    let (pass, claiming, all) = gather(board, claims, states, wires);
    let pass = board.join_pass(pass, split);
    (pass, claims.join(claiming, share), finish_of(one, all))
}
