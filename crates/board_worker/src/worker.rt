//! A worker: it takes machines out of the world of a board, runs them, and hands them back.

ghost use Rattle.std.specs.Prelude.{◌≡◌, ◌≢◌, ◌⊎◌, []};
ghost use Rattle.vm_cell.specs.Steps.{Stands};
ghost use Rattle.world_core.specs.Lent.{vm_of};
ghost use Rattle.fork_board.specs.Holds.{HoldsOne, HoldsPlaced};
ghost use Rattle.fork_board.specs.Passes.{HoldsNone};
ghost use Rattle.board_ends.specs.Finishes.{Finishes, IsStopped, IsStoppedBy};
ghost use Rattle.board_ends.specs.Lost.{IsLost};
ghost use Rattle.board_ends.specs.Stages.{Halts, Stage, done, free, halting, runs};
ghost use Rattle.board_worker.specs.Claiming.{IsShare};
ghost use Rattle.board_worker.specs.Fit.{IsFit};
ghost use Rattle.board_worker.specs.Next.{HasNext, HasSwapped, HasTaken, IsMachine, stage_next, stage_swapped, stage_taken};
ghost use Rattle.board_worker.specs.Stays.{Blames, GoesBackStopped, Spares, Turns, Worked, reason_for, stage_placed, stage_turned};

use crate::claimant::Claimant;
use crate::gate::{Gate, Point};
use crate::lookout::Lookout;
use crate::pace::Pace;
use crate::replies::Hearing;
use crate::shared::Shared;
use board_ends::Finish;
use fork_board::{Pass, Swapped};
use fork_port::Call;
use host_fetch::FetchError;
use page_claims::ClaimPass;
use std::alloc::Global;
use std::sync::Wait;
use vm_cell::{Slots, Stepped};
use wire_fates::Wire;
use world_core::{Lease, Placed, Reason, Taken};

/// What a worker has by itself.
#[derive(Drop)]
pub(crate) struct Worker<'a> {
    number: u32,
    pub(crate) pace: Pace,
    pub(crate) hearing: Hearing,
    /// How many replies were told when it heard last.
    pub(crate) told: u64,
    /// Where the machines that it runs keep instructions.
    pub(crate) slots: Slots,
    /// How often a machine had been handed back before it looked for one last.
    returns: u64,
    /// What it claims pages by.
    pub(crate) claimant: Claimant<'a>,
}

/// What came of a worker's turn.
enum Turned {
    /// There is nothing more to be done.
    Finished(Finish),
    /// No machine was ready, and another worker runs one.
    Idle,
    Ran,
}

/// Takes machines and runs them until the root has ended, the world was stopped, or no machine makes a step any more. The
/// pages of clones come over a wire. The lookout has let a worker begin before.
pub fn work<R: Wait, W: Wire, G: Gate>(
    rt: &R,
    shared: &Shared<G>,
    number: u32,
    pass: Pass,
    claiming: ClaimPass,
    wire: &mut W,
) -> (Pass, ClaimPass, Finish)
    requires board { pass.board ≡ shared.now.board.now }
    requires none { HoldsNone pass }
    requires share { IsShare shared.now.claims.now claiming }
    ensures worked { Worked free done pass result.0 }
    ensures none { HoldsNone result.0 }
    ensures share { IsShare shared.now.claims.now result.1 }
    ensures finish { Finishes result.0 result.2 }
    ensures wire { IsStoppedBy result.0.number Reason.Wire result.0 → IsLost W.streak wire.new ⊎ IsStopped pass }
    ensures seeds { W.seeds wire.new ≡ W.seeds wire.old }
{
    let claimant = Claimant::new(shared.claims, claiming);
    let slice = u64::from(shared.settings.slice);
    let mut worker = Worker::new(shared.alloc, number, slice, claimant);
    let mut pass = pass;
    for _ in rt.forever() {
        let (after, turned) = worker.turn(rt, shared, pass, wire);
        pass = after;
        match turned {
            Turned::Finished(finish) => {
                shared.lookout.end();
                shared.settings.gate.at(rt, number, Point::Done);
                return (pass, worker.into_claimant().into_pass(), finish);
            }
            Turned::Idle => {
                shared.settings.gate.at(rt, number, Point::Idle);
                shared.lookout.find_none(rt, worker.returns);
            }
            Turned::Ran => worker.come_back(rt, &shared.lookout),
        }
    }
    unreachable!()
}

impl<'a> Worker<'a> {
    /// A worker that has heard nothing.
    fn new(alloc: Global, number: u32, slice: u64, claimant: Claimant<'a>) -> Worker<'a>
        ensures heard { result.hearing.heard ≡ [] }
        ensures claims { result.claimant ≡ claimant.entry }
    {
        Worker {
            number,
            pace: Pace::new(slice),
            hearing: Hearing::new(alloc),
            told: u64::MAX,
            slots: Slots::new(alloc),
            returns: 0,
            claimant,
        }
    }

    /// What it claims pages by. All else of it is let go.
    fn into_claimant(self) -> Claimant<'a>
        ensures { result ≡ self.entry.claimant }
    {
        self.claimant
    }

    /// It handed its machine back.
    fn come_back<R: Wait>(&mut self, rt: &R, lookout: &Lookout)
        ensures hearing { self.new.hearing ≡ self.old.hearing }
        ensures claims { self.new.claimant ≡ self.old.claimant }
    {
        let was_long = self.pace.is_long();
        self.pace.begin_anew();
        lookout.come_back(rt, was_long);
    }

    /// It is to look for a machine. What is handed back from then on it does not miss.
    fn look(&mut self, lookout: &Lookout)
        ensures hearing { self.new.hearing ≡ self.old.hearing }
        ensures claims { self.new.claimant ≡ self.old.claimant }
    {
        self.returns = lookout.returns();
    }

    /// Whether it is to sleep once its machine is back: it ran it for a short time, and another worker is on duty.
    fn is_relieved(&self, lookout: &Lookout) -> bool {
        !self.pace.is_long() && !lookout.is_alone()
    }

    /// It has another machine. Others look for one, too.
    fn go_on(&mut self, lookout: &Lookout)
        ensures hearing { self.new.hearing ≡ self.old.hearing }
        ensures claims { self.new.claimant ≡ self.old.claimant }
    {
        let was_long = self.pace.is_long();
        self.pace.begin_anew();
        lookout.swap(was_long);
        self.returns = self.returns.wrapping_add(1);
    }

    /// It goes on with its own machine, which has made a talk. Where its run has come to be long, others look for machines.
    fn stay(&mut self, lookout: &Lookout, may_be_ready: bool)
        ensures hearing { self.new.hearing ≡ self.old.hearing }
        ensures claims { self.new.claimant ≡ self.old.claimant }
    {
        let was_long = self.pace.is_long();
        self.pace.count_talk();
        if may_be_ready {
            lookout.swap(false);
            self.returns = self.returns.wrapping_add(1);
        }
        if self.pace.is_long() {
            if !was_long {
                lookout.leave();
            }
            lookout.call(self.pace.is_very_long());
        }
    }

    /// Takes a machine and runs it, if one is ready. A world that was stopped is not run on.
    fn turn<R: Wait, W: Wire, G: Gate>(
        &mut self,
        rt: &R,
        shared: &Shared<G>,
        pass: Pass,
        wire: &mut W,
    ) -> (Pass, Turned)
        requires board { pass.board ≡ shared.now.board.now }
        requires none { HoldsNone pass }
        requires fit { IsFit shared.now.claims.now shared.now.depot.now self.old }
        ensures worked { Worked free (stage_turned result.1) pass result.0 }
        ensures none { HoldsNone result.0 }
        ensures turns { Turns result.0 result.1 }
        ensures fit { IsFit shared.now.claims.now shared.now.depot.now self.new }
        ensures wire { Blames W.streak wire.new pass result.0 }
        ensures seeds { W.seeds wire.new ≡ W.seeds wire.old }
        ensures stopped { IsStopped pass → wire.new ≡ wire.old }
    {
        self.look(&shared.lookout);
        let (pass, taken) = shared.board.take(rt, shared.alloc, pass, shared.depot);
        self.run_taken(rt, shared, pass, taken, wire)
    }

    /// Runs the machine that was taken, and those that are taken as the ones before come back.
    fn run_taken<R: Wait, W: Wire, G: Gate>(
        &mut self,
        rt: &R,
        shared: &Shared<G>,
        pass: Pass,
        taken: Taken,
        wire: &mut W,
    ) -> (Pass, Turned)
        requires board { pass.board ≡ shared.now.board.now }
        requires taken { HasTaken pass taken }
        requires fit { IsFit shared.now.claims.now shared.now.depot.now self.old }
        ensures worked { Worked (stage_taken taken) (stage_turned result.1) pass result.0 }
        ensures none { HoldsNone result.0 }
        ensures turns { Turns result.0 result.1 }
        ensures fit { IsFit shared.now.claims.now shared.now.depot.now self.new }
        ensures wire { Blames W.streak wire.new pass result.0 }
        ensures seeds { W.seeds wire.new ≡ W.seeds wire.old }
        ensures still { (wire.new ≡ wire.old) ⊎ IsMachine taken }
    {
        let mut pass = pass;
        let mut taken = taken;
        for _ in rt.forever() {
            let lease = match taken {
                Taken::Over => return (pass, Turned::Finished(Finish::Over)),
                Taken::Stopped(reason) => return (pass, Turned::Finished(Finish::Stopped(reason))),
                Taken::Stuck => return (pass, Turned::Finished(Finish::Stuck)),
                Taken::Idle => return (pass, Turned::Idle),
                Taken::Memory => return (shared.board.stop(rt, pass, Reason::Memory), Turned::Ran),
                Taken::Took(lease) => lease,
            };
            let point = Point::Took(lease.name().depth());
            shared.settings.gate.at(rt, self.number, point);
            let (after, next) = self.run(rt, shared, pass, lease, wire);
            pass = after;
            match next {
                Some(next) => taken = next,
                None => return (pass, Turned::Ran),
            }
        }
        unreachable!()
    }

    /// Runs a machine and hands it back, and goes on with it where it only made a talk. Answers what was taken in the turn in
    /// which it came back: nothing, where this worker is to sleep. Where it cannot be run on, the world is stopped.
    fn run<R: Wait, W: Wire, G>(
        &mut self,
        rt: &R,
        shared: &Shared<G>,
        pass: Pass,
        lease: Lease,
        wire: &mut W,
    ) -> (Pass, Option<Taken>)
        requires board { pass.board ≡ shared.now.board.now }
        requires one { HoldsOne pass lease }
        requires fit { IsFit shared.now.claims.now shared.now.depot.now self.old }
        ensures worked { Worked runs (stage_next result.1) pass result.0 }
        ensures next { HasNext result.0 result.1 }
        ensures fit { IsFit shared.now.claims.now shared.now.depot.now self.new }
        ensures wire { Blames W.streak wire.new pass result.0 }
        ensures seeds { W.seeds wire.new ≡ W.seeds wire.old }
    {
        let mut pass = pass;
        let mut lease = lease;
        for _ in rt.forever() {
            let (after, ran) = self.run_on(rt, shared, pass, &mut lease, wire);
            let why = match ran {
                Ok(why) => why,
                Err(error) => {
                    return (give_up(rt, shared, after, lease, stop_for(error)), None);
                }
            };
            if self.is_relieved(&shared.lookout) {
                return (spend(rt, shared, after, lease, why), None);
            }
            self.look(&shared.lookout);
            let (after, swapped) = swap(rt, shared, after, lease, why);
            match swapped {
                Swapped::Goes(next, may_be_ready) => {
                    self.stay(&shared.lookout, may_be_ready);
                    pass = after;
                    lease = next;
                }
                Swapped::Took(_, taken) => {
                    self.go_on(&shared.lookout);
                    return (after, Some(taken));
                }
                Swapped::Memory(kept) => {
                    return (give_up(rt, shared, after, kept, Reason::Memory), None);
                }
            }
        }
        unreachable!()
    }
}

/// Makes the talk at which a machine stands and goes on with it, or makes its call or gives it back and takes another in the
/// same turn.
fn swap<R: Wait, G>(
    rt: &R,
    shared: &Shared<G>,
    pass: Pass,
    lease: Lease,
    why: Stepped,
) -> (Pass, Swapped)
    requires board { pass.board ≡ shared.now.board.now }
    requires one { HoldsOne pass lease }
    requires stands { Stands (vm_of lease) why }
    ensures worked { Worked runs (stage_swapped result.1) pass result.0 }
    ensures holds { HasSwapped result.0 result.1 }
    ensures spares { Spares pass result.0 }
{
    let (board, alloc, depot) = (shared.board, shared.alloc, shared.depot);
    match why {
        Stepped::Talk(what) => board.talk_on(rt, alloc, pass, lease, what, depot),
        Stepped::Call(Call::Clone(_)) => board.fork_and_take(rt, alloc, pass, lease, depot),
        Stepped::Call(Call::Join(_)) => board.join_and_take(rt, alloc, pass, lease, depot),
        Stepped::Call(Call::Kill(_)) => board.kill_and_take(rt, alloc, pass, lease, depot),
        _ => board.give_and_take(rt, alloc, pass, lease, depot),
    }
}

/// The reason for which a machine that cannot be run on stops the world.
fn stop_for(error: FetchError) -> Reason
    ensures { result ≡ reason_for error }
{
    match error {
        FetchError::Wire => Reason::Wire,
        FetchError::Memory => Reason::Memory,
    }
}

/// Hands a machine back. Where memory is wanting for its call, the world is stopped.
fn spend<R: Wait, G>(rt: &R, shared: &Shared<G>, pass: Pass, lease: Lease, why: Stepped) -> Pass
    requires board { pass.board ≡ shared.now.board.now }
    requires one { HoldsOne pass lease }
    requires stands { Stands (vm_of lease) why }
    ensures worked { Worked runs free pass result }
    ensures none { HoldsNone result }
    ensures spares { Spares pass result }
{
    match hand_back(rt, shared, pass, lease, why) {
        (pass, Placed::Done | Placed::Parked | Placed::Dropped) => pass,
        (pass, Placed::Memory(lease)) => give_up(rt, shared, pass, lease, Reason::Memory),
    }
}

/// Makes the call or the talk at which a machine stands, or gives it back.
fn hand_back<R: Wait, G>(
    rt: &R,
    shared: &Shared<G>,
    pass: Pass,
    lease: Lease,
    why: Stepped,
) -> (Pass, Placed)
    requires board { pass.board ≡ shared.now.board.now }
    requires one { HoldsOne pass lease }
    requires stands { Stands (vm_of lease) why }
    ensures worked { Worked runs (stage_placed result.1) pass result.0 }
    ensures holds { HoldsPlaced result.0 result.1 }
    ensures spares { Spares pass result.0 }
{
    let board = shared.board;
    match why {
        Stepped::Talk(_) => board.talk(rt, shared.alloc, pass, lease),
        Stepped::Call(Call::Clone(_)) => board.fork(rt, shared.alloc, pass, lease, shared.depot),
        Stepped::Call(Call::Join(_)) => board.join(rt, shared.alloc, pass, lease),
        Stepped::Call(Call::Kill(_)) => board.kill(rt, pass, lease),
        _ => board.give(rt, pass, lease),
    }
}

/// Stops the world, and only then gives a machine back that cannot be run on: so nobody takes it.
fn give_up<R: Wait, G>(rt: &R, shared: &Shared<G>, pass: Pass, lease: Lease, reason: Reason) -> Pass
    requires board { pass.board ≡ shared.now.board.now }
    requires one { HoldsOne pass lease }
    ensures worked { (from : Stage) → Halts from reason halting → Worked from free pass result }
    ensures none { HoldsNone result }
    ensures spares { reason ≢ Reason.Wire → Spares pass result }
    ensures stopped { GoesBackStopped lease result }
{
    let pass = shared.board.stop(rt, pass, reason);
    let (pass, placed) = shared.board.give(rt, pass, lease);
    match placed {
        Placed::Done | Placed::Parked | Placed::Dropped => pass,
        Placed::Memory(_lease) => unreachable!(),
    }
}
