//! How a worker runs a machine that it holds.

ghost use Rattle.std.specs.Prelude.{◌≡◌, IfErr, IfOk};
ghost use Rattle.vm_cell.specs.Steps.{Stands};
ghost use Rattle.world_core.specs.Answers.{IsLentOf};
ghost use Rattle.world_core.specs.Lent.{IsSameLease, vm_of};
ghost use Rattle.board_ends.specs.Lost.{IsLost};
ghost use Rattle.board_worker.specs.Fit.{IsFit};
ghost use Rattle.board_worker.specs.Stays.{Stays};

use crate::claimant::Claimant;
use crate::lookout::Lookout;
use crate::replies::tell_all;
use crate::shared::Shared;
use crate::worker::Worker;
use fork_board::Pass;
use host_fetch::{FetchError, offer};
use std::alloc::AllocError;
use std::sync::Wait;
use vm_cell::Stepped;
use wire_fates::Wire;
use world_core::Lease;

impl Worker<'_> {
    /// Runs a machine to its end, to a call or to a talk, or until there is nothing more to be done after a stretch. It tells
    /// where the machine stands then.
    pub(crate) fn run_on<R: Wait, W: Wire, G>(
        &mut self,
        rt: &R,
        shared: &Shared<G>,
        pass: Pass,
        lease: &mut Lease,
        wire: &mut W,
    ) -> (Pass, Result<Stepped, FetchError>)
        requires board { pass.board ≡ shared.now.board.now }
        requires of_depot { IsLentOf shared.now.depot.now lease.old }
        requires fit { IsFit shared.now.claims.now shared.now.depot.now self.old }
        ensures same { IsSameLease lease.old lease.new }
        ensures stands { IfOk result.1 (Stands (vm_of lease.new)) }
        ensures stays { Stays pass result.0 }
        ensures fit { IsFit shared.now.claims.now shared.now.depot.now self.new }
        ensures wire { IfErr result.1 (λ error. error ≡ FetchError.Wire → IsLost W.streak wire.new) }
        ensures seeds { W.seeds wire.new ≡ W.seeds wire.old }
    {
        let mut pass = pass;
        for _ in rt.forever() {
            let (after, ran) = self.run_stretch(rt, shared, pass, lease, wire);
            pass = after;
            match ran {
                Ok(Stepped::Went) => self.look_up(&shared.lookout),
                Ok(why) => return (pass, Ok(why)),
                Err(error) => return (pass, Err(error)),
            }
            if shared.lookout.is_over() {
                return (pass, Ok(Stepped::Went));
            }
        }
        unreachable!()
    }

    /// After a stretch that its machine made whole. Where the run has come to be long, others look for machines.
    fn look_up(&mut self, lookout: &Lookout)
        ensures hearing { self.new.hearing ≡ self.old.hearing }
        ensures claims { self.new.claimant ≡ self.old.claimant }
    {
        let was_long = self.pace.is_long();
        self.pace.lengthen();
        if !self.pace.is_long() {
            return;
        }
        if !was_long {
            lookout.leave();
        }
        lookout.call(self.pace.is_very_long());
    }

    /// Runs a machine for a stretch of steps, or to its end or a call before. Each page at which it stalls is brought.
    fn run_stretch<R: Wait, W: Wire, G>(
        &mut self,
        rt: &R,
        shared: &Shared<G>,
        pass: Pass,
        lease: &mut Lease,
        wire: &mut W,
    ) -> (Pass, Result<Stepped, FetchError>)
        requires board { pass.board ≡ shared.now.board.now }
        requires of_depot { IsLentOf shared.now.depot.now lease.old }
        requires fit { IsFit shared.now.claims.now shared.now.depot.now self.old }
        ensures same { IsSameLease lease.old lease.new }
        ensures stands { IfOk result.1 (Stands (vm_of lease.new)) }
        ensures stays { Stays pass result.0 }
        ensures fit { IsFit shared.now.claims.now shared.now.depot.now self.new }
        ensures wire { IfErr result.1 (λ error. error ≡ FetchError.Wire → IsLost W.streak wire.new) }
        ensures seeds { W.seeds wire.new ≡ W.seeds wire.old }
    {
        let mut pass = pass;
        let mut left = self.pace.steps();
        for _ in rt.forever() {
            let Ok(ran) = lease.run(&mut self.slots, left) else {
                return (pass, Err(FetchError::Memory));
            };
            let Stepped::Stall(_) = ran.why else {
                return (pass, Ok(ran.why));
            };
            left -= ran.steps;
            let (after, brought) = self.bring(rt, shared, pass, lease, wire);
            pass = after;
            if let Err(error) = brought {
                return (pass, Err(error));
            }
        }
        unreachable!()
    }

    /// Brings the page at which a machine stalls: from what was heard before, or from what was told since, if anything was.
    /// Else it comes over the wire, and all that was pushed is told.
    fn bring<R: Wait, W: Wire, G>(
        &mut self,
        rt: &R,
        shared: &Shared<G>,
        pass: Pass,
        lease: &mut Lease,
        wire: &mut W,
    ) -> (Pass, Result<(), FetchError>)
        requires board { pass.board ≡ shared.now.board.now }
        requires of_depot { IsLentOf shared.now.depot.now lease.old }
        requires fit { IsFit shared.now.claims.now shared.now.depot.now self.old }
        ensures same { IsSameLease lease.old lease.new }
        ensures stays { Stays pass result.0 }
        ensures fit { IsFit shared.now.claims.now shared.now.depot.now self.new }
        ensures wire { IfErr result.1 (λ error. error ≡ FetchError.Wire → IsLost W.streak wire.new) }
        ensures seeds { W.seeds wire.new ≡ W.seeds wire.old }
    {
        match offer(shared.alloc, lease, shared.depot, &self.hearing.heard) {
            Ok(true) => return (pass, Ok(())),
            Ok(false) => {}
            Err(_) => return (pass, Err(FetchError::Memory)),
        }
        let (pass, offered) = self.hear_and_offer(rt, shared, pass, lease);
        match offered {
            Ok(true) => (pass, Ok(())),
            Ok(false) => fetch_and_tell(rt, shared, pass, lease, wire, &mut self.claimant),
            Err(_) => (pass, Err(FetchError::Memory)),
        }
    }

    /// Brings the page at which a machine stalls from what was told since it heard last, and answers whether that served.
    /// Where nothing was, it takes no turn to hear.
    fn hear_and_offer<R: Wait, G>(
        &mut self,
        rt: &R,
        shared: &Shared<G>,
        pass: Pass,
        lease: &mut Lease,
    ) -> (Pass, Result<bool, AllocError>)
        requires board { pass.board ≡ shared.now.board.now }
        requires of_depot { IsLentOf shared.now.depot.now lease.old }
        requires fit { IsFit shared.now.claims.now shared.now.depot.now self.old }
        ensures same { IsSameLease lease.old lease.new }
        ensures stays { Stays pass result.0 }
        ensures fit { IsFit shared.now.claims.now shared.now.depot.now self.new }
    {
        let told = shared.lookout.told();
        if told == self.told {
            return (pass, Ok(false));
        }
        self.told = told;
        let (pass, listened) = self.hearing.listen(rt, shared.board, pass);
        if listened.is_err() {
            return (pass, Err(AllocError));
        }
        let offered = offer(shared.alloc, lease, shared.depot, &self.hearing.heard);
        (pass, offered)
    }
}

/// Fetches the page at which a machine stalls over the wire, and tells all that was pushed.
fn fetch_and_tell<R: Wait, W: Wire, G>(
    rt: &R,
    shared: &Shared<G>,
    pass: Pass,
    lease: &mut Lease,
    wire: &mut W,
    claimant: &mut Claimant<'_>,
) -> (Pass, Result<(), FetchError>)
    requires board { pass.board ≡ shared.now.board.now }
    requires of_depot { IsLentOf shared.now.depot.now lease.old }
    ensures claims { claimant.new.claims ≡ claimant.old.claims }
    ensures same { IsSameLease lease.old lease.new }
    ensures stays { Stays pass result.0 }
    ensures wire { IfErr result.1 (λ error. error ≡ FetchError.Wire → IsLost W.streak wire.new) }
    ensures seeds { W.seeds wire.new ≡ W.seeds wire.old }
{
    let mut pushed = Vec::new(shared.alloc);
    if let Err(error) = claimant.fetch(rt, shared, lease, wire, &mut pushed) {
        return (pass, Err(error));
    }
    match tell_all(rt, shared.board, pass, &pushed) {
        (pass, Ok(())) => {
            shared.lookout.tell(pushed.len());
            (pass, Ok(()))
        }
        (pass, Err(_)) => (pass, Err(FetchError::Memory)),
    }
}
