//! Who claims the pages that are fetched.

ghost use Rattle.std.specs.Prelude.{◌≡◌, IfErr, IsSomeAnd};
ghost use Rattle.std.specs.List.{All};
ghost use Rattle.host_fetch.specs.Asked.{HasToldFirsts, untold_most};
ghost use Rattle.image_depot.specs.Reply.{IsSentOf};
ghost use Rattle.world_core.specs.Answers.{IsLentOf};
ghost use Rattle.world_core.specs.Lent.{IsSameLease};
ghost use Rattle.board_ends.specs.Lost.{IsLost};
ghost use Rattle.board_worker.specs.Claiming.{IsShare};

use crate::shared::Shared;
use host_fetch::{FetchError, Fetcher};
use image_depot::Sent;
use page_claims::{ClaimPass, Claims};
use std::marker::Model;
use std::sync::Wait;
use wire_fates::Wire;
use world_core::Lease;

/// What a worker claims pages by: a pass of one part. Contracts see in it the claims and the pass.
#[derive(Drop)]
pub(crate) struct Claimant<'a> {
    claims: &'a Claims,
    // It is away while a page is fetched.
    pass: Option<ClaimPass>,
}

impl<'a> Model for Claimant<'a> {
    ghost use Rattle.std.specs.Prelude.{IsSomeAnd};
    ghost use Rattle.board_worker.specs.Claiming.{Claiming, IsShare};

    ghost Value = { Claiming };

    ghost view = { λ c. record { claims = c.claims.now; pass = c.pass } };

    ghost invariant = { λ c. IsSomeAnd c.pass (IsShare c.claims.now) };
}

impl<'a> Claimant<'a> {
    /// Who claims by a pass of one part.
    pub(crate) fn new(claims: &'a Claims, pass: ClaimPass) -> Claimant<'a>
        requires { IsShare claims.now pass }
        ensures { result ≡ record { claims = claims.now; pass = Some pass } }
    {
        Claimant {
            claims,
            pass: Some(pass),
        }
    }

    /// Its pass.
    pub(crate) fn into_pass(self) -> ClaimPass
        ensures value { self.entry.pass ≡ Some result }
        ensures share { IsShare self.entry.claims result }
    {
        let Claimant { claims: _, pass } = self;
        let Some(pass) = pass else { unreachable!() };
        pass
    }

    /// Fetches the page at which a machine stalls over a wire. Each page that is asked for is claimed, and just what its pass
    /// claimed first is pushed.
    pub(crate) fn fetch<R: Wait, W: Wire, G>(
        &mut self,
        rt: &R,
        shared: &Shared<G>,
        lease: &mut Lease,
        wire: &mut W,
        pushed: &mut Vec<Sent>,
    ) -> Result<(), FetchError>
        requires of_depot { IsLentOf shared.now.depot.now lease.old }
        ensures claims { self.new.claims ≡ self.old.claims }
        ensures firsts { IsSomeAnd self.old.pass (λ old. IsSomeAnd self.new.pass (λ new. HasToldFirsts self.old.claims (untold_most result)
            (record { sent = pushed.old.items; pass = old }) (record { sent = pushed.new.items; pass = new }))) }
        ensures same { IsSameLease lease.old lease.new }
        ensures kept { All (IsSentOf shared.now.depot.now) pushed.old.items → All (IsSentOf shared.now.depot.now) pushed.new.items }
        ensures wire { IfErr result (λ error. error ≡ FetchError.Wire → IsLost W.streak wire.new) }
        ensures seeds { W.seeds wire.new ≡ W.seeds wire.old }
    {
        let Some(pass) = self.pass.take() else {
            unreachable!()
        };
        let fetcher = Fetcher {
            depot: shared.depot,
            claims: self.claims,
            ahead: shared.settings.ahead,
            alloc: shared.alloc,
        };
        let (pass, fetched) = fetcher.fetch(rt, lease, wire, pass, pushed);
        self.pass = Some(pass);
        fetched
    }
}
