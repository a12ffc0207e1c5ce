//! Requests for pages.

ghost use Rattle.std.specs.Prelude.{◌≡◌, ℕ, ◌<◌, ◌≤◌, ◌==◌, if◌then◌else◌, [], ◌∷◌, ◌++◌, drop, length, map, take, IfOk, OnOk, OnErr};
ghost use Rattle.std.specs.List.{All, list_any};
ghost use Rattle.image_depot.specs.Image.{place_count};
ghost use Rattle.image_depot.specs.Key.{IsKeyOf, image_of};
ghost use Rattle.image_depot.specs.Reply.{IsClaimOf};
ghost use Rattle.page_claims.specs.Calls.{IsSamePass};
ghost use Rattle.host_fetch.specs.Asked.{AreAsked, ArePartlyAsked, IsAsked, IsTold, IsUntold, first_asked, reply_in, reply_with};

use crate::fetcher::Fetcher;
use crate::waiting::Waiting;
use image_depot::{Depot, ImageKey, Parcel, Receiver, Sent};
use page_claims::{ClaimPass, Claimed, First};
use std::alloc::{AllocError, Global};
use std::sync::Wait;

/// The wanted page, and as many of the absent pages above it up to an end, the lowest first.
pub fn first_asked<T: Receiver>(
    alloc: Global,
    receiver: &T,
    page: u32,
    end: u32,
    ahead: u32,
) -> Result<Vec<u32>, AllocError>
    requires pages { end ≤ length (T.here receiver.now) }
    requires there { page < end }
    ensures value { IfOk result (λ asked. asked.items ≡ first_asked (T.here receiver.now) page end ahead) }
    ensures there { IfOk result (λ asked. All (λ each. each < length (T.here receiver.now)) asked.items) }
{
    let ahead = ahead as usize;
    let mut asked = Vec::with_capacity(alloc, ahead + 1)?;
    asked.push(page)?;
    for next in page + 1..end {
        if asked.len() > ahead {
            return Ok(asked);
        }
        if receiver.is_here(next) {
            continue;
        }
        asked.push(next)?;
    }
    Ok(asked)
}

impl<'a> Fetcher<'a> {
    /// Asks for these pages of an image, and gives the replies, which wait. Each page is claimed, and what was claimed for the first
    /// time is pushed, and told.
    pub fn ask_first<R: Wait>(
        &self,
        rt: &R,
        key: &ImageKey,
        pages: &[u32],
        claiming: ClaimPass,
        pushed: &mut Vec<Sent>,
    ) -> (ClaimPass, Result<Vec<Waiting<'a>>, AllocError>)
        requires here { IsKeyOf self.now.depot.now key.now }
        requires there { All (λ page. page < place_count (image_of key.now)) pages.now }
        requires claims { claiming.table ≡ self.now.claims.now.table }
        ensures waiting { IfOk result.1 (λ waiting. map reply_in waiting.items ≡ map (reply_with key.now) pages.now) }
        ensures asked { OnOk result.1 (AreAsked self.now.depot.now self.now.claims.now key.now pages.now
            (record { sent = pushed.old.items; pass = claiming }) (record { sent = pushed.new.items; pass = result.0 })) }
        ensures err { OnErr result.1 ((count : ℕ) × ArePartlyAsked self.now.depot.now self.now.claims.now key.now (take 1 (drop count pages.now)) (take count pages.now)
            (record { sent = pushed.old.items; pass = claiming }) (record { sent = pushed.new.items; pass = result.0 })) }
        ensures same { IsSamePass claiming result.0 }
    {
        let Ok(mut waiting) = Vec::with_capacity(self.alloc, pages.len()) else {
            return (claiming, Err(AllocError));
        };
        let mut claiming = claiming;
        for page in pages {
            let (after, asked) = self.ask(rt, key, *page, claiming, &mut waiting, pushed);
            claiming = after;
            let Ok(()) = asked else {
                return (claiming, Err(AllocError));
            };
        }
        (claiming, Ok(waiting))
    }

    /// Asks for a page of an image. The reply waits behind the others. The page is claimed, and where that is the first claim the
    /// reply is pushed, and told.
    pub fn ask<R: Wait>(
        &self,
        rt: &R,
        key: &ImageKey,
        page: u32,
        claiming: ClaimPass,
        waiting: &mut Vec<Waiting<'a>>,
        pushed: &mut Vec<Sent>,
    ) -> (ClaimPass, Result<(), AllocError>)
        requires here { IsKeyOf self.now.depot.now key.now }
        requires there { page < place_count (image_of key.now) }
        requires claims { claiming.table ≡ self.now.claims.now.table }
        ensures waiting { OnOk result.1 (map reply_in waiting.new.items ≡ map reply_in waiting.old.items ++ reply_with key.now page ∷ []) }
        ensures asked { OnOk result.1 (IsAsked self.now.depot.now self.now.claims.now key.now page
            (record { sent = pushed.old.items; pass = claiming }) (record { sent = pushed.new.items; pass = result.0 })) }
        ensures err { OnErr result.1 (IsUntold self.now.claims.now key.now page
            (record { sent = pushed.old.items; pass = claiming }) (record { sent = pushed.new.items; pass = result.0 })) }
        ensures same { IsSamePass claiming result.0 }
    {
        let Ok(parcel) = self.depot.answer(key, page) else {
            return (claiming, Err(AllocError));
        };
        let (claiming, claimed) = self.claims.claim(claiming, key.number(), page);
        match claimed {
            Claimed::First(first) => (
                claiming,
                keep(rt, self.depot, first, parcel, waiting, pushed),
            ),
            Claimed::Repeat => (claiming, hold(parcel, waiting)),
            Claimed::Outside => (claiming, hold(parcel, waiting)),
        }
    }

    /// Asks for a page of an image again, where no reply with it waits.
    pub fn ask_again<R: Wait>(
        &self,
        rt: &R,
        key: &ImageKey,
        page: u32,
        claiming: ClaimPass,
        waiting: &mut Vec<Waiting<'a>>,
        pushed: &mut Vec<Sent>,
    ) -> (ClaimPass, Result<(), AllocError>)
        requires here { IsKeyOf self.now.depot.now key.now }
        requires there { page < place_count (image_of key.now) }
        requires claims { claiming.table ≡ self.now.claims.now.table }
        ensures waiting { OnOk result.1 (map reply_in waiting.new.items ≡ map reply_in waiting.old.items
            ++ (if list_any (λ w. (reply_in w).page == page) waiting.old.items then [] else reply_with key.now page ∷ [])) }
        ensures asked { OnOk result.1 (AreAsked self.now.depot.now self.now.claims.now key.now
            (if list_any (λ w. (reply_in w).page == page) waiting.old.items then [] else page ∷ [])
            (record { sent = pushed.old.items; pass = claiming }) (record { sent = pushed.new.items; pass = result.0 })) }
        ensures err { OnErr result.1 (IsUntold self.now.claims.now key.now page
            (record { sent = pushed.old.items; pass = claiming }) (record { sent = pushed.new.items; pass = result.0 })) }
        ensures same { IsSamePass claiming result.0 }
    {
        if waits(waiting, page) {
            return (claiming, Ok(()));
        }
        self.ask(rt, key, page, claiming, waiting, pushed)
    }
}

/// Pushes a reply whose page was claimed for the first time, and tells it. It waits behind the others.
fn keep<'a, R: Wait>(
    rt: &R,
    depot: &'a Depot,
    first: First,
    parcel: Parcel,
    waiting: &mut Vec<Waiting<'a>>,
    pushed: &mut Vec<Sent>,
) -> Result<(), AllocError>
    requires of_depot { IsKeyOf depot.now parcel.key }
    requires claimed { IsClaimOf parcel first }
    ensures waiting { OnOk result (map reply_in waiting.new.items ≡ map reply_in waiting.old.items ++ parcel ∷ []) }
    ensures told { OnOk result (IsTold depot.now parcel (Claimed.First first) pushed.old.items pushed.new.items) }
    ensures err { OnErr result (pushed.new.items ≡ pushed.old.items) }
{
    // What was pushed is told: there is room for it before.
    waiting.reserve(1)?;
    pushed.reserve(1)?;
    let sent = depot.push(rt, first, parcel)?;
    waiting.push(Waiting::Kept(depot.sent(&sent)))?;
    pushed.push(sent)?;
    Ok(())
}

/// A reply that is not pushed waits behind the others.
fn hold<'a>(parcel: Parcel, waiting: &mut Vec<Waiting<'a>>) -> Result<(), AllocError>
    ensures { OnOk result (map reply_in waiting.new.items ≡ map reply_in waiting.old.items ++ parcel ∷ []) }
{
    waiting.push(Waiting::Own(parcel))?;
    Ok(())
}

/// Whether a reply with a page waits.
fn waits(waiting: &[Waiting<'_>], page: u32) -> bool
    ensures { result ≡ list_any (λ w. (reply_in w).page == page) waiting.now }
{
    waiting.iter().any(|one| one.parcel().page() == page)
}
