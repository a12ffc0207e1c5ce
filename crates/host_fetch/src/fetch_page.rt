ghost use Rattle.std.specs.Prelude.{◌≡◌, ℕ, ◌<◌, ◌≤◌, true, false, List, length, None, Some, Ok, IfErr, OnOk};
ghost use Rattle.std.specs.List.{All};
ghost use Rattle.std.specs.Option.{ForSome};
ghost use Rattle.image_depot.specs.Image.{place_count};
ghost use Rattle.image_depot.specs.Key.{IsKeyOf, image_of};
ghost use Rattle.image_depot.specs.Receiver.{IsAbsent, IsHere};
ghost use Rattle.image_depot.specs.Reply.{IsSentOf};
ghost use Rattle.page_claims.specs.Calls.{IsSamePass};
ghost use Rattle.host_fetch.specs.Asked.{HasAsked, HasToldFirsts, end_of_kind, first_asked, untold_most};
ghost use Rattle.host_fetch.specs.Fetch.{Finishes, Grows, begun};

use crate::ask::first_asked;
use crate::deliver::deliver;
use crate::error::FetchError;
use crate::fetcher::Fetcher;
use image_depot::{Depot, ImageKey, Receiver, Sent};
use page_claims::ClaimPass;
use std::sync::Wait;
use wire_fates::{LONGEST_STREAK, Wire};

/// The most pages that a fetch asks for beside the wanted one.
pub const MAX_AHEAD: u32 = 16;

/// A page of an image, which a receiver wants.
#[derive(Drop)]
struct Wanted {
    key: ImageKey,
    page: u32,
}

impl Fetcher<'_> {
    /// Brings the page that a receiver wants, if it wants one. It asks for this page and for the next `ahead` higher ones of its
    /// kind, of RAM or of the disk, that are absent, and the wire tells what becomes of the replies. Where the reply with the
    /// wanted page is lost, it asks for it again. Each page that it asks for is claimed, and the replies whose pages were claimed for
    /// the first time are pushed, and told in `pushed`; all come to the receiver alike. The pass comes back. The wire has failed
    /// where its streak is the longest after a fate, and the page is not here.
    pub fn fetch<R: Wait, T: Receiver, W: Wire>(
        &self,
        rt: &R,
        receiver: &mut T,
        wire: &mut W,
        claiming: ClaimPass,
        pushed: &mut Vec<Sent>,
    ) -> (ClaimPass, Result<(), FetchError>)
        requires claims { claiming.table ≡ self.now.claims.now.table }
        requires of_depot { ForSome (T.key receiver.old) (IsKeyOf self.now.depot.now) }
        ensures none { T.wanted receiver.old ≡ None → (result ≡ (claiming, Ok tt)) × (receiver.new ≡ receiver.old) × (wire.new ≡ wire.old) × (pushed.new.items ≡ pushed.old.items) }
        ensures here { OnOk result.1 (ForSome (T.wanted receiver.old) (IsHere (T.here receiver.new))) }
        ensures fetches { ForSome (T.wanted receiver.old) (λ page. ForSome (T.key receiver.old) (λ key. (asked : List ℕ)
            × HasAsked self.now.depot.now self.now.claims.now key (first_asked (T.here receiver.old) page (end_of_kind (image_of key) page) self.now.ahead) result.1 asked
            (record { sent = pushed.old.items; pass = claiming }) (record { sent = pushed.new.items; pass = result.0 })
            × Finishes W.tells W.streak page
            wire.old (begun (T.here receiver.old) (first_asked (T.here receiver.old) page (end_of_kind (image_of key) page) self.now.ahead))
            wire.new (T.here receiver.new) asked result.1)) }
        ensures firsts { HasToldFirsts self.now.claims.now (untold_most result.1)
            (record { sent = pushed.old.items; pass = claiming }) (record { sent = pushed.new.items; pass = result.0 }) }
        ensures wire { IfErr result.1 (λ error. error ≡ FetchError.Wire → W.streak wire.new ≡ LONGEST_STREAK) }
        ensures same { IsSamePass claiming result.0 }
        ensures kept { All (IsSentOf self.now.depot.now) pushed.old.items → All (IsSentOf self.now.depot.now) pushed.new.items }
        ensures key { T.key receiver.new ≡ T.key receiver.old }
        ensures seeds { W.seeds wire.new ≡ W.seeds wire.old }
        ensures rest { T.rest receiver.new ≡ T.rest receiver.old }
        ensures grows { Grows (T.here receiver.old) (T.here receiver.new) }
    {
        let Some(page) = receiver.wanted() else {
            return (claiming, Ok(()));
        };
        let Some(key) = receiver.key() else {
            unreachable!()
        };
        let Ok(key) = key.again() else {
            return (claiming, Err(FetchError::Memory));
        };
        let wanted = Wanted { key, page };
        self.fetch_page(rt, receiver, wire, &wanted, claiming, pushed)
    }

    /// Brings a page that is absent.
    fn fetch_page<R: Wait, T: Receiver, W: Wire>(
        &self,
        rt: &R,
        receiver: &mut T,
        wire: &mut W,
        wanted: &Wanted,
        claiming: ClaimPass,
        pushed: &mut Vec<Sent>,
    ) -> (ClaimPass, Result<(), FetchError>)
        requires claims { claiming.table ≡ self.now.claims.now.table }
        requires of_depot { IsKeyOf self.now.depot.now wanted.now.key }
        requires of_image { T.key receiver.old ≡ Some wanted.now.key }
        requires pages { place_count (image_of wanted.now.key) ≡ length (T.here receiver.old) }
        requires absent { IsAbsent (T.here receiver.old) wanted.now.page }
        ensures fetches { (asked : List ℕ)
            × HasAsked self.now.depot.now self.now.claims.now wanted.now.key
            (first_asked (T.here receiver.old) wanted.now.page (end_of_kind (image_of wanted.now.key) wanted.now.page) self.now.ahead) result.1 asked
            (record { sent = pushed.old.items; pass = claiming }) (record { sent = pushed.new.items; pass = result.0 })
            × Finishes W.tells W.streak wanted.now.page
            wire.old (begun (T.here receiver.old) (first_asked (T.here receiver.old) wanted.now.page (end_of_kind (image_of wanted.now.key) wanted.now.page) self.now.ahead))
            wire.new (T.here receiver.new) asked result.1 }
        ensures same { IsSamePass claiming result.0 }
        ensures key { T.key receiver.new ≡ T.key receiver.old }
        ensures seeds { W.seeds wire.new ≡ W.seeds wire.old }
        ensures rest { T.rest receiver.new ≡ T.rest receiver.old }
        ensures grows { Grows (T.here receiver.old) (T.here receiver.new) }
    {
        let (key, page) = (&wanted.key, wanted.page);
        let end = end_of_kind(self.depot, key, page);
        let Ok(asked) = first_asked(self.alloc, receiver, page, end, self.ahead) else {
            return (claiming, Err(FetchError::Memory));
        };
        let (claiming, replies) = self.ask_first(rt, key, &asked, claiming, pushed);
        let mut claiming = claiming;
        let Ok(mut waiting) = replies else {
            return (claiming, Err(FetchError::Memory));
        };
        loop {
            let fate = wire.next(waiting.len());
            let Ok(()) = deliver(self.alloc, receiver, self.depot, &mut waiting, fate) else {
                return (claiming, Err(FetchError::Memory));
            };
            if receiver.is_here(page) {
                return (claiming, Ok(()));
            }
            if has_failed(wire) {
                return (claiming, Err(FetchError::Wire));
            }
            let (after, asked) = self.ask_again(rt, key, page, claiming, &mut waiting, pushed);
            claiming = after;
            let Ok(()) = asked else {
                return (claiming, Err(FetchError::Memory));
            };
        }
    }
}

/// Where the pages of the kind of a page end.
fn end_of_kind(depot: &Depot, key: &ImageKey, page: u32) -> u32
    requires of_depot { IsKeyOf depot.now key.now }
    requires there { page < place_count (image_of key.now) }
    ensures value { result ≡ end_of_kind (image_of key.now) page }
    ensures above { page < result }
    ensures most { result ≤ place_count (image_of key.now) }
{
    let pages = depot.pages(key);
    if page < pages {
        pages
    } else {
        depot.places(key)
    }
}

/// Whether a wire has failed: its streak is the longest.
fn has_failed<W: Wire>(wire: &W) -> bool
    ensures yes { result ≡ true → W.streak wire.now ≡ LONGEST_STREAK }
    ensures no { result ≡ false → W.streak wire.now < LONGEST_STREAK }
{
    wire.streak() == LONGEST_STREAK
}
