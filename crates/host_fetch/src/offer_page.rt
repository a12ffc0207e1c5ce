//! A page that is wanted, from the replies that were heard.

ghost use Rattle.std.specs.Prelude.{◌≡◌, true, false, is_some, IfOk, OnErr};
ghost use Rattle.std.specs.Option.{ForSome};
ghost use Rattle.image_depot.specs.Key.{IsKeyOf};
ghost use Rattle.image_depot.specs.Receiver.{IsHere};
ghost use Rattle.host_fetch.specs.Fetch.{Grows};
ghost use Rattle.host_fetch.specs.Heard.{AreHeardOf, found_for};

use crate::heard::Heard;
use image_depot::{Depot, Receiver};
use std::alloc::{AllocError, Global};

/// Gives a receiver the page that it wants, where a reply with it was heard, and tells whether it did.
pub fn offer<T: Receiver>(
    alloc: Global,
    receiver: &mut T,
    depot: &Depot,
    heard: &Heard,
) -> Result<bool, AllocError>
    requires of_depot { ForSome (T.key receiver.old) (IsKeyOf depot.now) }
    requires heard { AreHeardOf depot.now heard.now }
    ensures value { IfOk result (λ is_here. is_here ≡ is_some (found_for (T.wanted receiver.old) (T.key receiver.old) heard.now)) }
    ensures here { IfOk result (λ is_here. is_here ≡ true → ForSome (T.wanted receiver.old) (IsHere (T.here receiver.new))) }
    ensures not { IfOk result (λ is_here. is_here ≡ false → receiver.new ≡ receiver.old) }
    ensures err { OnErr result (receiver.new ≡ receiver.old) }
    ensures key { T.key receiver.new ≡ T.key receiver.old }
    ensures rest { T.rest receiver.new ≡ T.rest receiver.old }
    ensures grows { Grows (T.here receiver.old) (T.here receiver.new) }
{
    let Some(page) = receiver.wanted() else {
        return Ok(false);
    };
    let Some(key) = receiver.key() else {
        return Ok(false);
    };
    let Some(sent) = heard.reply(key.number(), page) else {
        return Ok(false);
    };
    let _ = receiver.arrive(alloc, depot, depot.sent(sent))?;
    Ok(true)
}
