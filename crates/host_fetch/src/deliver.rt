//! What becomes of the replies that wait.

ghost use Rattle.std.specs.Prelude.{◌≡◌, Some, true, map, slice_set, vec_len, OnOk, OnErr};
ghost use Rattle.std.specs.List.{All};
ghost use Rattle.std.specs.Option.{ForSome};
ghost use Rattle.wire_fates.specs.Fates.{IsAmong};
ghost use Rattle.image_depot.specs.Key.{IsKeyOf};
ghost use Rattle.host_fetch.specs.Asked.{reply_in};
ghost use Rattle.host_fetch.specs.Fetch.{here_after, waiting_after};

use crate::waiting::Waiting;
use image_depot::{Depot, Parcel, Receiver};
use std::alloc::{AllocError, Global};
use wire_fates::Fate;

/// A fate comes to pass: a reply is given to the receiver, or it waits no more, or both.
pub fn deliver<T: Receiver>(
    alloc: Global,
    receiver: &mut T,
    depot: &Depot,
    waiting: &mut Vec<Waiting<'_>>,
    fate: Fate,
) -> Result<(), AllocError>
    requires among { IsAmong (vec_len waiting.old) fate }
    requires of_depot { ForSome (T.key receiver.old) (IsKeyOf depot.now) }
    requires of_image { All (λ w. T.key receiver.old ≡ Some (reply_in w).key) waiting.old.items }
    ensures here { OnOk result (T.here receiver.new ≡ here_after fate (map (λ w. (reply_in w).page) waiting.old.items) (T.here receiver.old)) }
    ensures waiting { map reply_in waiting.new.items ≡ waiting_after fate (map reply_in waiting.old.items) }
    ensures key { T.key receiver.new ≡ T.key receiver.old }
    ensures rest { T.rest receiver.new ≡ T.rest receiver.old }
    ensures err { OnErr result (receiver.new ≡ receiver.old) }
{
    match fate {
        Fate::Give(place) => {
            let given = waiting.remove(place);
            give(alloc, receiver, depot, given.parcel())
        }
        Fate::Again(place) => { give(alloc, receiver, depot, waiting[place].parcel()) }
        Fate::Lose(place) => {
            let _ = waiting.remove(place);
            Ok(())
        }
    }
}

/// Gives a reply to the receiver. Its page is here then.
fn give<T: Receiver>(
    alloc: Global,
    receiver: &mut T,
    depot: &Depot,
    parcel: &Parcel,
) -> Result<(), AllocError>
    requires of_depot { ForSome (T.key receiver.old) (IsKeyOf depot.now) }
    requires of_image { T.key receiver.old ≡ Some parcel.now.key }
    ensures here { OnOk result (T.here receiver.new ≡ slice_set (T.here receiver.old) parcel.now.page true) }
    ensures key { T.key receiver.new ≡ T.key receiver.old }
    ensures rest { T.rest receiver.new ≡ T.rest receiver.old }
    ensures err { OnErr result (receiver.new ≡ receiver.old) }
{
    receiver.arrive(alloc, depot, parcel)?;
    Ok(())
}
