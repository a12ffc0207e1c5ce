//! A machine's turn: it is taken, runs up to its next call or talk and comes back.

ghost use Rattle.std.specs.Prelude.{◌≡◌, ◌+◌, None, Some, true, MatchResult};
ghost use Rattle.image_depot.specs.Key.{Shelves};
ghost use Rattle.forest_model.specs.Paged.{paged_machines, paged_talks};
ghost use Rattle.vm_cell.specs.Keyed.{IsOfDepot};
ghost use Rattle.vm_cell.specs.Standing.{standing_call, standing_talk};
ghost use Rattle.world_core.specs.Lent.{vm_of};
ghost use Rattle.world_core.specs.Told.{told_of};
ghost use Rattle.world_core.specs.World.{Forest, StandsFor, reason_of};
ghost use Rattle.world_core.specs.declared.world.World.{World};
ghost use Rattle.world_core.specs.Answers.{IsHandedOut, IsLentOf, join_ticket};
ghost use Rattle.drive_script.specs.Driven.{HasMachines};
ghost use Rattle.drive_script.specs.Steps.{Family, stall_told, why_at};
ghost use Rattle.drive_script.specs.Turned.{AnswersCall, Brings, EndsTurn, HasBack, HasLent, HasRun, MayGo, awaited_of, is_asking, standing};

use crate::answer::Why;
use fetch_proto::page_number;
use fork_port::Call;
use image_depot::{Depot, Receiver};
use machine_names::Name;
use sibling_port::Talk;
use std::alloc::{AllocError, Global};
use std::sync::Wait;
use vm_cell::{Arrived, Slots};
use world_core::{Lease, Placed, World};

/// What a machine did in its turn.
#[derive(Clone, Copy)]
pub(crate) enum TurnOutcome {
    /// No live machine has the name.
    NoMachine,
    /// It made so many steps, and stopped.
    Stopped { steps: u64, why: Why },
    /// It made so many steps, and the last of them was a call or a talk.
    Called { steps: u64 },
}

/// Takes the machine of a name, if one lives, and lets it make at most so many steps.
pub(crate) fn take_turn<R: Wait>(
    rt: &R,
    alloc: Global,
    world: &mut World,
    name: &Name,
    most: u64,
    depot: &Depot,
) -> Result<TurnOutcome, AllocError>
    requires { (t : Family) × HasMachines depot.now world.old t }
    ensures turns { (t : Family) → HasMachines depot.now world.old t → EndsTurn depot.now name.now most t result world.new }
    ensures reason { reason_of world.new ≡ reason_of world.old }
    ensures told { told_of world.new ≡ told_of world.old }
{
    match world.take_named(alloc, name, depot)? {
        Some(lease) => run_turn(rt, alloc, world, lease, most, depot),
        None => Ok(TurnOutcome::NoMachine),
    }
}

/// Runs a machine up to its end, to a page that is not here or to its next call or talk. Where steps are left it makes that,
/// unless it waits.
fn run_turn<R: Wait>(
    rt: &R,
    alloc: Global,
    world: &mut World,
    mut lease: Lease,
    most: u64,
    depot: &Depot,
) -> Result<TurnOutcome, AllocError>
    requires lent { (t : Family) × HasLent depot.now world.old t lease }
    requires new { lease.ran ≡ 0 }
    ensures turns { (t : Family) → HasLent depot.now world.old t lease → EndsTurn depot.now lease.name most t result world.new }
    ensures reason { reason_of world.new ≡ reason_of world.old }
    ensures told { told_of world.new ≡ told_of world.old }
{
    let Ok(ran) = lease.run(&mut Slots::new(alloc), most) else {
        give_back(world, lease);
        return Err(AllocError);
    };
    if ran.steps < most && is_asking(&lease) && !world.waits(&lease) {
        make_call(rt, alloc, world, lease, depot)?;
        return Ok(TurnOutcome::Called {
            steps: ran.steps + 1,
        });
    }
    let why = why_it_stops(world, &lease);
    give_back(world, lease);
    Ok(TurnOutcome::Stopped {
        steps: ran.steps,
        why,
    })
}

/// Whether the next step of the machine on lease is a call or a talk.
fn is_asking(lease: &Lease) -> bool
    ensures { result ≡ is_asking (vm_of lease.now) }
{
    lease.call().is_some() || lease.talk().is_some()
}

/// Why the machine on lease stops where it stands.
fn why_it_stops(world: &World, lease: &Lease) -> Why
    ensures { (depot : Shelves) (t : Family) → HasLent depot world.now t lease.now
        → why_at paged_machines paged_talks stall_told lease.now.name (standing lease.now t) ≡ Some result }
{
    if let Some(ending) = lease.ended() {
        return Why::Ended(ending);
    }
    if let Some(page) = Receiver::wanted(lease) {
        // The call tells that the disk has few pages.
        let _ = lease.places();
        return Why::Stalls(page_number(lease.pages(), page));
    }
    if world.waits(lease) {
        awaited(lease)
    } else {
        Why::MayGoOn
    }
}

/// What the machine on lease waits for, if it waits with its next step.
fn awaited(lease: &Lease) -> Why
    ensures { result ≡ awaited_of (standing_talk (vm_of lease.now)) (join_ticket (standing_call (vm_of lease.now))) }
{
    match lease.talk() {
        Some(Talk::Send(to)) => Why::Sends(to),
        Some(Talk::Receive(from)) => Why::Receives(from),
        None => lease.joins().map_or(Why::MayGoOn, Why::Waits),
    }
}

/// Lets the page of a reply come to a machine that has made no step, if it has such a page. The reply is made here: no
/// image ever changes, so that it is the one that was sent.
pub(crate) fn bring(
    alloc: Global,
    lease: &mut Lease,
    depot: &Depot,
    page: u32,
) -> Result<Option<Arrived>, AllocError>
    requires of_depot { IsOfDepot depot.now lease.old.key }
    requires new { lease.old.ran ≡ 0 }
    ensures { (w : World) (t : Family) → HasLent depot.now w t lease.old → Brings depot.now w t page lease.old result lease.new }
{
    if page >= lease.places() {
        return Ok(None);
    }
    let Some(key) = lease.key() else {
        // A machine that was booted has every page.
        return Ok(Some(Arrived::Had(page)));
    };
    let parcel = depot.answer(key, page)?;
    let arrived = lease.arrive(alloc, depot, &parcel)?;
    Ok(Some(arrived))
}

/// Gives a machine back that makes no call and no talk.
pub(crate) fn give_back(world: &mut World, lease: Lease)
    requires { (depot : Shelves) × (t : Family) × HasLent depot world.old t lease }
    ensures back { (depot : Shelves) (t : Family) → HasLent depot world.old t lease → HasBack depot world.new t lease }
    ensures reason { reason_of world.new ≡ reason_of world.old }
    ensures told { told_of world.new ≡ told_of world.old }
{
    match world.give(lease) {
        Placed::Done | Placed::Parked | Placed::Dropped => {}
        Placed::Memory(_lease) => unreachable!(),
    }
}

/// Makes the call or the talk at which a machine stands, which does not wait. Where memory is wanting the machine is
/// given back as it is.
fn make_call<R: Wait>(
    rt: &R,
    alloc: Global,
    world: &mut World,
    lease: Lease,
    depot: &Depot,
) -> Result<(), AllocError>
    requires lent { (t : Family) × HasLent depot.now world.old t lease × MayGo t lease }
    requires asks { is_asking (vm_of lease) ≡ true }
    ensures made { (t : Family) → HasLent depot.now world.old t lease
        → MatchResult result (λ _. HasRun depot.now lease.name (lease.ran + 1) t world.new) (λ _. HasBack depot.now world.new t lease) }
    ensures reason { reason_of world.new ≡ reason_of world.old }
    ensures told { told_of world.new ≡ told_of world.old }
{
    match try_call(rt, alloc, world, lease, depot) {
        Placed::Done => Ok(()),
        Placed::Memory(lease) => {
            give_back(world, lease);
            Err(AllocError)
        }
        Placed::Parked | Placed::Dropped => unreachable!(),
    }
}

/// Makes the call or the talk at which a machine stands.
fn try_call<R: Wait>(
    rt: &R,
    alloc: Global,
    world: &mut World,
    lease: Lease,
    depot: &Depot,
) -> Placed
    requires lent { (t : Family) × HasLent depot.now world.old t lease }
    requires asks { is_asking (vm_of lease) ≡ true }
    ensures answers { (f : Forest) → StandsFor depot.now world.old f → IsHandedOut f lease → IsLentOf depot.now lease
        → AnswersCall depot.now f lease result world.new }
    ensures told { told_of world.new ≡ told_of world.old }
{
    match lease.call() {
        Some(Call::Clone(_)) => world.fork(rt, alloc, lease, depot),
        Some(Call::Join(_)) => world.join(alloc, lease),
        Some(Call::Kill(_)) => world.kill(lease),
        None => world.talk(alloc, lease),
    }
}
