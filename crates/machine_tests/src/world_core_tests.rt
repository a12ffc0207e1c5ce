//! Worlds of machines: that their calls succeed, where there is memory.

ghost use Rattle.std.specs.Prelude.{◌≤◌, IfOk, length};
ghost use Rattle.drive_script.specs.Driven.{HasMachines};
ghost use Rattle.drive_script.specs.Steps.{Family};

use crate::drive_script_tests::in_form;
use crate::equal::{are_equal, succeeds};
use crate::guests::{TWO_CHILDREN, booted, with_clones};
use crate::told::tells;
use drive_script::drive;
use forest_model::Options;
use image_depot::Depot;
use std::alloc::{AllocError, Global};
use std::process::Abort;
use std::sync::Wait;
use world_core::{Placed, Taken, World};

// The world of the machine of these words.
fn started(
    rt: &impl Abort,
    alloc: Global,
    words: &[u32],
    options: Options,
    depot: &Depot,
) -> Result<World, AllocError>
    requires words { length words.now ≤ 64 }
    requires least { 1 ≤ options.limit }
    requires most { options.limit ≤ 1_000_000 }
    requires clones { options.allot ≤ 4096 }
    ensures { IfOk result (λ world. (t : Family) × HasMachines depot.now world t) }
{
    let vm = booted(rt, alloc, words, options);
    let world = World::new(alloc, vm, depot)?;
    Ok(world)
}

/// What a family does line by line, and what it writes. Two names are of no machine: one has more forks than any,
/// and one is of a child that the ticket does not have.
static SCRIPT: &[u8] =
    b"step 0 12\nstep 0.1.1.1.1.1.1 5\nstep 0.1.3 5\nask 0.1.2\npush 0.1.1 9\ngive 0.1.2 0\nstep 0.1.2 9\nstep 0 9\nstep 0.1.1 6\ngive 0.1.1 0\ngive 0.1.1 0\nstep 0.1.1 6\nstep 0 7\nstep 0 1\n";

static TOLD: &[u8] =
    b"0 ran 12 ok\n0.1.1.1.1.1.1 none\n0.1.3 none\n0.1.2 ask 0 0\n0.1.1 push 9 1\n0.1.2 got 0\n0.1.2 ran 6 exit 42\n0 ran 2 wait 1\n0.1.1 ran 0 stall 0\n0.1.1 got 0\n0.1.1 had 0\n0.1.1 ran 6 exit 41\n0 ran 7 exit 41\n0 none\n";

// What is done with a world that was just made.
#[derive(Clone, Copy)]
pub(crate) enum Deed<'a> {
    // A script drives it, and writes this.
    Drive(&'a [u8], &'a [u8]),
    // A script drives it until the root has ended.
    Finish,
    // A machine is taken and given back.
    GiveBack,
    // A reply is told, and heard.
    Tell,
}

fn world_does<R: Abort + Wait>(
    rt: &R,
    alloc: Global,
    world: &mut World,
    depot: &Depot,
    deed: Deed<'_>,
)
    requires { (t : Family) × HasMachines depot.now world.old t }
{
    match deed {
        Deed::Drive(script, text) => drives(rt, alloc, world, depot, script, text),
        Deed::Finish => finishes(rt, alloc, world, depot),
        Deed::GiveBack => gives_back(rt, alloc, world, depot),
        Deed::Tell => tells(rt, alloc, world, depot),
    }
}

// Does this with the world of the machine of these words.
pub(crate) fn family_does<R: Abort + Wait>(
    rt: &R,
    alloc: Global,
    words: &[u32],
    options: Options,
    deed: Deed<'_>,
)
    requires words { length words.now ≤ 64 }
    requires least { 1 ≤ options.limit }
    requires most { options.limit ≤ 1_000_000 }
    requires clones { options.allot ≤ 4096 }
{
    let depot = succeeds(rt, Depot::new(alloc));
    let mut world = succeeds(rt, started(rt, alloc, words, options, &depot));
    world_does(rt, alloc, &mut world, &depot, deed);
}

// Does this with the world of the machine of two children.
pub(crate) fn does<R: Abort + Wait>(rt: &R, alloc: Global, deed: Deed<'_>) {
    family_does(rt, alloc, &TWO_CHILDREN, with_clones(2), deed);
}

#[test]
fn a_script_drives_a_family(rt: HostRuntime) {
    does(&rt, rt.alloc(), Deed::Drive(SCRIPT, TOLD));
}

fn drives<R: Abort + Wait>(
    rt: &R,
    alloc: Global,
    world: &mut World,
    depot: &Depot,
    script: &[u8],
    text: &[u8],
)
    requires { (t : Family) × HasMachines depot.now world.old t }
{
    let script = in_form(rt, alloc, script);
    let told = succeeds(rt, drive(rt, alloc, &script, world, depot));
    are_equal(rt, &told.as_slice(), &text);
}

#[test]
fn a_world_lends_the_outcome_once_its_root_has_ended(rt: HostRuntime) {
    does(&rt, rt.alloc(), Deed::Finish);
}

fn finishes<R: Abort + Wait>(rt: &R, alloc: Global, world: &mut World, depot: &Depot)
    requires { (t : Family) × HasMachines depot.now world.old t }
{
    let before = world.finished().is_some();
    drives(rt, alloc, world, depot, SCRIPT, TOLD);
    are_equal(rt, &[before, world.finished().is_some()], &[false, true]);
}

#[test]
fn a_machine_is_taken_and_given_back(rt: HostRuntime) {
    does(&rt, rt.alloc(), Deed::GiveBack);
}

fn gives_back(rt: &impl Abort, alloc: Global, world: &mut World, depot: &Depot)
    requires { (t : Family) × HasMachines depot.now world.old t }
{
    let is_so = succeeds(rt, is_given_back(alloc, world, depot));
    are_equal(rt, &is_so, &true);
}

// Whether a machine is taken, and comes back.
fn is_given_back(alloc: Global, world: &mut World, depot: &Depot) -> Result<bool, AllocError>
    requires { (t : Family) × HasMachines depot.now world.old t }
{
    let lease = match world.take(alloc, depot) {
        Taken::Took(lease) => lease,
        Taken::Memory => return Err(AllocError),
        Taken::Over | Taken::Idle | Taken::Stuck | Taken::Stopped(_) => return Ok(false),
    };
    match world.give(lease) {
        Placed::Done => Ok(true),
        Placed::Parked | Placed::Dropped => Ok(false),
        Placed::Memory(_lease) => unreachable!(),
    }
}
