//! A world of machines that is driven by a script.

ghost use Rattle.std.specs.Prelude.{◌≡◌, Some, None, IfOk};
ghost use Rattle.image_depot.specs.Key.{Shelves};
ghost use Rattle.world_core.specs.Told.{told_of};
ghost use Rattle.world_core.specs.World.{reason_of};
ghost use Rattle.drive_script.specs.Driven.{Drives, DrivesLine, HasMachines, IsNameIn, Keeps};
ghost use Rattle.drive_script.specs.Lines.{line_read};
ghost use Rattle.drive_script.specs.Script.{ask, give, peek, push, regs, step};
ghost use Rattle.drive_script.specs.Steps.{Family};
ghost use Rattle.drive_script.specs.Told.{Driven, after_line, unanswered};

use crate::answer::{Answer, Why, arrival_told, sent_told};
use crate::line::ScriptLine;
use crate::name::NameText;
use crate::replies::Replies;
use crate::script::Script;
use crate::turn::{TurnOutcome, bring, give_back, take_turn};
use fetch_proto::page_place;
use fork_port::Ending;
use image_depot::{Depot, Receiver};
use machine_names::Name;
use std::alloc::{AllocError, Global};
use std::fmt::Write;
use std::sync::Wait;
use world_core::World;

/// Does what the lines of a script say, one after another, and gives the text that they write. No machine is
/// on lease, before and after. Where memory is wanting the lines before that are done, and of the line at which
/// it was wanting the steps that were made, or the page that came. The world's reason to stop stays, and
/// so do the replies that it was told.
pub fn drive<R: Wait>(
    rt: &R,
    alloc: Global,
    script: &Script,
    world: &mut World,
    depot: &Depot,
) -> Result<Vec<u8>, AllocError>
    requires { (t : Family) × HasMachines depot.now world.old t }
    ensures drives { (t : Family) → HasMachines depot.now world.old t → Drives depot.now script.now t result world.new }
    ensures reason { reason_of world.new ≡ reason_of world.old }
    ensures told { told_of world.new ≡ told_of world.old }
{
    let mut text = String::new(alloc);
    let mut replies = Replies::new(alloc);
    'lines: for line in script.lines() {
        let name = line.name();
        let answer = answer_line(rt, alloc, world, &mut replies, line, depot)?;
        write!(text, "{name} {answer}\n")?;
    }
    Ok(text.into_bytes())
}

/// Does what a line says, and gives its answer.
fn answer_line<R: Wait>(
    rt: &R,
    alloc: Global,
    world: &mut World,
    replies: &mut Replies,
    line: &ScriptLine,
    depot: &Depot,
) -> Result<Answer, AllocError>
    requires { (t : Family) × HasMachines depot.now world.old t }
    ensures drives { (s : Driven) → HasMachines depot.now world.old s.tree → Keeps replies.old.lists s.sent
        → DrivesLine depot.now (line_read line.now) s result world.new }
    ensures keeps { (s : Driven) → HasMachines depot.now world.old s.tree → Keeps replies.old.lists s.sent
        → IfOk result (λ answer. Keeps replies.new.lists (after_line (line_read line.now) s).sent) }
    ensures reason { reason_of world.new ≡ reason_of world.old }
    ensures told { told_of world.new ≡ told_of world.old }
{
    let Some(name) = name_for(alloc, world, line.name())? else {
        return Ok(not_answered(line));
    };
    match line {
        ScriptLine::Step { most, .. } => step(rt, alloc, world, &name, u64::from(*most), depot),
        ScriptLine::Ask { .. } => ask(alloc, world, replies, &name, depot),
        ScriptLine::Push { page, .. } => push(alloc, world, replies, &name, *page, depot),
        ScriptLine::Give { place, .. } => give(alloc, world, replies, &name, *place, depot),
        ScriptLine::Peek { address, .. } => peek(alloc, world, &name, *address, depot),
        ScriptLine::Regs { .. } => regs(alloc, world, &name, depot),
    }
}

/// What a line answers where no live machine has its name.
fn not_answered(line: &ScriptLine) -> Answer
    ensures { result ≡ unanswered (line_read line.now) }
{
    match line {
        ScriptLine::Ask { .. } => Answer::Ask(None),
        ScriptLine::Push { .. } => Answer::Push(None),
        ScriptLine::Give { .. } => Answer::Give(None),
        ScriptLine::Step { .. } | ScriptLine::Peek { .. } | ScriptLine::Regs { .. } =>
            Answer::NoMachine,
    }
}

/// The name of a line put together, or nothing where no machine has a name of so many forks.
fn name_for(alloc: Global, world: &World, name: &NameText) -> Result<Option<Name>, AllocError>
    ensures { (depot : Shelves) (t : Family) → HasMachines depot world.now t → IsNameIn name.now t result }
{
    if !world.reaches(name.depth()) {
        return Ok(None);
    }
    Ok(Some(name.name(alloc)?))
}

/// Lets a machine make at most so many steps.
fn step<R: Wait>(
    rt: &R,
    alloc: Global,
    world: &mut World,
    name: &Name,
    most: u64,
    depot: &Depot,
) -> Result<Answer, AllocError>
    requires { (t : Family) × HasMachines depot.now world.old t }
    ensures drives { (s : Driven) → HasMachines depot.now world.old s.tree → DrivesLine depot.now (step name.now most) s result world.new }
    ensures reason { reason_of world.new ≡ reason_of world.old }
    ensures told { told_of world.new ≡ told_of world.old }
{
    let mut made = 0;
    loop {
        match take_turn(rt, alloc, world, name, most - made, depot)? {
            TurnOutcome::Called { steps } => made += steps,
            TurnOutcome::Stopped { steps, why } => {
                return Ok(Answer::Ran {
                    steps: made + steps,
                    why,
                });
            }
            TurnOutcome::NoMachine if made == 0 => return Ok(Answer::NoMachine),
            // A machine that has ended at a call or a talk has ended by its limit.
            TurnOutcome::NoMachine => {
                return Ok(Answer::Ran {
                    steps: made,
                    why: Why::Ended(Ending::Limit),
                });
            }
        }
    }
}

/// Sends a reply with the page at which a machine stalls.
fn ask(
    alloc: Global,
    world: &mut World,
    replies: &mut Replies,
    name: &Name,
    depot: &Depot,
) -> Result<Answer, AllocError>
    requires { (t : Family) × HasMachines depot.now world.old t }
    ensures drives { (s : Driven) → HasMachines depot.now world.old s.tree → Keeps replies.old.lists s.sent
        → DrivesLine depot.now (ask name.now) s result world.new }
    ensures keeps { (s : Driven) → HasMachines depot.now world.old s.tree → Keeps replies.old.lists s.sent
        → IfOk result (λ answer. Keeps replies.new.lists (after_line (ask name.now) s).sent) }
    ensures reason { reason_of world.new ≡ reason_of world.old }
    ensures told { told_of world.new ≡ told_of world.old }
{
    let Some(lease) = world.take_named(alloc, name, depot)? else {
        return Ok(Answer::Ask(None));
    };
    let page = Receiver::wanted(&lease);
    // The call tells that the disk has few pages.
    let _ = lease.places();
    let ram_pages = lease.pages();
    give_back(world, lease);
    let sent = replies.send(alloc, name, page)?;
    Ok(Answer::Ask(sent_told(ram_pages, sent)))
}

/// Sends a reply with the page of a number, if the machine has it.
fn push(
    alloc: Global,
    world: &mut World,
    replies: &mut Replies,
    name: &Name,
    page: u32,
    depot: &Depot,
) -> Result<Answer, AllocError>
    requires { (t : Family) × HasMachines depot.now world.old t }
    ensures drives { (s : Driven) → HasMachines depot.now world.old s.tree → Keeps replies.old.lists s.sent
        → DrivesLine depot.now (push name.now page) s result world.new }
    ensures keeps { (s : Driven) → HasMachines depot.now world.old s.tree → Keeps replies.old.lists s.sent
        → IfOk result (λ answer. Keeps replies.new.lists (after_line (push name.now page) s).sent) }
    ensures reason { reason_of world.new ≡ reason_of world.old }
    ensures told { told_of world.new ≡ told_of world.old }
{
    let Some(lease) = world.take_named(alloc, name, depot)? else {
        return Ok(Answer::Push(None));
    };
    let ram_pages = lease.pages();
    let page = page_place(ram_pages, lease.places() - ram_pages, page);
    give_back(world, lease);
    let sent = replies.send(alloc, name, page)?;
    Ok(Answer::Push(sent_told(ram_pages, sent)))
}

/// Lets the reply at a place arrive at a machine.
fn give(
    alloc: Global,
    world: &mut World,
    replies: &Replies,
    name: &Name,
    place: u32,
    depot: &Depot,
) -> Result<Answer, AllocError>
    requires { (t : Family) × HasMachines depot.now world.old t }
    ensures drives { (s : Driven) → HasMachines depot.now world.old s.tree → Keeps replies.now.lists s.sent
        → DrivesLine depot.now (give name.now place) s result world.new }
    ensures reason { reason_of world.new ≡ reason_of world.old }
    ensures told { told_of world.new ≡ told_of world.old }
{
    let Some(page) = replies.page_at(alloc, name, place)? else {
        return Ok(Answer::Give(None));
    };
    let Some(mut lease) = world.take_named(alloc, name, depot)? else {
        return Ok(Answer::Give(None));
    };
    // The call tells that the disk has few pages.
    let _ = lease.places();
    let ram_pages = lease.pages();
    let arrived = bring(alloc, &mut lease, depot, page);
    give_back(world, lease);
    Ok(Answer::Give(arrival_told(ram_pages, arrived?)))
}

/// Reads a word of a machine's RAM.
fn peek(
    alloc: Global,
    world: &mut World,
    name: &Name,
    address: u32,
    depot: &Depot,
) -> Result<Answer, AllocError>
    requires { (t : Family) × HasMachines depot.now world.old t }
    ensures drives { (s : Driven) → HasMachines depot.now world.old s.tree → DrivesLine depot.now (peek name.now address) s result world.new }
    ensures reason { reason_of world.new ≡ reason_of world.old }
    ensures told { told_of world.new ≡ told_of world.old }
{
    let Some(lease) = world.take_named(alloc, name, depot)? else {
        return Ok(Answer::NoMachine);
    };
    let word = lease.peek(depot, address);
    give_back(world, lease);
    Ok(Answer::Word(word))
}

/// Reads a machine's pc and its registers.
fn regs(alloc: Global, world: &mut World, name: &Name, depot: &Depot) -> Result<Answer, AllocError>
    requires { (t : Family) × HasMachines depot.now world.old t }
    ensures drives { (s : Driven) → HasMachines depot.now world.old s.tree → DrivesLine depot.now (regs name.now) s result world.new }
    ensures reason { reason_of world.new ≡ reason_of world.old }
    ensures told { told_of world.new ≡ told_of world.old }
{
    let Some(lease) = world.take_named(alloc, name, depot)? else {
        return Ok(Answer::NoMachine);
    };
    let values = lease.regs();
    give_back(world, lease);
    Ok(Answer::Registers(values))
}
