//! The command `drive`: a guest's family is driven by a script.

ghost use Rattle.std.specs.Prelude.{◌≡◌, ◌≤◌, [], ◌∷◌, length, vec_len, IfErr, IfOk};
ghost use Rattle.std.specs.Option.{option_map};
ghost use Rattle.drive_script.specs.Driven.{HasMachines};
ghost use Rattle.drive_script.specs.Script.{script};
ghost use Rattle.drive_script.specs.Steps.{Family};
ghost use Rattle.io_edge.specs.Outside.{HasRisen};
ghost use Rattle.command_line.specs.Words.{drive};
ghost use Rattle.guest_files.specs.Parts.{AreAsked, Gives, HasMade, IsFaultOf, IsLoadOf, Makes, StopsAt, load_of, loads_of};
ghost use Rattle.command_texts.specs.Text.{drive_text, drive_with, lines_of, script_read, told_by};
ghost use Rattle.command_texts.specs.Writes.{IsSilent, Writes};

use crate::guest::boot;
use command_line::GuestWords;
use drive_script::{MAX_SCRIPT, Script, ScriptError, drive, read_script};
use guest_files::{GuestFiles, SCRIPT_LOAD, SCRIPT_TOO_LONG, Stop, load_file, read_guest};
use image_depot::Depot;
use io_edge::{Shelf, Sink, WriteFault, put_all};
use std::alloc::Global;
use std::sync::Wait;
use world_core::World;

/// Drives a guest's family by a script and writes what the script tells.
pub fn drive_and_write<R: AllocGlobal + Wait, S: Shelf, K: Sink>(
    rt: &R,
    guest: &GuestWords<'_>,
    script: &str,
    shelf: &mut S,
    sink: &mut K,
) -> Result<(), Stop>
    ensures writes { Writes (drive guest.now script.now) (S.files shelf.old)
        (λ load. HasRisen (S.faults shelf.old) (S.faults shelf.new)
        × IsFaultOf (loads_of (drive guest.now script.now)) load (S.asked shelf.old) (S.asked shelf.new))
        (HasRisen (K.faults sink.old) (K.faults sink.new)) ⊥
        (K.gone sink.old) (K.gone sink.new) result }
    ensures loads { HasMade (loads_of (drive guest.now script.now)) result (S.asked shelf.old) (S.asked shelf.new) }
    ensures silent { IsSilent result (sink.new ≡ sink.old) }
{
    let text = drive_guest(rt, guest, script, shelf)?;
    match put_all(sink, &text) {
        Ok(()) => Ok(()),
        Err(WriteFault) => Err(Stop::WriteFault),
    }
}

/// Reads a guest and a script, and gives what the script tells of the guest's family.
fn drive_guest<R: AllocGlobal + Wait, S: Shelf>(
    rt: &R,
    guest: &GuestWords<'_>,
    script: &str,
    shelf: &mut S,
) -> Result<Vec<u8>, Stop>
    ensures gives { Gives SCRIPT_LOAD (λ load. IsLoadOf (drive guest.now script.now) load
        × HasRisen (S.faults shelf.old) (S.faults shelf.new) × IsFaultOf (loads_of (drive guest.now script.now)) load (S.asked shelf.old) (S.asked shelf.new))
        (option_map (drive_text guest.now script.now) (S.files shelf.old)) (λ text told. text.items ≡ told) result }
    ensures loads { HasMade (loads_of (drive guest.now script.now)) result (S.asked shelf.old) (S.asked shelf.new) }
{
    let files = read_guest(rt.alloc(), guest, shelf)?;
    let text = load_script(rt.alloc(), script, shelf)?;
    drive_files(rt, guest, &files, &text)
}

/// The text of a script.
fn load_script<S: Shelf>(alloc: Global, name: &str, shelf: &mut S) -> Result<Vec<u8>, Stop>
    ensures gives { Gives SCRIPT_LOAD (λ load. (load ≡ SCRIPT_LOAD) × HasRisen (S.faults shelf.old) (S.faults shelf.new)
        × IsFaultOf (load_of SCRIPT_LOAD name.now ∷ []) load (S.asked shelf.old) (S.asked shelf.new))
        (option_map (script_read name.now) (S.files shelf.old)) (λ bytes told. bytes.items ≡ told) result }
    ensures most { IfOk result (λ bytes. vec_len bytes ≤ MAX_SCRIPT) }
    ensures same { S.files shelf.new ≡ S.files shelf.old }
    ensures counts { S.faults shelf.old ≤ S.faults shelf.new }
    ensures asked { AreAsked (load_of SCRIPT_LOAD name.now ∷ []) (S.asked shelf.old) (S.asked shelf.new) }
    ensures stops { IfErr result (StopsAt SCRIPT_LOAD (Stop.ScriptRefused 0 SCRIPT_TOO_LONG)) }
{
    let too_long = Stop::ScriptRefused {
        line: 0,
        kind: SCRIPT_TOO_LONG,
    };
    load_file(alloc, shelf, name, SCRIPT_LOAD, MAX_SCRIPT, too_long)
}

/// Boots a guest that was read, reads the lines of the script, and does what they say.
fn drive_files<R: AllocGlobal + Wait>(
    rt: &R,
    guest: &GuestWords<'_>,
    files: &GuestFiles,
    text: &[u8],
) -> Result<Vec<u8>, Stop>
    requires { length text.now ≤ MAX_SCRIPT }
    ensures { Makes (drive_with guest.now files.now text.now) (λ text told. text.items ≡ told) result }
{
    let depot = Depot::new(rt.alloc())?;
    drive_booted(rt, guest, files, text, &depot)
}

/// The same, with a depot for the images of the family.
fn drive_booted<R: AllocGlobal + Wait>(
    rt: &R,
    guest: &GuestWords<'_>,
    files: &GuestFiles,
    text: &[u8],
    depot: &Depot,
) -> Result<Vec<u8>, Stop>
    requires { length text.now ≤ MAX_SCRIPT }
    ensures { Makes (drive_with guest.now files.now text.now) (λ text told. text.items ≡ told) result }
{
    let (mut world, _) = boot(rt.alloc(), guest, files, depot)?;
    drive_world(rt, text, &mut world, depot)
}

/// What the lines of a script tell of the family of a world.
fn drive_world<R: AllocGlobal + Wait>(
    rt: &R,
    text: &[u8],
    world: &mut World,
    depot: &Depot,
) -> Result<Vec<u8>, Stop>
    requires most { length text.now ≤ MAX_SCRIPT }
    requires family { (t : Family) × HasMachines depot.now world.old t }
    ensures { (t : Family) → HasMachines depot.now world.old t → Makes (told_by text.now t) (λ text told. text.items ≡ told) result }
{
    let script = script_of(rt.alloc(), text)?;
    let told = drive(rt, rt.alloc(), &script, world, depot)?;
    Ok(told)
}

/// The lines of a script.
fn script_of(alloc: Global, text: &[u8]) -> Result<Script, Stop>
    requires { length text.now ≤ MAX_SCRIPT }
    ensures { Makes (lines_of (script text.now)) (λ lines told. lines ≡ told) result }
{
    match read_script(alloc, text) {
        Ok(script) => Ok(script),
        Err(ScriptError::Refused { line, kind }) => Err(Stop::ScriptRefused { line, kind }),
        Err(ScriptError::Memory) => Err(Stop::Memory),
    }
}
