//! What the program does with its words.

ghost use Rattle.std.specs.Prelude.{◌≡◌, ◌↔◌, ◌<◌, ◌≤◌, true, None, IfErr, vec_len};
ghost use Rattle.io_edge.specs.Outside.{HasRisen};
ghost use Rattle.command_line.specs.Commands.{meaning};
ghost use Rattle.command_line.specs.Words.{meant, texts};
ghost use Rattle.guest_files.specs.Parts.{HasMade, IsDataRefusal, IsFaultOf, IsImageRefusal, IsScriptRefusal, loads_of};
ghost use Rattle.command_texts.specs.Lost.{IsLost, IsLostIn};
ghost use Rattle.command_texts.specs.Seeded.{AreSeeded, AreSeededIn, IfBefore, IfRun, is_before, is_run};
ghost use Rattle.command_texts.specs.Writes.{IsGenerated, IsSilent, IsUnrefused, Writes};
ghost use Rattle.command_texts.specs.Status.{AreLoaded, ArePartlyLoaded, Completes, IsFaultAsked, IsFileless, IsLoadAsked, IsPrefixOut};
ghost use Rattle.command_texts.specs.Status.{IsReached, IsRefused, IsStatus, IsWritten, has_read, last_read};

use crate::family::Plan;
use crate::generated::run_and_sum_up;
use crate::run::run_and_report;
use command_line::{Command, command_asked};
use command_texts::{Status, drive_and_write};
use guest_files::Stop;
use host_workers::{Gate, MAX_WORKERS};
use io_edge::{Shelf, Sink};
use std::alloc::AllocError;
use std::sync::Wait;
use std::thread::Threads;
use wire_fates::Wire;

/// Does what the words ask for, which leave out the program's own name. A family is run by as many workers as they ask
/// for, but by no more than there are wires, of which each worker has one. The workers call the gate.
pub fn snow<
    R: AllocGlobal + Threads + Wait + Sync,
    S: Shelf,
    K: Sink,
    W: Wire + Send,
    G: Gate + Sync,
>(rt: &R, words: &[String], shelf: &mut S, sink: &mut K, wires: &mut Vec<W>, gate: &G) -> Status
    requires some { 0 < vec_len wires.old }
    requires most { vec_len wires.old ≤ MAX_WORKERS }
    // Whatever the wires do with replies:
    // 0: the sink has gained the text of the words. That is of `run` the report of the family of the
    // machine that is booted from the image, with its disk and its input, run to its end; and of `drive`
    // what the script tells of that family, line by line.
    ensures written { result.code ≡ 0 → IsWritten (S.files shelf.old) (texts words.now) (K.gone sink.old) (K.gone sink.new) }

    // Just the loads that the words ask for were made, each once and in their order: on codes 0, 5, 7 and 8 all of them, and
    // on 3 and 4 those up to the file that is too long, or all. On every code no more than the first of them were made.
    ensures loads { has_read result.code ≡ true → AreLoaded (meant (texts words.now)) (last_read result) (S.asked shelf.old) (S.asked shelf.new) }
    ensures first_loads { ArePartlyLoaded (meant (texts words.now)) (S.asked shelf.old) (S.asked shelf.new) }

    // On codes 0, 5 and 7 the wires were given the seed of the words, once, as many as there are workers to be, or all where
    // there are fewer. On 1, 2, 3, 4 and 8 they are as they were.
    ensures seeded { is_run result.code ≡ true → AreSeeded (meant (texts words.now)) W.seeds wires.old.items wires.new.items }
    ensures untouched { is_before result.code ≡ true → wires.new ≡ wires.old }

    // 1: only where the shelf had a fault, in a load that the words ask for and no earlier check
    // forestalls. It is that of the last load that was asked for.
    ensures read_fault { result.code ≡ 1 → HasRisen (S.faults shelf.old) (S.faults shelf.new) }
    ensures load_asked { result.code ≡ 1 → IsLoadAsked (meant (texts words.now)) result.first }
    ensures load_reached { result.code ≡ 1 → IsReached (S.files shelf.old) (texts words.now) result.first }
    ensures load_fault { result.code ≡ 1 → IsFaultAsked (meant (texts words.now)) result.first (S.asked shelf.old) (S.asked shelf.new) }

    // 2: exactly where the words have no meaning, but that want of memory may come first. 3: only where
    // the image is refused, and 4: only where the disk or the input is, with the number of the refusal.
    // 8: only where the script is, with the line and the kind.
    ensures usage { ¬ (result.code ≡ 6) → ((result.code ≡ 2) ↔ (meant (texts words.now) ≡ None)) }
    ensures unread { result.code ≡ 2 → shelf.new ≡ shelf.old }
    ensures image_refused { result.code ≡ 3 → IsRefused (S.files shelf.old) (texts words.now) (IsImageRefusal result.first) }
    ensures data_refused { result.code ≡ 4 → IsRefused (S.files shelf.old) (texts words.now) (IsDataRefusal result.first) }
    ensures script_refused { result.code ≡ 8 → IsRefused (S.files shelf.old) (texts words.now) (IsScriptRefusal result.first result.second) }

    // 5: only where the sink had a fault, and a prefix of the text is out.
    ensures write_fault { result.code ≡ 5 → HasRisen (K.faults sink.old) (K.faults sink.new) }
    ensures prefix { result.code ≡ 5 → IsPrefixOut (S.files shelf.old) (texts words.now) (K.gone sink.old) (K.gone sink.new) }

    // 7: only where a family that may fork is run, and a wire has given no reply for 64 fates.
    ensures wire_lost { result.code ≡ 7 → IsLost (meant (texts words.now)) W.streak wires.new.items }

    // `self` asks the shelf for nothing, and no file makes it stop.
    ensures fileless { IsFileless (meant (texts words.now)) result (shelf.new ≡ shelf.old) }

    // On every code but 0 and 5 the sink has been given nothing.
    ensures silent { ¬ (result.code ≡ 0) → ¬ (result.code ≡ 5) → sink.new ≡ sink.old }

    // The words and the files decide the code, but for faults, lost wires, and want of memory, which is 6.
    ensures complete { Completes result (S.files shelf.old) (texts words.now)
        (HasRisen (S.faults shelf.old) (S.faults shelf.new)) (HasRisen (K.faults sink.old) (K.faults sink.new))
        (IsLost (meant (texts words.now)) W.streak wires.new.items) }
    ensures status { IsStatus result }
{
    let command = match command_asked(rt.alloc(), words) {
        Ok(Some(command)) => command,
        Ok(None) => return Status::USAGE,
        Err(AllocError) => return Status::OUT_OF_MEMORY,
    };
    match write_text(rt, &command, shelf, sink, wires, gate) {
        Ok(()) => Status::new(0, 0),
        Err(Stop::ReadFault(load)) => Status::new(1, load),
        Err(Stop::ImageRefused(number)) => Status::new(3, number),
        Err(Stop::DataRefused(number)) => Status::new(4, number),
        Err(Stop::ScriptRefused { line, kind }) => Status::of_script(line, kind),
        Err(Stop::WriteFault) => Status::new(5, 0),
        Err(Stop::Wire) => Status::new(7, 0),
        Err(Stop::Memory) => Status::OUT_OF_MEMORY,
    }
}

/// Writes the text of a command.
fn write_text<
    R: AllocGlobal + Threads + Wait + Sync,
    S: Shelf,
    K: Sink,
    W: Wire + Send,
    G: Gate + Sync,
>(
    rt: &R,
    command: &Command<'_>,
    shelf: &mut S,
    sink: &mut K,
    wires: &mut Vec<W>,
    gate: &G,
) -> Result<(), Stop>
    requires some { 0 < vec_len wires.old }
    requires most { vec_len wires.old ≤ MAX_WORKERS }
    ensures writes { Writes (meaning command.now) (S.files shelf.old)
        (λ load. HasRisen (S.faults shelf.old) (S.faults shelf.new) × IsFaultOf (loads_of (meaning command.now)) load (S.asked shelf.old) (S.asked shelf.new))
        (HasRisen (K.faults sink.old) (K.faults sink.new)) (IsLostIn (meaning command.now) W.streak wires.new.items)
        (K.gone sink.old) (K.gone sink.new) result }
    ensures loads { HasMade (loads_of (meaning command.now)) result (S.asked shelf.old) (S.asked shelf.new) }
    ensures seeded { IfRun result (AreSeededIn (meaning command.now) W.seeds wires.old.items wires.new.items) }
    ensures untouched { IfErr result (λ stop. IfBefore stop (wires.new ≡ wires.old)) }
    ensures fileless { IsGenerated (meaning command.now) → (shelf.new ≡ shelf.old) × IsUnrefused result }
    ensures silent { IsSilent result (sink.new ≡ sink.old) }
{
    match command {
        Command::Run(guest, how) => {
            let plan = Plan { how, gate };
            run_and_report(rt, guest, &plan, shelf, sink, wires)
        }
        Command::Drive(guest, script) => drive_and_write(rt, guest, script, shelf, sink),
        Command::Generated(words) => run_and_sum_up(rt, words, sink, wires, gate),
    }
}
