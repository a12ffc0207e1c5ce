//! The command `run`: a guest's family is run to its end.

ghost use Rattle.std.specs.Prelude.{◌≡◌, ◌<◌, ◌≤◌, map, IfErr, OnErr, OnOk, vec_len};
ghost use Rattle.io_edge.specs.Outside.{HasRisen, IsPrefixGone, appended};
ghost use Rattle.run_report.specs.Report.{report_of};
ghost use Rattle.command_line.specs.Words.{run};
ghost use Rattle.guest_files.specs.Parts.{HasMade, IsFaultOf, guest_loads, loads_of};
ghost use Rattle.command_texts.specs.Lost.{IsLostIn};
ghost use Rattle.command_texts.specs.Seeded.{IfBefore, IfRun, seeded_for};
ghost use Rattle.command_texts.specs.Writes.{IsSilent, Writes};

use crate::family::{Plan, run_files};
use command_line::GuestWords;
use guest_files::{Stop, read_guest};
use host_workers::{Gate, MAX_WORKERS};
use io_edge::{Shelf, Sink};
use run_report::{Outcome, ReportError, report_into};
use std::sync::Wait;
use std::thread::Threads;
use wire_fates::Wire;

/// Reads a guest, runs its family to its end and writes its report.
pub fn run_and_report<
    R: AllocGlobal + Threads + Wait + Sync,
    S: Shelf,
    K: Sink,
    W: Wire + Send,
    G: Gate + Sync,
>(
    rt: &R,
    guest: &GuestWords<'_>,
    plan: &Plan<'_, G>,
    shelf: &mut S,
    sink: &mut K,
    wires: &mut Vec<W>,
) -> Result<(), Stop>
    requires some { 0 < vec_len wires.old }
    requires most { vec_len wires.old ≤ MAX_WORKERS }
    ensures writes { Writes (run guest.now plan.now.how.now) (S.files shelf.old)
        (λ load. HasRisen (S.faults shelf.old) (S.faults shelf.new)
        × IsFaultOf (loads_of (run guest.now plan.now.how.now)) load (S.asked shelf.old) (S.asked shelf.new))
        (HasRisen (K.faults sink.old) (K.faults sink.new)) (IsLostIn (run guest.now plan.now.how.now) W.streak wires.new.items)
        (K.gone sink.old) (K.gone sink.new) result }
    ensures loads { HasMade (guest_loads guest.now) result (S.asked shelf.old) (S.asked shelf.new) }
    ensures seeded { IfRun result (map W.seeds wires.new.items ≡ seeded_for plan.now.how.now (map W.seeds wires.old.items)) }
    ensures untouched { IfErr result (λ stop. IfBefore stop (wires.new ≡ wires.old)) }
    ensures silent { IsSilent result (sink.new ≡ sink.old) }
{
    let files = read_guest(rt.alloc(), guest, shelf)?;
    let outcome = run_files(rt, guest, &files, plan, wires)?;
    match write_report(&outcome, sink) {
        Ok(()) => Ok(()),
        Err(ReportError::Sink) => Err(Stop::WriteFault),
    }
}

/// Writes the report of a family. It is not inlined, since its buffer would have room on the stack while the family runs.
#[inline(never)]
fn write_report<K: Sink>(outcome: &Outcome, sink: &mut K) -> Result<(), ReportError>
    ensures counts { K.faults sink.old ≤ K.faults sink.new }
    ensures ok { OnOk result (K.gone sink.new ≡ appended (K.gone sink.old) (report_of outcome.now)) }
    ensures sink { OnErr result (HasRisen (K.faults sink.old) (K.faults sink.new)) }
    ensures prefix { IsPrefixGone (K.gone sink.old) (K.gone sink.new) (report_of outcome.now) }
{
    report_into(outcome, sink)
}
