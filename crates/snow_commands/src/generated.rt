//! The command `self`: the family of a guest that is generated from a seed is run to its end.

ghost use Rattle.std.specs.Prelude.{◌≡◌, ◌<◌, ◌≤◌, map, vec_len, IfErr, OnErr, OnOk};
ghost use Rattle.io_edge.specs.Outside.{HasRisen, IsPrefixGone, appended};
ghost use Rattle.run_report.specs.Summary.{summary_of};
ghost use Rattle.board_ends.specs.Lost.{IsOneLost};
ghost use Rattle.command_line.specs.Words.{generated_how};
ghost use Rattle.command_texts.specs.Seeded.{IfBefore, IfRun, seeded_for};
ghost use Rattle.command_texts.specs.Text.{generated_text};
ghost use Rattle.command_texts.specs.Writes.{IsSilent, WritesFileless};

use crate::family::{Plan, run_files};
use command_line::GeneratedWords;
use command_texts::generated_files;
use guest_files::Stop;
use host_workers::{Gate, MAX_WORKERS};
use io_edge::Sink;
use run_report::{Outcome, ReportError, summary_into};
use std::sync::Wait;
use std::thread::Threads;
use wire_fates::Wire;

/// Runs the family of the guest of a seed to its end, and writes what its report comes to.
pub fn run_and_sum_up<
    R: AllocGlobal + Threads + Wait + Sync,
    K: Sink,
    W: Wire + Send,
    G: Gate + Sync,
>(rt: &R, words: &GeneratedWords, sink: &mut K, wires: &mut Vec<W>, gate: &G) -> Result<(), Stop>
    requires some { 0 < vec_len wires.old }
    requires most { vec_len wires.old ≤ MAX_WORKERS }
    ensures writes { WritesFileless (generated_text words.now) (HasRisen (K.faults sink.old) (K.faults sink.new))
        (IsOneLost W.streak wires.new.items) (K.gone sink.old) (K.gone sink.new) result }
    ensures seeded { IfRun result (map W.seeds wires.new.items ≡ seeded_for (generated_how words.now.workers) (map W.seeds wires.old.items)) }
    ensures untouched { IfErr result (λ stop. IfBefore stop (wires.new ≡ wires.old)) }
    ensures silent { IsSilent result (sink.new ≡ sink.old) }
{
    let files = generated_files(rt.alloc(), words.seed())?;
    let how = words.how();
    let plan = Plan { how: &how, gate };
    let outcome = run_files(rt, &words.guest(), &files, &plan, wires)?;
    match write_summary(&outcome, words.seed(), sink) {
        Ok(()) => Ok(()),
        Err(ReportError::Sink) => Err(Stop::WriteFault),
    }
}

/// Writes what the report of a family comes to. It is not inlined, since its buffer would have room on the stack while the
/// family runs.
#[inline(never)]
fn write_summary<K: Sink>(outcome: &Outcome, seed: u32, sink: &mut K) -> Result<(), ReportError>
    ensures counts { K.faults sink.old ≤ K.faults sink.new }
    ensures ok { OnOk result (K.gone sink.new ≡ appended (K.gone sink.old) (summary_of seed outcome.now)) }
    ensures sink { OnErr result (HasRisen (K.faults sink.old) (K.faults sink.new)) }
    ensures prefix { IsPrefixGone (K.gone sink.old) (K.gone sink.new) (summary_of seed outcome.now) }
{
    summary_into(outcome, seed, sink)
}
