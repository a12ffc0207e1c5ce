//! The report of a machine that has come to its end, with what its log tells.

ghost use Rattle.std.specs.Prelude.{◌≡◌, ◌+◌, ◌≤◌, ◌++◌, length, vec_len, vec_capacity, OnOk, OnErr};
ghost use Rattle.io_edge.specs.Outside.{HasRisen, appended, IsPrefixGone};
ghost use Rattle.io_edge.specs.Streamed.{Streams};
ghost use Rattle.run_report.specs.Lines.{text_of};
ghost use Rattle.run_report.specs.Report.{lines_of, report_of};
ghost use Rattle.run_report.specs.Summary.{summed};

use crate::Line;
use crate::line::MachineLine;
use crate::machine_end::OutcomeRoom;
use crate::summary::Summary;
use forest_model::Ending;
use io_edge::{Sink, SinkBuffer, WriteFault};
use machine_names::Name;
use std::alloc::AllocError;
use std::marker::Model;
use thiserror::Error;

/// A machine that has ended, and the lines of its log: those of the children that it joined, with theirs,
/// and of the tickets that were killed, in order. Or one that is stuck: it lives, and makes no step any more. The lines of
/// its children follow those of its log.
#[derive(Drop)]
pub struct Outcome {
    own: MachineLine,
    log: Vec<Line>,
}

impl Model for Outcome {
    ghost use Rattle.run_report.specs.Report.{Ended};
    ghost use Rattle.run_report.specs.MachineEnd.{ending_in, output_in, steps_in};

    ghost Value = { Ended };

    ghost view = { λ o. record {
      name = o.own.name;
      ending = ending_in o.own.end;
      steps = steps_in o.own.end;
      output = output_in o.own.end;
      log = o.log.items;
    } };
}

impl Clone for Outcome {
    ghost is_clone = { λ outcome copy. copy ≡ outcome };

    fn clone(&self) -> Result<Outcome, AllocError> {
        Ok(Outcome {
            own: self.own.clone()?,
            log: self.log.clone()?,
        })
    }
}

impl Outcome {
    /// A machine of this name, with how it ended, or none where it is stuck. It takes no memory but this room.
    pub fn new(
        room: OutcomeRoom,
        name: Name,
        ending: Option<Ending>,
        steps: u64,
        output: Vec<u8>,
        log: Vec<Line>,
    ) -> Outcome
        ensures { result ≡ record { name = name; ending = ending; steps = steps; output = output.items; log = log.items } }
    {
        Outcome {
            own: MachineLine {
                name,
                end: room.filled(ending, steps, output),
            },
            log,
        }
    }

    /// The name of the machine.
    pub fn name(&self) -> &Name
        ensures { result.now ≡ self.now.name }
    {
        &self.own.name
    }

    /// How it ended, or none where it is stuck.
    pub fn ending(&self) -> Option<Ending>
        ensures { result ≡ self.now.ending }
    {
        self.own.end.ending()
    }

    /// How many lines there are, its own among them.
    #[tactic(auto, unfolding(crate::specs::Report::lines_of))]
    pub fn line_count(&self) -> usize
        ensures { result ≡ length (lines_of self.now) }
    {
        self.log.len() + 1
    }

    /// What all lines come to.
    #[tactic(auto, unfolding(crate::specs::Report::lines_of))]
    pub(crate) fn summary(&self) -> Summary
        ensures { result ≡ summed (lines_of self.now) }
    {
        let mut summary = Summary::of_lines(&self.log);
        summary.add_machine(&self.own);
        summary
    }

    /// Moves all lines, its own first, to the end of another log, which has room for them.
    #[tactic(auto, unfolding(crate::specs::Report::lines_of))]
    pub fn into_log(self, log: &mut Vec<Line>)
        requires { vec_len log.old + length (lines_of self) ≤ vec_capacity log.old }
        ensures lines { log.new.items ≡ log.old.items ++ lines_of self }
        ensures len { vec_len log.new ≡ vec_len log.old + length (lines_of self) }
        ensures capacity { vec_capacity log.old ≤ vec_capacity log.new }
    {
        let Outcome {
            own,
            log: mut lines,
        } = self;
        log.push_reserved(Line::of_machine(own));
        log.append(&mut lines).unwrap();
    }
}

/// Why a report is not out whole.
#[derive(Clone, Copy, Debug, PartialEq, Eq, Error)]
pub enum ReportError {
    /// The sink had a fault.
    #[error("the report could not be put out whole")]
    Sink,
}

impl From<WriteFault> for ReportError {
    ghost use Rattle.std.specs.Prelude.{◌≡◌};
    ghost use Rattle.run_report.specs.declared.report.ReportError.TheVariants.{Sink};

    ghost from_gives = { λ _ e. e ≡ Sink };

    fn from(_fault: WriteFault) -> ReportError {
        ReportError::Sink
    }
}

/// Writes the report of a machine and the lines behind its own, piece by piece as it walks them. After a fault of the sink a
/// prefix of the report is out. It takes no memory.
#[tactic(auto, unfolding(crate::specs::Report::lines_of))]
pub fn report_into<K: Sink>(outcome: &Outcome, sink: &mut K) -> Result<(), ReportError>
    ensures counts { K.faults sink.old ≤ K.faults sink.new }
    ensures ok { OnOk result (K.gone sink.new ≡ appended (K.gone sink.old) (report_of outcome.now)) }
    ensures sink { OnErr result (HasRisen (K.faults sink.old) (K.faults sink.new)) }
    ensures prefix { IsPrefixGone (K.gone sink.old) (K.gone sink.new) (report_of outcome.now) }
{
    let mut buffer = SinkBuffer::new();
    outcome.own.put(&mut buffer, sink)?;
    put_lines(&outcome.log, &mut buffer, sink)?;
    buffer.flush(sink)?;
    Ok(())
}

/// Puts out lines in order.
#[tactic(auto, unfolding(crate::specs::Lines::text_of))]
fn put_lines<K: Sink>(
    lines: &[Line],
    buffer: &mut SinkBuffer,
    sink: &mut K,
) -> Result<(), WriteFault>
    ensures counts { K.faults sink.old ≤ K.faults sink.new }
    ensures fault { OnErr result (HasRisen (K.faults sink.old) (K.faults sink.new)) }
    ensures streams { Streams (K.gone sink.old) (K.gone sink.new) buffer.old (text_of lines.now) buffer.new result }
{
    'lines: for line in lines {
        line.put(buffer, sink)?;
    }
    Ok(())
}
