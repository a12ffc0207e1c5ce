//! What the report of a family comes to, in one line.

ghost use Rattle.std.specs.Prelude.{◌≡◌, ℕ, ◌+◌, ◌-◌, ◌*◌, ◌^◌, ◌≤◌, [], length, OnOk, OnErr};
ghost use Rattle.io_edge.specs.Outside.{HasRisen, appended, IsPrefixGone};
ghost use Rattle.io_edge.specs.Streamed.{Streams};
ghost use Rattle.run_report.specs.Said.{line_of_machine, line_of_ticket};
ghost use Rattle.run_report.specs.Summary.{IsWithin, summary_of, summary_text, summed, value_of, with_line};

use crate::line::{MachineLine, Piece, TicketLine, put_pieces};
use crate::{Line, Outcome, ReportError};
use forest_model::Ending;
use io_edge::{Sink, SinkBuffer, WriteFault};

/// How many machines there are, and sums over the lines of a report. There are fewer than 2^64 lines, and each adds less
/// than 2^64 to a sum, so 128 bits are enough for each of them.
#[derive(Drop)]
pub(crate) struct Summary {
    machines: u128,
    steps: u128,
    /// The sum of the exit values modulo 2^32.
    exits: u32,
    /// How many children the killed tickets had.
    killed: u128,
    /// How many bytes the machines put out.
    out: u128,
}

impl Summary {
    /// What no lines come to.
    #[tactic(auto, unfolding(crate::specs::Summary::summed))]
    fn new() -> Summary
        ensures same { result ≡ summed [] }
        ensures within { IsWithin 0 result }
    {
        Summary {
            machines: 0,
            steps: 0,
            exits: 0,
            killed: 0,
            out: 0,
        }
    }

    /// What lines come to.
    pub(crate) fn of_lines(lines: &[Line]) -> Summary
        ensures same { result ≡ summed lines.now }
        ensures within { IsWithin (length lines.now * 2 ^ 64) result }
    {
        let mut summary = Summary::new();
        'lines: for line in lines {
            line.add_to(&mut summary);
        }
        summary
    }

    /// Adds a machine.
    #[tactic(auto, unfolding(crate::specs::Summary::with_line))]
    pub(crate) fn add_machine(&mut self, line: &MachineLine)
        requires { IsWithin (2 ^ 128 - 2 ^ 64) self.old }
        ensures added { self.new ≡ with_line (line_of_machine line.now) self.old }
        ensures within { (most : ℕ) → IsWithin most self.old → IsWithin (most + 2 ^ 64) self.new }
    {
        self.machines += 1;
        self.steps += line.end.steps() as u128;
        self.exits = self.exits.wrapping_add(exit_value(line.end.ending()));
        self.out += line.end.output().len() as u128;
    }

    /// Adds a ticket that was killed.
    #[tactic(auto, unfolding(crate::specs::Summary::with_line))]
    pub(crate) fn add_ticket(&mut self, line: &TicketLine)
        requires { IsWithin (2 ^ 128 - 2 ^ 64) self.old }
        ensures added { self.new ≡ with_line (line_of_ticket line.now) self.old }
        ensures within { (most : ℕ) → IsWithin most self.old → IsWithin (most + 2 ^ 64) self.new }
    {
        self.killed += line.killed as u128;
    }

    /// Puts it out as a line, with the seed of the guest.
    #[tactic(auto, unfolding(crate::specs::Summary::summary_text))]
    fn put<K: Sink>(
        &self,
        seed: u32,
        buffer: &mut SinkBuffer,
        sink: &mut K,
    ) -> Result<(), WriteFault>
        ensures counts { K.faults sink.old ≤ K.faults sink.new }
        ensures fault { OnErr result (HasRisen (K.faults sink.old) (K.faults sink.new)) }
        ensures streams { Streams (K.gone sink.old) (K.gone sink.new) buffer.old (summary_text seed self.now) buffer.new result }
    {
        let pieces = [
            Piece::Text(b"self "),
            Piece::Number(seed as u64),
            Piece::Text(b" machines "),
            Piece::Sum(self.machines),
            Piece::Text(b" steps "),
            Piece::Sum(self.steps),
            Piece::Text(b" exits "),
            Piece::Number(self.exits as u64),
            Piece::Text(b" killed "),
            Piece::Sum(self.killed),
            Piece::Text(b" out "),
            Piece::Sum(self.out),
            Piece::Text(b"\n"),
        ];
        put_pieces(&pieces, buffer, sink)
    }
}

/// The value of a machine that has ended: 0 where it met its limit or is stuck.
fn exit_value(ending: Option<Ending>) -> u32
    ensures { result ≡ value_of ending }
{
    match ending {
        Some(Ending::Exit(value, _)) => value,
        _ => 0,
    }
}

/// Writes what the report of a machine and the lines behind its own comes to, as one line with the seed of its guest. After a fault of the
/// sink a prefix of the line is out. It takes no memory.
#[tactic(auto, unfolding(crate::specs::Summary::summary_of))]
pub fn summary_into<K: Sink>(outcome: &Outcome, seed: u32, sink: &mut K) -> Result<(), ReportError>
    ensures counts { K.faults sink.old ≤ K.faults sink.new }
    ensures ok { OnOk result (K.gone sink.new ≡ appended (K.gone sink.old) (summary_of seed outcome.now)) }
    ensures sink { OnErr result (HasRisen (K.faults sink.old) (K.faults sink.new)) }
    ensures prefix { IsPrefixGone (K.gone sink.old) (K.gone sink.new) (summary_of seed outcome.now) }
{
    let mut buffer = SinkBuffer::new();
    outcome.summary().put(seed, &mut buffer, sink)?;
    buffer.flush(sink)?;
    Ok(())
}
