//! The lines of a report.

ghost use Rattle.std.specs.Prelude.{◌≡◌, ℕ, ◌+◌, ◌-◌, ◌^◌, ◌≤◌, ◌++◌, length, codes, OnErr};
ghost use Rattle.std.specs.List.{flat_map};
ghost use Rattle.io_edge.specs.Outside.{HasRisen};
ghost use Rattle.io_edge.specs.Streamed.{Streams};
ghost use Rattle.run_report.specs.Lines.{bytes_text, end_text, ending_text, handed_text, line_text, ticket_line};
ghost use Rattle.run_report.specs.MachineEnd.{IsSameEnd};
ghost use Rattle.run_report.specs.Said.{line_of, line_of_machine, line_of_ticket, piece_text};
ghost use Rattle.run_report.specs.Summary.{IsWithin, with_line};

use crate::machine_end::MachineEnd;
use crate::summary::Summary;
use forest_model::Ending;
use fork_port::MAX_HANDED;
use io_edge::{Sink, SinkBuffer, WriteFault};
use machine_names::Name;
use std::alloc::AllocError;
use std::marker::Model;

/// The most hexadecimal digits of bytes that a machine hands over.
const MAX_DIGITS: usize = 2 * MAX_HANDED;

/// What a report says of a machine.
#[derive(Drop)]
pub(crate) struct MachineLine {
    pub(crate) name: Name,
    pub(crate) end: MachineEnd,
}

impl MachineLine {
    /// Puts the line out, with the output behind it.
    #[tactic(auto, unfolding(crate::specs::Lines::line_text))]
    pub(crate) fn put<K: Sink>(
        &self,
        buffer: &mut SinkBuffer,
        sink: &mut K,
    ) -> Result<(), WriteFault>
        ensures counts { K.faults sink.old ≤ K.faults sink.new }
        ensures fault { OnErr result (HasRisen (K.faults sink.old) (K.faults sink.new)) }
        ensures streams { Streams (K.gone sink.old) (K.gone sink.new) buffer.old (line_text (line_of_machine self.now)) buffer.new result }
    {
        let output = self.end.output();
        let pieces = [
            Piece::Text(b"machine "),
            Piece::Named(&self.name),
            Piece::Text(b" "),
            Piece::Ended(&self.end),
            Piece::Text(b" steps "),
            Piece::Number(self.end.steps()),
            Piece::Text(b" out "),
            Piece::Number(output.len() as u64),
            Piece::HandedOver(&self.end),
            Piece::Text(b"\n"),
            Piece::Text(output),
            Piece::Text(b"\n"),
        ];
        put_pieces(&pieces, buffer, sink)
    }
}

impl Clone for MachineLine {
    ghost is_clone = { λ line copy. (copy.name ≡ line.name) × IsSameEnd line.end copy.end };

    fn clone(&self) -> Result<MachineLine, AllocError> {
        Ok(MachineLine {
            name: self.name.copy()?,
            end: self.end.clone()?,
        })
    }
}

/// What a report says of a killed ticket.
#[derive(Drop)]
pub(crate) struct TicketLine {
    pub(crate) name: Name,
    pub(crate) ticket: u32,
    pub(crate) killed: u32,
}

impl TicketLine {
    /// Puts the line out.
    #[tactic(auto, unfolding(crate::specs::Lines::line_text))]
    fn put<K: Sink>(&self, buffer: &mut SinkBuffer, sink: &mut K) -> Result<(), WriteFault>
        ensures counts { K.faults sink.old ≤ K.faults sink.new }
        ensures fault { OnErr result (HasRisen (K.faults sink.old) (K.faults sink.new)) }
        ensures streams { Streams (K.gone sink.old) (K.gone sink.new) buffer.old (line_text (line_of_ticket self.now)) buffer.new result }
    {
        let pieces = [
            Piece::Text(b"ticket "),
            Piece::Named(&self.name),
            Piece::Text(b"."),
            Piece::Number(self.ticket as u64),
            Piece::Text(b" killed "),
            Piece::Number(self.killed as u64),
            Piece::Text(b"\n"),
        ];
        put_pieces(&pieces, buffer, sink)
    }
}

impl Clone for TicketLine {
    ghost is_clone = { λ line copy. copy ≡ line };

    fn clone(&self) -> Result<TicketLine, AllocError> {
        Ok(TicketLine {
            name: self.name.copy()?,
            ticket: self.ticket,
            killed: self.killed,
        })
    }
}

#[derive(Drop)]
enum Said {
    Machine(MachineLine),
    Ticket(TicketLine),
}

impl Clone for Said {
    ghost is_clone = { λ said copy. line_of copy ≡ line_of said };

    fn clone(&self) -> Result<Said, AllocError> {
        match self {
            Said::Machine(line) => Ok(Said::Machine(line.clone()?)),
            Said::Ticket(line) => Ok(Said::Ticket(line.clone()?)),
        }
    }
}

/// A line of a report: of a machine that has ended or is stuck, or of a ticket that was killed.
#[derive(Drop)]
pub struct Line {
    said: Said,
}

impl Model for Line {
    ghost use Rattle.run_report.specs.Lines as lines;

    ghost Value = { lines.Line };

    ghost use Rattle.run_report.specs.Said.{line_of};

    ghost view = { λ l. line_of l.said };
}

impl Clone for Line {
    ghost is_clone = { λ line copy. copy ≡ line };

    fn clone(&self) -> Result<Line, AllocError> {
        Ok(Line {
            said: self.said.clone()?,
        })
    }
}

impl Line {
    /// The line of a machine.
    pub(crate) fn of_machine(line: MachineLine) -> Line
        ensures { result ≡ line_of_machine line }
    {
        Line {
            said: Said::Machine(line),
        }
    }

    /// The line of a ticket of the machine of that name, which was killed with so many children.
    pub fn ticket(name: Name, ticket: u32, killed: u32) -> Line
        ensures { result ≡ ticket_line name ticket killed }
    {
        Line {
            said: Said::Ticket(TicketLine {
                name,
                ticket,
                killed,
            }),
        }
    }

    /// Adds the line to what others come to.
    pub(crate) fn add_to(&self, summary: &mut Summary)
        requires { IsWithin (2 ^ 128 - 2 ^ 64) summary.old }
        ensures added { summary.new ≡ with_line self.now summary.old }
        ensures within { (most : ℕ) → IsWithin most summary.old → IsWithin (most + 2 ^ 64) summary.new }
    {
        match &self.said {
            Said::Machine(line) => summary.add_machine(line),
            Said::Ticket(line) => summary.add_ticket(line),
        }
    }

    /// Puts the line out, with the output of a machine behind it.
    pub(crate) fn put<K: Sink>(
        &self,
        buffer: &mut SinkBuffer,
        sink: &mut K,
    ) -> Result<(), WriteFault>
        ensures counts { K.faults sink.old ≤ K.faults sink.new }
        ensures fault { OnErr result (HasRisen (K.faults sink.old) (K.faults sink.new)) }
        ensures streams { Streams (K.gone sink.old) (K.gone sink.new) buffer.old (line_text self.now) buffer.new result }
    {
        match &self.said {
            Said::Machine(line) => line.put(buffer, sink),
            Said::Ticket(line) => line.put(buffer, sink),
        }
    }
}

/// A piece of a line.
#[derive(Clone, Copy)]
pub(crate) enum Piece<'a> {
    Text(&'a [u8]),
    Named(&'a Name),
    Ended(&'a MachineEnd),
    HandedOver(&'a MachineEnd),
    Number(u64),
    Sum(u128),
}

impl Piece<'_> {
    /// Puts the piece out.
    fn put<K: Sink>(&self, buffer: &mut SinkBuffer, sink: &mut K) -> Result<(), WriteFault>
        ensures counts { K.faults sink.old ≤ K.faults sink.new }
        ensures fault { OnErr result (HasRisen (K.faults sink.old) (K.faults sink.new)) }
        ensures streams { Streams (K.gone sink.old) (K.gone sink.new) buffer.old (piece_text self.now) buffer.new result }
    {
        match self {
            Piece::Text(text) => buffer.put(sink, text),
            Piece::Named(name) => name.put(buffer, sink),
            Piece::Ended(end) => put_end(&end.ending(), buffer, sink),
            Piece::HandedOver(end) => put_handed(&end.ending(), buffer, sink),
            Piece::Number(number) => buffer.put_number(sink, *number),
            Piece::Sum(sum) => buffer.put(sink, itoa::Buffer::new().format(*sum).as_bytes()),
        }
    }
}

/// Puts out pieces, one after another.
pub(crate) fn put_pieces<K: Sink>(
    pieces: &[Piece<'_>],
    buffer: &mut SinkBuffer,
    sink: &mut K,
) -> Result<(), WriteFault>
    ensures counts { K.faults sink.old ≤ K.faults sink.new }
    ensures fault { OnErr result (HasRisen (K.faults sink.old) (K.faults sink.new)) }
    ensures streams { Streams (K.gone sink.old) (K.gone sink.new) buffer.old (flat_map piece_text pieces.now) buffer.new result }
{
    'pieces: for piece in pieces {
        piece.put(buffer, sink)?;
    }
    Ok(())
}

/// Puts out how a machine came to its end, in words.
fn put_end<K: Sink>(
    ending: &Option<Ending>,
    buffer: &mut SinkBuffer,
    sink: &mut K,
) -> Result<(), WriteFault>
    ensures counts { K.faults sink.old ≤ K.faults sink.new }
    ensures fault { OnErr result (HasRisen (K.faults sink.old) (K.faults sink.new)) }
    ensures streams { Streams (K.gone sink.old) (K.gone sink.new) buffer.old (end_text ending.now) buffer.new result }
{
    match ending {
        Some(ending) => put_ending(ending, buffer, sink),
        None => buffer.put(sink, b"stuck"),
    }
}

/// Puts out how a machine ended, in words.
fn put_ending<K: Sink>(
    ending: &Ending,
    buffer: &mut SinkBuffer,
    sink: &mut K,
) -> Result<(), WriteFault>
    ensures counts { K.faults sink.old ≤ K.faults sink.new }
    ensures fault { OnErr result (HasRisen (K.faults sink.old) (K.faults sink.new)) }
    ensures streams { Streams (K.gone sink.old) (K.gone sink.new) buffer.old (ending_text ending.now) buffer.new result }
{
    match ending {
        Ending::Exit(value, _) => {
            buffer.put(sink, b"exit ")?;
            buffer.put_number(sink, *value as u64)
        }
        Ending::Limit => buffer.put(sink, b"limit"),
    }
}

/// Puts out the bytes that a machine handed over, if there are any.
fn put_handed<K: Sink>(
    ending: &Option<Ending>,
    buffer: &mut SinkBuffer,
    sink: &mut K,
) -> Result<(), WriteFault>
    ensures counts { K.faults sink.old ≤ K.faults sink.new }
    ensures fault { OnErr result (HasRisen (K.faults sink.old) (K.faults sink.new)) }
    ensures streams { Streams (K.gone sink.old) (K.gone sink.new) buffer.old (handed_text ending.now) buffer.new result }
{
    match ending {
        Some(Ending::Exit(_, handed)) => put_bytes(handed.as_slice(), buffer, sink),
        _ => buffer.put(sink, b""),
    }
}

/// Puts out bytes that were handed over, each in two hexadecimal digits.
fn put_bytes<K: Sink>(bytes: &[u8], buffer: &mut SinkBuffer, sink: &mut K) -> Result<(), WriteFault>
    requires { length bytes.now ≤ MAX_HANDED }
    ensures counts { K.faults sink.old ≤ K.faults sink.new }
    ensures fault { OnErr result (HasRisen (K.faults sink.old) (K.faults sink.new)) }
    ensures streams { Streams (K.gone sink.old) (K.gone sink.new) buffer.old (bytes_text bytes.now) buffer.new result }
{
    if bytes.is_empty() {
        return buffer.put(sink, b"");
    }
    let mut room = [0u8; MAX_DIGITS];
    let digits = &mut room[..2 * bytes.len()];
    let Ok(()) = hex::encode_to_slice(bytes, digits) else {
        unreachable!();
    };
    put_digits(digits, buffer, sink)
}

/// Puts out the digits of bytes that were handed over.
fn put_digits<K: Sink>(
    digits: &[u8],
    buffer: &mut SinkBuffer,
    sink: &mut K,
) -> Result<(), WriteFault>
    ensures counts { K.faults sink.old ≤ K.faults sink.new }
    ensures fault { OnErr result (HasRisen (K.faults sink.old) (K.faults sink.new)) }
    ensures streams { Streams (K.gone sink.old) (K.gone sink.new) buffer.old (codes " handed " ++ digits.now) buffer.new result }
{
    buffer.put(sink, b" handed ")?;
    buffer.put(sink, digits)
}
