//! What the lines of a script answer, and the text of it.

ghost use Rattle.std.specs.Prelude.{◌≡◌, ◌<◌, ◌+◌, ◌++◌, length, IfSome, Some, codes};
ghost use Rattle.std.specs.Fmt.{WritesOnOk};
ghost use Rattle.std.specs.List.{flat_map};
ghost use Rattle.forest_model.specs.Paged.{Paged};
ghost use Rattle.drive_script.specs.Told.{IsBelow, answer_text, arrival_told, arrived_text, register_text};
ghost use Rattle.drive_script.specs.Told.{sent_or_none, sent_text, sent_told, value_text, why_text, word_text};

use fetch_proto::{FIRST_DISK_PAGE, page_number};
use fork_port::Ending;
use std::{fmt, str};
use vm_cell::Arrived;

/// Why a machine stops.
#[derive(Clone, Copy)]
pub(crate) enum Why {
    /// It has ended.
    Ended(Ending),
    /// Its next step touches the page of this number, which is not here.
    Stalls(u32),
    /// Its next step is the JOIN of this ticket, of which a child lives.
    Waits(u32),
    /// Its next step is a SEND to this sibling, which lives, and the queue to it is full.
    Sends(u32),
    /// Its next step is a RECEIVE from this sibling, which lives, and no word of it is there.
    Receives(u32),
    /// All steps that were asked for are made. It may go on.
    MayGoOn,
}

impl fmt::Display for Why {
    ghost output = { λ why. Some (why_text why) };

    fn fmt<W: fmt::Write>(&self, f: &mut fmt::Formatter<W>) -> fmt::Result {
        match self {
            Why::Ended(Ending::Exit(value, _)) => write!(f, "exit {value}"),
            Why::Ended(Ending::Limit) => write!(f, "limit"),
            Why::Stalls(page) => write!(f, "stall {page}"),
            Why::Waits(ticket) => write!(f, "wait {ticket}"),
            Why::Sends(to) => write!(f, "send {to}"),
            Why::Receives(from) => write!(f, "receive {from}"),
            Why::MayGoOn => write!(f, "ok"),
        }
    }
}

/// A reply that was sent: its page, by its number once it is told, and its place among those that were sent to the same
/// machines, from 0.
#[derive(Clone, Copy)]
pub(crate) struct SentPlace {
    pub(crate) page: u32,
    pub(crate) place: usize,
}

impl fmt::Display for SentPlace {
    ghost output = { λ sent. Some (sent_text sent) };

    fn fmt<W: fmt::Write>(&self, f: &mut fmt::Formatter<W>) -> fmt::Result {
        let SentPlace { page, place } = *self;
        write!(f, "{page} {place}")
    }
}

/// What a line answers of the machine that it names.
#[derive(Clone, Copy)]
pub(crate) enum Answer {
    /// No live machine has the name.
    NoMachine,
    /// It made so many steps.
    Ran { steps: u64, why: Why },
    /// The reply that was sent with the page at which it stalls, if one was.
    Ask(Option<SentPlace>),
    /// The reply that was sent with a page, if one was.
    Push(Option<SentPlace>),
    /// What came of the reply at a place, if there is one.
    Give(Option<Arrived>),
    /// The word at an address, if one is there.
    Word(Option<u32>),
    /// The pc, and then the registers x1 to x31.
    Registers([u32; 32]),
}

impl fmt::Display for Answer {
    ghost output = { λ answer. Some (answer_text answer) };

    #[tactic(auto, unfolding(crate::specs::Told::answer_text))]
    fn fmt<W: fmt::Write>(&self, f: &mut fmt::Formatter<W>) -> fmt::Result {
        match self {
            Answer::NoMachine => write!(f, "none"),
            Answer::Ran { steps, why } => write!(f, "ran {steps} {why}"),
            Answer::Ask(sent) => write_sent(f, "ask", sent),
            Answer::Push(sent) => write_sent(f, "push", sent),
            Answer::Give(arrived) => write_arrived(f, arrived),
            Answer::Word(word) => write_word(f, word),
            Answer::Registers(values) => write_registers(f, values),
        }
    }
}

/// A reply that was sent, by the number of its page, of a machine with so many pages of RAM.
pub(crate) fn sent_told(ram_pages: u32, sent: Option<SentPlace>) -> Option<SentPlace>
    requires { IfSome sent (λ sent. sent.page < ram_pages + FIRST_DISK_PAGE) }
    ensures { (p : Paged) → length p.pages.blank ≡ ram_pages → result ≡ sent_told p sent }
{
    let SentPlace { page, place } = sent?;
    let page = page_number(ram_pages, page);
    Some(SentPlace { page, place })
}

/// What came of a reply, by the number of its page.
pub(crate) fn arrival_told(ram_pages: u32, arrived: Option<Arrived>) -> Option<Arrived>
    requires { IfSome arrived (IsBelow (ram_pages + FIRST_DISK_PAGE)) }
    ensures { (p : Paged) → length p.pages.blank ≡ ram_pages → result ≡ arrival_told p arrived }
{
    match arrived? {
        Arrived::Got(page) => Some(Arrived::Got(page_number(ram_pages, page))),
        Arrived::Had(page) => Some(Arrived::Had(page_number(ram_pages, page))),
    }
}

/// Writes what was sent, if anything was, after a word.
fn write_sent<W: fmt::Write>(
    f: &mut fmt::Formatter<W>,
    word: &str,
    sent: &Option<SentPlace>,
) -> fmt::Result
    ensures { WritesOnOk W.write_str_gives f.old result (word.now ++ (codes " " ++ sent_or_none sent.now)) f.new }
{
    match sent {
        None => write!(f, "{word} none"),
        Some(sent) => write!(f, "{word} {sent}"),
    }
}

/// Writes what came of a reply, if there was one.
fn write_arrived<W: fmt::Write>(f: &mut fmt::Formatter<W>, arrived: &Option<Arrived>) -> fmt::Result
    ensures { WritesOnOk W.write_str_gives f.old result (arrived_text arrived.now) f.new }
{
    match arrived {
        None => write!(f, "give none"),
        Some(Arrived::Got(page)) => write!(f, "got {page}"),
        Some(Arrived::Had(page)) => write!(f, "had {page}"),
    }
}

/// Writes a word, if there is one.
fn write_word<W: fmt::Write>(f: &mut fmt::Formatter<W>, word: &Option<u32>) -> fmt::Result
    ensures { WritesOnOk W.write_str_gives f.old result (codes "word " ++ value_text word.now) f.new }
{
    match word {
        None => write!(f, "word none"),
        Some(word) => {
            let word = HexWord(*word);
            write!(f, "word {word}")
        }
    }
}

/// Writes the values of registers, each after a space.
fn write_registers<W: fmt::Write>(f: &mut fmt::Formatter<W>, values: &[u32]) -> fmt::Result
    ensures { WritesOnOk W.write_str_gives f.old result (codes "regs" ++ flat_map register_text values.now) f.new }
{
    write!(f, "regs")?;
    for value in values {
        let word = HexWord(*value);
        write!(f, " {word}")?;
    }
    Ok(())
}

/// A word, in its eight hexadecimal digits.
#[derive(Clone, Copy)]
struct HexWord(u32);

impl fmt::Display for HexWord {
    ghost output = { λ word. Some (word_text word.0) };

    fn fmt<W: fmt::Write>(&self, f: &mut fmt::Formatter<W>) -> fmt::Result {
        let mut digits = [0u8; 8];
        let Ok(()) = hex::encode_to_slice(self.0.to_be_bytes(), &mut digits) else {
            unreachable!();
        };
        let Ok(text) = str::from_utf8(&digits) else {
            unreachable!();
        };
        f.write_str(text)
    }
}
