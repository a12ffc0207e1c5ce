//! The sibling port. Its registers, commands and answers are told here by their numbers.

use crate::equal::are_equal;
use port_error::Fault;
use sibling_port::{Asked, SiblingPort, Talk};
use std::process::Abort;
use std::thread;
use std::thread::Threads;

/// All registers that are loaded.
fn registers(port: &SiblingPort) -> [Result<u32, Fault>; 4] {
    [
        port.load(0, 4),
        port.load(4, 4),
        port.load(12, 4),
        port.load(16, 4),
    ]
}

/// A port of a child of a ticket for so many, after stores to PEER and DATA and an unknown command.
fn port_of(rt: &impl Abort, siblings: u32, peer: u32) -> SiblingPort {
    let mut port = SiblingPort::new(siblings);
    let stored = [
        port.store(1, 0, 4, peer),
        port.store(1, 4, 4, 77),
        port.store(1, 8, 4, 9),
    ];
    are_equal(rt, &stored, &[Ok(None), Ok(None), Ok(None)]);
    port
}

/// Why a load of so many bytes at an offset fails, and what comes of a store.
type Access = (Option<Fault>, Result<Option<Talk>, Fault>);

fn expected(offset: u32, width: u32) -> Access {
    match (offset, width) {
        (0 | 4, 4) => (None, Ok(None)),
        (8, 4) => (Some(Fault), Ok(None)),
        (12 | 16, 4) => (None, Err(Fault)),
        _ => (Some(Fault), Err(Fault)),
    }
}

fn takes_a_word(rt: &impl Abort, offset: u32, width: u32) {
    let mut port = SiblingPort::new(2);
    let loaded = port.load(offset, width).err();
    let found = (loaded, port.store(1, offset, width, 7));
    are_equal(
        rt,
        &(offset, width, found),
        &(offset, width, expected(offset, width)),
    );
}

#[test]
fn takes_words_at_its_registers(rt: HostRuntime) {
    for offset in 0..28u32 {
        for width in 0..9u32 {
            takes_a_word(&rt, offset, width);
        }
    }
}

#[test]
fn starts_with_its_siblings_alone(rt: HostRuntime) {
    let found = [
        registers(&SiblingPort::new(0)),
        registers(&SiblingPort::new(4096)),
    ];
    let want = [[0, 0, 0, 0].map(Ok), [0, 0, 0, 4096].map(Ok)];
    are_equal(&rt, &found, &want);
}

/// How many siblings there are, which of them gives the command, PEER and the command; and the talk that is asked for,
/// or the word of the refusal.
type Row = (u32, u32, u32, u32, Result<Talk, u32>);

const NOBODY: Result<Talk, u32> = Err(0xffff_fffc);

const UNKNOWN: Result<Talk, u32> = Err(0xffff_fffa);

static COMMANDS: [Row; 24] = [
    (2, 1, 2, 1, Ok(Talk::Send(2))),
    (2, 2, 1, 1, Ok(Talk::Send(1))),
    (2, 1, 2, 2, Ok(Talk::Receive(2))),
    (2, 2, 1, 2, Ok(Talk::Receive(1))),
    (4096, 1, 4096, 1, Ok(Talk::Send(4096))),
    (4096, 4096, 4095, 2, Ok(Talk::Receive(4095))),
    (2, 1, 0, 1, NOBODY),
    (2, 1, 0, 2, NOBODY),
    (2, 1, 1, 1, NOBODY),
    (2, 2, 2, 2, NOBODY),
    (2, 1, 3, 1, NOBODY),
    (2, 1, 3, 2, NOBODY),
    (2, 1, 0xffff_ffff, 1, NOBODY),
    (2, 1, 0x0001_0002, 2, NOBODY),
    (1, 1, 1, 1, NOBODY),
    (1, 1, 2, 2, NOBODY),
    (0, 0, 0, 1, NOBODY),
    (0, 0, 1, 1, NOBODY),
    (0, 0, 1, 2, NOBODY),
    (2, 1, 2, 0, UNKNOWN),
    (2, 1, 2, 3, UNKNOWN),
    (2, 1, 0, 3, UNKNOWN),
    (0, 0, 0, 0xffff_ffff, UNKNOWN),
    (2, 1, 2, 0x0100_0001, UNKNOWN),
];

/// The same without the type of what is asked for.
fn told(asked: Asked) -> Result<Talk, u32> {
    match asked {
        Asked::Refused(word) => Err(word),
        Asked::Talk(talk) => Ok(talk),
    }
}

/// What comes of the store, and RESULT after it, which was FFFFFFFA.
fn want_of(asked: Result<Talk, u32>) -> (Option<Talk>, u32) {
    match asked {
        Ok(talk) => (Some(talk), 0xffff_fffa),
        Err(word) => (None, word),
    }
}

fn does_a_command(rt: &impl Abort, at: usize, row: &Row) {
    let (siblings, number, peer, command, asked) = *row;
    let mut port = port_of(rt, siblings, peer);
    let found = told(port.asked(number, command));
    let stored = port.store(number, 8, 4, command);
    let (talk, result) = want_of(asked);
    are_equal(rt, &(at, found, stored), &(at, asked, Ok(talk)));
    let want = [peer, 77, result, siblings].map(Ok);
    are_equal(rt, &(at, registers(&port)), &(at, want));
}

#[test]
fn commands_by_the_table(rt: HostRuntime) {
    for (at, row) in COMMANDS.iter().enumerate() {
        does_a_command(&rt, at, row);
    }
}

/// What a talk brings and what became of it, and then DATA and RESULT.
static TALKS: [(Option<u32>, u32, u32, u32); 4] = [
    (None, 0, 77, 0),
    (Some(5), 0, 5, 0),
    (Some(0), 0, 0, 0),
    (None, 0xffff_fff9, 77, 0xffff_fff9),
];

fn makes_a_talk(rt: &impl Abort, talk: &(Option<u32>, u32, u32, u32)) {
    let (word, result, data, shown) = *talk;
    let mut port = port_of(rt, 3, 2);
    port.talked(word, result);
    let found = (port.data(), registers(&port));
    are_equal(rt, &found, &(data, [2, data, shown, 3].map(Ok)));
}

#[test]
fn talks_leave_data_and_result(rt: HostRuntime) {
    for talk in TALKS.iter() {
        makes_a_talk(&rt, talk);
    }
}

/// What a thread loads that a port was moved to.
fn data_of_moved<R: Abort + Threads + Sync>(rt: &R, port: SiblingPort) -> u32 {
    let (data, _) = thread::join(rt, move || port.data(), || ());
    data
}

#[test]
fn moves_between_threads(rt: HostRuntime) {
    let data = data_of_moved(&rt, port_of(&rt, 3, 2));
    are_equal(&rt, &data, &77);
}
