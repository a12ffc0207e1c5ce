//! The fork port. Its registers, commands and refusals are told here by their numbers.

ghost use Rattle.std.specs.Prelude.{◌≤◌, length};

use crate::equal::{are_equal, succeeds};
use fork_port::{Asked, Call, Effect, Ending, ForkFields, ForkPort, Handed};
use port_error::{Fault, PortError};
use std::process::Abort;
use std::thread;
use std::thread::Threads;

const TICKET: u32 = 1;

const CLONE: u32 = 2;

const JOIN: u32 = 3;

const KILL: u32 = 4;

/// The first word of RESULT that is no ticket's number.
const TICKETS_END: u32 = 0xffff_fffa;

/// Carries out a command, where it is a JOIN with these endings.
fn carry_out(rt: &impl Abort, port: &mut ForkPort, command: u32, endings: &[Ending]) {
    match port.asked(command) {
        Asked::Call(Call::Clone(number)) => port.cloned(number),
        Asked::Call(Call::Kill(number)) => port.killed(number),
        Asked::Call(Call::Join(number)) => {
            if let Some((children, _, _)) = port.find(number)
                && children as usize == endings.len()
            {
                succeeds(rt, port.joined(number, endings));
            }
        }
        _ => {
            if port.fields().next_ticket < TICKETS_END {
                succeeds(rt, port.store(8, 4, command));
            }
        }
    }
}

/// Stores the arguments, carries out the command, and loads RESULT.
fn run(
    rt: &impl Abort,
    port: &mut ForkPort,
    command: u32,
    first: u32,
    second: u32,
    endings: &[Ending],
) -> u32 {
    succeeds(rt, port.store(0, 4, first));
    succeeds(rt, port.store(4, 4, second));
    carry_out(rt, port, command, endings);
    succeeds(rt, port.load(12, 4))
}

/// GRANTED and ALLOT.
fn amounts(port: &ForkPort) -> [Result<u32, Fault>; 2] {
    [port.load(36, 4), port.load(20, 4)]
}

/// What comes of a store to JSELECT, and JKIND and JVALUE of the child of the last join then.
type Joined = (Result<Effect, PortError>, [Result<u32, Fault>; 2]);

fn join_result(port: &mut ForkPort, child: u32) -> Joined {
    let stored = port.store(24, 4, child);
    (stored, [port.load(28, 4), port.load(32, 4)])
}

/// All registers that are loaded.
fn registers(port: &ForkPort) -> [Result<u32, Fault>; 9] {
    [
        port.load(0, 4),
        port.load(4, 4),
        port.load(12, 4),
        port.load(16, 4),
        port.load(20, 4),
        port.load(24, 4),
        port.load(28, 4),
        port.load(32, 4),
        port.load(36, 4),
    ]
}

/// Why a load of so many bytes at an offset fails, and what comes of a store.
type Access = (Option<Fault>, Result<Effect, PortError>);

fn expected(offset: u32, width: u32) -> Access {
    match (offset, width) {
        (0 | 4 | 24, 4) => (None, Ok(Effect::Done)),
        (8, 4) => (Some(Fault), Ok(Effect::ExitWith(0, 0, 0))),
        (12 | 16 | 20 | 28 | 32 | 36 | 44, 4) => (None, Err(PortError::Fault)),
        (64..=124, 4) if offset % 4 == 0 => (None, Err(PortError::Fault)),
        _ => (Some(Fault), Err(PortError::Fault)),
    }
}

fn takes_a_word(rt: &impl Abort, port: &mut ForkPort, offset: u32, width: u32) {
    let found = (port.load(offset, width).err(), port.store(offset, width, 7));
    are_equal(
        rt,
        &(offset, width, found),
        &(offset, width, expected(offset, width)),
    );
}

#[test]
fn takes_words_at_its_registers(rt: HostRuntime) {
    for offset in 0..132u32 {
        for width in 0..9u32 {
            let mut port = ForkPort::new(rt.alloc(), 0);
            takes_a_word(&rt, &mut port, offset, width);
        }
    }
}

/// RESULT, GRANTED and ALLOT after a command, and ticket 1.
type Told = (u32, [Result<u32, Fault>; 2], Option<(u32, u32, bool)>);

fn told_of(
    rt: &impl Abort,
    port: &mut ForkPort,
    command: u32,
    first: u32,
    second: u32,
    endings: &[Ending],
) -> Told {
    let result = run(rt, port, command, first, second, endings);
    (result, amounts(port), port.find(1))
}

fn starts(rt: &impl Abort, port: &ForkPort) {
    are_equal(rt, &registers(port), &[0, 0, 0, 0, 7, 0, 0, 0, 0].map(Ok));
}

fn is_granted_cloned_and_joined(rt: &impl Abort, port: &mut ForkPort) {
    let granted = told_of(rt, port, TICKET, 4, 2, &[]);
    are_equal(rt, &granted, &(1, [Ok(2), Ok(1)], Some((2, 2, false))));
    let cloned = told_of(rt, port, CLONE, 1, 0, &[]);
    are_equal(rt, &cloned, &(0, [Ok(2), Ok(1)], Some((2, 2, true))));
    let joined = told_of(rt, port, JOIN, 1, 0, &[exit(5, &[]), Ending::Limit]);
    are_equal(rt, &joined, &(2, [Ok(2), Ok(7)], None));
}

/// The ending of a machine that exits with this value and hands over these bytes.
fn exit(value: u32, bytes: &[u8]) -> Ending
    requires { length bytes.now ≤ 64 }
{
    Ending::Exit(value, Handed::of(bytes))
}

/// What comes of a store to JSELECT, and then JLEN and the first, the second and the last word of JBYTES of the child of
/// the last join.
type HandedOver = (Result<Effect, PortError>, [Result<u32, Fault>; 4]);

fn handed_over(port: &mut ForkPort, child: u32) -> HandedOver {
    let stored = port.store(24, 4, child);
    let told = [
        port.load(44, 4),
        port.load(0x40, 4),
        port.load(0x44, 4),
        port.load(0x7c, 4),
    ];
    (stored, told)
}

fn tells_bytes(rt: &impl Abort, port: &mut ForkPort, child: u32, want: [u32; 4]) {
    let want = (Ok(Effect::Done), want.map(Ok));
    are_equal(rt, &(child, handed_over(port, child)), &(child, want));
}

/// 64 bytes, of which a few are not 0.
fn sixty_four() -> [u8; 64] {
    let mut bytes = [0; 64];
    bytes[0] = 1;
    bytes[5] = 2;
    bytes[63] = 0xff;
    bytes
}

fn joins_three(rt: &impl Abort, port: &mut ForkPort) {
    let endings = [exit(5, &sixty_four()), exit(6, b"abcde"), Ending::Limit];
    let results = [
        run(rt, port, TICKET, 3, 0, &[]),
        run(rt, port, CLONE, 1, 0, &[]),
        run(rt, port, JOIN, 1, 0, &endings),
    ];
    are_equal(rt, &results, &[1, 0, 3]);
}

fn joins_one(rt: &impl Abort, port: &mut ForkPort) {
    let results = [
        run(rt, port, TICKET, 1, 0, &[]),
        run(rt, port, CLONE, 2, 0, &[]),
        run(rt, port, JOIN, 2, 0, &[exit(7, b"z")]),
    ];
    are_equal(rt, &results, &[2, 0, 1]);
}

/// A child of a join of three, and then JLEN and the words of its bytes.
static OF_THREE: [(u32, [u32; 4]); 6] = [
    (0, [0, 0, 0, 0]),
    (1, [64, 1, 0x200, 0xff00_0000]),
    (2, [5, 0x6463_6261, 0x65, 0]),
    (3, [0, 0, 0, 0]),
    (4, [0, 0, 0, 0]),
    (0xffff_ffff, [0, 0, 0, 0]),
];

#[test]
fn tells_the_bytes_of_a_join(rt: HostRuntime) {
    let mut port = ForkPort::new(rt.alloc(), 7);
    tells_bytes(&rt, &mut port, 1, [0, 0, 0, 0]);
    joins_three(&rt, &mut port);
    for (child, want) in OF_THREE.iter() {
        tells_bytes(&rt, &mut port, *child, *want);
    }
    joins_one(&rt, &mut port);
    tells_bytes(&rt, &mut port, 1, [1, 0x7a, 0, 0]);
    tells_bytes(&rt, &mut port, 2, [0, 0, 0, 0]);
}

/// A child of the last join, and then JKIND and JVALUE.
static JOINED: [(u32, [u32; 2]); 5] = [
    (0, [0, 0]),
    (1, [1, 5]),
    (2, [2, 0]),
    (3, [0, 0]),
    (0xffff_ffff, [0, 0]),
];

fn tells_of_a_child(rt: &impl Abort, port: &mut ForkPort, child: u32, want: [u32; 2]) {
    let want = (Ok(Effect::Done), want.map(Ok));
    are_equal(rt, &(child, join_result(port, child)), &(child, want));
}

fn tells_of_the_join(rt: &impl Abort, port: &mut ForkPort) {
    for (child, want) in JOINED.iter() {
        tells_of_a_child(rt, port, *child, *want);
    }
    are_equal(rt, &run(rt, port, TICKET, 1, 0, &[]), &2);
}

#[test]
fn a_ticket_from_its_grant_to_its_join(rt: HostRuntime) {
    let mut port = ForkPort::new(rt.alloc(), 7);
    starts(&rt, &port);
    is_granted_cloned_and_joined(&rt, &mut port);
    tells_of_the_join(&rt, &mut port);
}

/// A command with its arguments, and then RESULT, GRANTED and ALLOT.
static COMMANDS: [(u32, u32, u32, u32, u32, u32); 27] = [
    (TICKET, 0, 2, 0xffff_fffc, 0, 7),
    (TICKET, 4, 7, 0xffff_fffb, 0, 7),
    (TICKET, 4, 0xffff_ffff, 0xffff_fffb, 0, 7),
    (TICKET, 0, 0xffff_ffff, 0xffff_fffc, 0, 7),
    (CLONE, 1, 0, 0xffff_ffff, 0, 7),
    (JOIN, 1, 0, 0xffff_ffff, 0, 7),
    (KILL, 1, 0, 0xffff_ffff, 0, 7),
    (0, 1, 0, 0xffff_fffa, 0, 7),
    (0x4107, 1, 0, 0xffff_fffc, 0, 7),
    (8, 1, 0, 0xffff_fffa, 0, 7),
    (0xffff_ff07, 1, 0, 0xffff_fffc, 0, 7),
    (0x0105, 1, 0, 0xffff_fffa, 0, 7),
    (0x0100_0001, 1, 0, 0xffff_fffa, 0, 7),
    (TICKET, 4, 2, 1, 2, 1),
    (JOIN, 1, 0, 0xffff_fffd, 2, 1),
    (CLONE, 1, 0, 0, 2, 1),
    (CLONE, 1, 0, 0xffff_fffe, 2, 1),
    (TICKET, 1, 1, 0xffff_fffb, 2, 1),
    (TICKET, 9, 0, 2, 1, 0),
    (CLONE, 0, 0, 0xffff_ffff, 1, 0),
    (CLONE, 3, 0, 0xffff_ffff, 1, 0),
    (KILL, 2, 0, 0, 1, 1),
    (KILL, 2, 0, 0xffff_ffff, 1, 1),
    (KILL, 1, 0, 2, 1, 7),
    (JOIN, 1, 0, 0xffff_ffff, 1, 7),
    (TICKET, 7, 0, 3, 7, 0),
    (KILL, 3, 0, 0, 7, 7),
];

fn does_a_command(
    rt: &impl Abort,
    port: &mut ForkPort,
    at: usize,
    row: &(u32, u32, u32, u32, u32, u32),
) {
    let (command, first, second, result, granted, allot) = *row;
    let found = run(rt, port, command, first, second, &[]);
    let want = (result, [Ok(granted), Ok(allot)]);
    are_equal(rt, &(at, (found, amounts(port))), &(at, want));
}

fn does_commands(rt: &impl Abort, port: &mut ForkPort) {
    for (at, row) in COMMANDS.iter().enumerate() {
        does_a_command(rt, port, at, row);
    }
}

/// What the arguments, EXIT with bytes and without and ZERO ask of the machine, and RESULT, which they leave.
fn ask_of_the_machine(port: &mut ForkPort) -> ([Result<Effect, PortError>; 6], Result<u32, Fault>) {
    let asked = [
        port.store(0, 4, 9),
        port.store(4, 4, 2),
        port.store(8, 4, 5),
        port.store(8, 4, 6),
        port.store(8, 4, 7),
        port.store(8, 4, 0x4007),
    ];
    (asked, port.load(12, 4))
}

#[test]
fn commands_by_the_table(rt: HostRuntime) {
    let mut port = ForkPort::new(rt.alloc(), 7);
    does_commands(&rt, &mut port);
    asks_and_is_refused(&rt, &mut port);
}

fn asks_and_is_refused(rt: &impl Abort, port: &mut ForkPort) {
    let asked = [
        Effect::Done,
        Effect::Done,
        Effect::Exit(9),
        Effect::Zero(9, 2),
        Effect::ExitWith(9, 2, 0),
        Effect::ExitWith(9, 2, 64),
    ];
    are_equal(rt, &ask_of_the_machine(port), &(asked.map(Ok), Ok(0)));
    port.refuse(0xffff_fffc);
    are_equal(rt, &port.load(12, 4), &Ok(0xffff_fffc));
}

/// The children that are asked for and their share, and then GRANTED and ALLOT.
static GREATEST: [(u32, u32, u32, u32); 4] = [
    (0xffff_ffff, 0, 0xffff_ffff, 0),
    (0xffff_ffff, 1, 0x7fff_ffff, 1),
    (0xffff_ffff, 0xffff_fffe, 1, 0),
    (1, 0x7fff_ffff, 1, 0x7fff_ffff),
];

/// RESULT after each of three commands, and GRANTED and ALLOT after the first and the last.
type Given = ([u32; 3], [[Result<u32, Fault>; 2]; 2]);

fn given(rt: &impl Abort, port: &mut ForkPort, children: u32, share: u32) -> Given {
    let ticket = run(rt, port, TICKET, children, share, &[]);
    let taken = amounts(port);
    let results = [
        ticket,
        run(rt, port, CLONE, 1, 0, &[]),
        run(rt, port, KILL, 1, 0, &[]),
    ];
    (results, [taken, amounts(port)])
}

fn gives_and_takes(rt: &impl Abort, port: &mut ForkPort, row: (u32, u32, u32, u32)) {
    let (children, share, granted, allot) = row;
    let amounts = [[Ok(granted), Ok(allot)], [Ok(granted), Ok(0xffff_ffff)]];
    let want = ([1, 0, granted], amounts);
    are_equal(rt, &(row, given(rt, port, children, share)), &(row, want));
}

#[test]
fn the_greatest_tickets(rt: HostRuntime) {
    for row in GREATEST.iter() {
        let mut port = ForkPort::new(rt.alloc(), 0xffff_ffff);
        gives_and_takes(&rt, &mut port, *row);
    }
}

fn makes_a_child(rt: &impl Abort, port: &mut ForkPort, share: u32) {
    let ticket = run(rt, port, TICKET, 1, share, &[]);
    let taken = amounts(port);
    let results = [ticket, run(rt, port, CLONE, 1, 8, &[])];
    let stored = port.store(24, 4, 1);
    let want = ([1, 0], [Ok(1), Ok(0)], Ok(Effect::Done));
    are_equal(rt, &(results, taken, stored), &want);
}

fn has_fields_of_a_child(rt: &impl Abort, child: &ForkPort, share: u32) {
    let want = ForkFields {
        first_argument: 1,
        second_argument: 8,
        result: 6,
        clone_id: 6,
        allot: share,
        join_select: 1,
        granted: 1,
        next_ticket: 1,
    };
    are_equal(rt, &child.fields(), &want);
}

fn has_no_tickets(rt: &impl Abort, child: &mut ForkPort, share: u32) {
    are_equal(rt, &amounts(child), &[Ok(1), Ok(share)]);
    are_equal(
        rt,
        &join_result(child, 1),
        &(Ok(Effect::Done), [Ok(0), Ok(0)]),
    );
    are_equal(rt, &child.find(0), &None);
    are_equal(rt, &child.find(1), &None);
}

/// The child of a port that makes one.
fn child_of(rt: &impl Abort, port: &mut ForkPort, share: u32) -> ForkPort {
    makes_a_child(rt, port, share);
    let mut child = port.child(6, share);
    has_fields_of_a_child(rt, &child, share);
    has_no_tickets(rt, &mut child, share);
    child
}

fn has_no_share(rt: &impl Abort, port: &mut ForkPort) {
    are_equal(rt, &run(rt, port, TICKET, 1, 0, &[]), &0xffff_fffb);
}

static SHARES: [u32; 4] = [3, 2, 1, 0];

#[test]
fn shares_of_shares(rt: HostRuntime) {
    let mut port = ForkPort::new(rt.alloc(), 4);
    for share in SHARES.iter() {
        port = child_of(&rt, &mut port, *share);
    }
    has_no_share(&rt, &mut port);
}

fn has_fields(rt: &impl Abort, port: &ForkPort, fields: ForkFields) {
    are_equal(rt, &(port.fields(), port.find(1)), &(fields, None));
}

fn gives_the_next_ticket(rt: &impl Abort, port: &mut ForkPort) {
    are_equal(rt, &run(rt, port, TICKET, 9, 0, &[]), &2);
}

#[test]
fn fields_make_a_port_without_tickets(rt: HostRuntime) {
    let mut port = ForkPort::new(rt.alloc(), 9);
    let fields = fields_after_a_ticket(&rt, &mut port);
    let mut same = ForkPort::of_fields(rt.alloc(), fields);
    has_fields(&rt, &same, fields);
    gives_the_next_ticket(&rt, &mut same);
}

fn fields_after_a_ticket(rt: &impl Abort, port: &mut ForkPort) -> ForkFields {
    let stored = (run(rt, port, TICKET, 2, 1, &[]), port.store(24, 4, 3));
    let fields = port.fields();
    are_equal(rt, &stored, &(1, Ok(Effect::Done)));
    are_equal(
        rt,
        &[fields.result, fields.granted, fields.allot],
        &[1, 2, 5],
    );
    fields
}

const FIELDS: ForkFields = ForkFields {
    first_argument: 1,
    second_argument: 2,
    result: 3,
    clone_id: 4,
    allot: 5,
    join_select: 6,
    granted: 7,
    next_ticket: 8,
};

#[test]
fn registers_by_their_offsets(rt: HostRuntime) {
    let port = ForkPort::of_fields(rt.alloc(), FIELDS);
    are_equal(&rt, &registers(&port), &[1, 2, 3, 4, 5, 6, 0, 0, 7].map(Ok));
}

/// The number of a ticket that is asked for in a thread.
fn ticket_of_moved<R: Abort + Threads + Sync>(rt: &R, mut port: ForkPort) -> u32 {
    let (number, _) = thread::join(rt, move || run(rt, &mut port, TICKET, 1, 0, &[]), || ());
    number
}

#[test]
fn moves_between_threads(rt: HostRuntime) {
    let number = ticket_of_moved(&rt, ForkPort::new(rt.alloc(), 1));
    are_equal(&rt, &number, &1);
}
