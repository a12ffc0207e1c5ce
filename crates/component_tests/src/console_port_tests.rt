//! The console.

ghost use Rattle.std.specs.Prelude.{◌≤◌, length};

use crate::equal::{are_equal, succeeds};
use console_port::{ConsoleFields, ConsolePort, Input};
use port_error::{Fault, PortError};
use std::alloc::{AllocError, Global};
use std::process::Abort;
use std::thread;
use std::thread::Threads;

/// Why a load of so many bytes at an offset fails, and what comes of a store.
type Access = (Option<Fault>, Result<(), PortError>);

fn expected(offset: u32, width: u32) -> Access {
    if offset < 8 && width == 1 {
        (None, Ok(()))
    } else {
        (Some(Fault), Err(PortError::Fault))
    }
}

fn takes_a_byte(rt: &impl Abort, port: &mut ConsolePort, offset: u32, width: u32) {
    let found = (port.load(offset, width).err(), port.store(offset, width, 0));
    are_equal(
        rt,
        &(offset, width, found),
        &(offset, width, expected(offset, width)),
    );
}

fn takes_bytes(rt: &impl Abort, port: &mut ConsolePort) {
    for offset in 0..16u32 {
        for width in 0..9u32 {
            takes_a_byte(rt, port, offset, width);
        }
    }
    are_equal(rt, &port.output(), &[0].as_slice());
}

#[test]
fn takes_bytes_at_eight_offsets(rt: HostRuntime) {
    let mut port = succeeds(&rt, ConsolePort::new(rt.alloc(), b"Z"));
    takes_bytes(&rt, &mut port);
}

/// What all eight registers read, from the last to the first.
fn registers(port: &mut ConsolePort) -> [Result<u32, Fault>; 8] {
    [
        port.load(7, 1),
        port.load(6, 1),
        port.load(5, 1),
        port.load(4, 1),
        port.load(3, 1),
        port.load(2, 1),
        port.load(1, 1),
        port.load(0, 1),
    ]
}

/// What is stored at an offset, and what all eight registers read then.
static STORES: [(u32, u32, [u32; 8]); 6] = [
    (3, 0x103, [0, 0, 0x61, 0, 3, 0, 0, 0x59]),
    (0, 0x141, [0, 0, 0x61, 0, 3, 0, 0, 0x5a]),
    (0, 0x142, [0, 0, 0x60, 0, 3, 0, 0, 0]),
    (3, 0x80, [0, 0, 0x60, 0, 0x80, 0, 0, 0]),
    (0, 0x43, [0, 0, 0x60, 0, 0x80, 0, 0, 0]),
    (5, 0xff, [0, 0, 0x60, 0, 0x80, 0, 0, 0]),
];

fn stores_a_byte(rt: &impl Abort, port: &mut ConsolePort, row: &(u32, u32, [u32; 8])) {
    let (offset, word, want) = *row;
    let stored = port.store(offset, 1, word);
    are_equal(
        rt,
        &(row, stored, registers(port)),
        &(row, Ok(()), want.map(Ok)),
    );
}

fn loads_and_stores(rt: &impl Abort, port: &mut ConsolePort) {
    for row in STORES.iter() {
        stores_a_byte(rt, port, row);
    }
}

#[test]
fn loads_and_stores_by_the_table(rt: HostRuntime) {
    let mut port = succeeds(&rt, ConsolePort::new(rt.alloc(), b"YZ"));
    loads_and_stores(&rt, &mut port);
    let output = port.into_output();
    are_equal(&rt, &output.as_slice(), &b"AB".as_slice());
}

fn starts_with(rt: &impl Abort, port: &mut ConsolePort, read: [u32; 8]) {
    let fields = port.fields();
    let found = (fields.place, fields.line_control, registers(port));
    are_equal(rt, &found, &(0, 0, read.map(Ok)));
}

/// What is read of a port that starts with this input.
fn is_read_of(rt: &impl Abort, alloc: Global, input: &[u8], read: [u32; 8])
    requires { length input.now ≤ 65536 }
{
    let mut port = succeeds(rt, ConsolePort::new(alloc, input));
    starts_with(rt, &mut port, read);
}

#[test]
fn starts_with_registers_of_zeros(rt: HostRuntime) {
    is_read_of(&rt, rt.alloc(), b"", [0, 0, 0x60, 0, 0, 0, 0, 0]);
    is_read_of(&rt, rt.alloc(), b"Z", [0, 0, 0x61, 0, 0, 0, 0, 0x5a]);
}

fn is_latched(rt: &impl Abort, port: &mut ConsolePort, fields: ConsoleFields) {
    let latched = [port.load(0, 1), port.load(5, 1)];
    are_equal(rt, &(latched, port.fields()), &([Ok(0), Ok(0x61)], fields));
}

fn reads_on(rt: &impl Abort, port: &mut ConsolePort) {
    let read = (port.store(3, 1, 0x03), port.load(0, 1));
    are_equal(rt, &(read, port.fields().place), &((Ok(()), Ok(0x5a)), 2));
}

fn keeps_its_input(rt: &impl Abort, port: &mut ConsolePort, fields: ConsoleFields) {
    is_latched(rt, port, fields);
    reads_on(rt, port);
    are_equal(rt, &port.input(), &b"YZ".as_slice());
}

/// The input of the bytes YZ.
fn input_of_two(alloc: Global) -> Result<Input, AllocError> {
    Input::new(alloc, b"YZ".to_vec(alloc)?)
}

#[test]
fn a_latched_console_keeps_its_input(rt: HostRuntime) {
    let fields = ConsoleFields {
        place: 1,
        line_control: 0x83,
    };
    let input = succeeds(&rt, input_of_two(rt.alloc()));
    let mut port = ConsolePort::of_fields(rt.alloc(), fields, input);
    keeps_its_input(&rt, &mut port, fields);
}

/// The byte that is read in a thread.
fn byte_of_moved<R: Threads>(rt: &R, mut port: ConsolePort) -> Result<u32, Fault> {
    let (byte, _) = thread::join(rt, move || port.load(0, 1), || ());
    byte
}

#[test]
fn moves_between_threads(rt: HostRuntime) {
    let byte = byte_of_moved(&rt, succeeds(&rt, ConsolePort::new(rt.alloc(), b"Z")));
    are_equal(&rt, &byte, &Ok(0x5a));
}
