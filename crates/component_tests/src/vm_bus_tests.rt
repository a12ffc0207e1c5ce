//! The bus: each port at its addresses.

ghost use Rattle.std.specs.Prelude.{◌≡◌, ◌≤◌};

use crate::equal::{are_equal, succeeds};
use cow_disk::Disk;
use port_error::{Fault, PortError};
use std::alloc::Global;
use std::process::Abort;
use vm_bus::{Effect, Ports};

/// The ports of a machine with a disk of one sector of bytes AA, one byte of input and 3 clones.
fn ports_at_start(rt: &impl Abort, alloc: Global) -> Ports {
    let disk = succeeds(rt, Disk::from_bytes(alloc, &[0xaa; 512]));
    succeeds(rt, Ports::new(alloc, disk, b"Z", 3))
}

/// What a load of so many bytes at an address gives a machine that starts.
static LOADS: [(u32, u32, Result<u32, Fault>); 52] = [
    (0x0000_0000, 4, Err(Fault)),
    (0x0200_3ffc, 4, Err(Fault)),
    (0x0200_4000, 4, Ok(0xffff_ffff)),
    (0x0200_4000, 2, Err(Fault)),
    (0x0200_4000, 1, Err(Fault)),
    (0x0200_4004, 4, Ok(0xffff_ffff)),
    (0x0200_4008, 4, Err(Fault)),
    (0x0200_bff4, 4, Err(Fault)),
    (0x0200_bff8, 4, Ok(0)),
    (0x0200_bff8, 2, Err(Fault)),
    (0x0200_bffc, 4, Ok(0)),
    (0x0200_c000, 4, Err(Fault)),
    (0x0fff_ffff, 1, Err(Fault)),
    (0x1000_0000, 1, Ok(0x5a)),
    (0x1000_0000, 2, Err(Fault)),
    (0x1000_0000, 4, Err(Fault)),
    (0x1000_0005, 1, Ok(0x61)),
    (0x1000_0007, 1, Ok(0)),
    (0x1000_0008, 1, Err(Fault)),
    (0x1000_0fff, 1, Err(Fault)),
    (0x1000_1000, 4, Ok(0)),
    (0x1000_1000, 1, Err(Fault)),
    (0x1000_1004, 4, Err(Fault)),
    (0x1000_1008, 4, Ok(0)),
    (0x1000_100c, 4, Ok(1)),
    (0x1000_11fc, 4, Err(Fault)),
    (0x1000_1200, 4, Ok(0)),
    (0x1000_13fc, 4, Ok(0)),
    (0x1000_1400, 4, Err(Fault)),
    (0x1000_1fff, 1, Err(Fault)),
    (0x1000_2000, 4, Ok(0)),
    (0x1000_2000, 1, Err(Fault)),
    (0x1000_2008, 4, Err(Fault)),
    (0x1000_200c, 4, Ok(0)),
    (0x1000_2014, 4, Ok(3)),
    (0x1000_2024, 4, Ok(0)),
    (0x1000_2028, 4, Err(Fault)),
    (0x1000_202c, 4, Ok(0)),
    (0x1000_203c, 4, Err(Fault)),
    (0x1000_2040, 4, Ok(0)),
    (0x1000_207c, 4, Ok(0)),
    (0x1000_207e, 4, Err(Fault)),
    (0x1000_2080, 4, Err(Fault)),
    (0x1000_2ffc, 4, Err(Fault)),
    (0x1000_3000, 4, Ok(0)),
    (0x1000_3000, 1, Err(Fault)),
    (0x1000_3004, 4, Ok(0)),
    (0x1000_3008, 4, Err(Fault)),
    (0x1000_300c, 4, Ok(0)),
    (0x1000_3010, 4, Ok(0)),
    (0x1000_3014, 4, Err(Fault)),
    (0xffff_ffff, 1, Err(Fault)),
];

/// A load gives a machine that starts what the row tells.
fn loads(rt: &impl Abort, alloc: Global, row: &(u32, u32, Result<u32, Fault>)) {
    let (address, width, _) = *row;
    let mut ports = ports_at_start(rt, alloc);
    are_equal(rt, &(address, width, ports.load(address, width)), row);
}

#[test]
fn loads_at_each_port_s_edges(rt: HostRuntime) {
    for row in LOADS.iter() {
        loads(&rt, rt.alloc(), row);
    }
}

/// A store, which grants no ticket. Where it touches an absent page of the disk, it is not made.
fn stored(ports: &mut Ports, address: u32, width: u32, word: u32) -> Result<Effect, PortError>
    requires { address ≡ 0x1000_2008 → 2 ≤ word }
{
    if let Some(page) = ports.touched(address, width, word) {
        if !ports.is_here(page) {
            return Err(PortError::Memory);
        }
    }
    ports.store(address, width, word)
}

/// What a store of so many low bytes of 5 at an address does to a machine that starts.
static STORES: [(u32, u32, Result<Effect, PortError>); 45] = [
    (0x0000_0000, 4, Err(PortError::Fault)),
    (0x0200_3ffc, 4, Err(PortError::Fault)),
    (0x0200_4000, 4, Ok(Effect::Done)),
    (0x0200_4000, 1, Err(PortError::Fault)),
    (0x0200_4004, 4, Ok(Effect::Done)),
    (0x0200_4008, 4, Err(PortError::Fault)),
    (0x0200_bff4, 4, Err(PortError::Fault)),
    (0x0200_bff8, 4, Ok(Effect::TimeWritten)),
    (0x0200_bffc, 4, Ok(Effect::TimeWritten)),
    (0x0200_c000, 4, Err(PortError::Fault)),
    (0x0fff_ffff, 1, Err(PortError::Fault)),
    (0x1000_0000, 1, Ok(Effect::Done)),
    (0x1000_0000, 4, Err(PortError::Fault)),
    (0x1000_0007, 1, Ok(Effect::Done)),
    (0x1000_0008, 1, Err(PortError::Fault)),
    (0x1000_0fff, 1, Err(PortError::Fault)),
    (0x1000_1000, 4, Ok(Effect::Done)),
    (0x1000_1000, 2, Err(PortError::Fault)),
    (0x1000_1004, 4, Ok(Effect::Done)),
    (0x1000_1008, 4, Err(PortError::Fault)),
    (0x1000_100c, 4, Err(PortError::Fault)),
    (0x1000_11fc, 4, Err(PortError::Fault)),
    (0x1000_1200, 4, Ok(Effect::Done)),
    (0x1000_13fc, 4, Ok(Effect::Done)),
    (0x1000_1400, 4, Err(PortError::Fault)),
    (0x1000_1fff, 1, Err(PortError::Fault)),
    (0x1000_2000, 4, Ok(Effect::Done)),
    (0x1000_2000, 1, Err(PortError::Fault)),
    (0x1000_2004, 4, Ok(Effect::Done)),
    (0x1000_200c, 4, Err(PortError::Fault)),
    (0x1000_2018, 4, Ok(Effect::Done)),
    (0x1000_2008, 4, Ok(Effect::Exit(0))),
    (0x1000_2028, 4, Err(PortError::Fault)),
    (0x1000_202c, 4, Err(PortError::Fault)),
    (0x1000_2040, 4, Err(PortError::Fault)),
    (0x1000_207c, 4, Err(PortError::Fault)),
    (0x1000_2ffc, 4, Err(PortError::Fault)),
    (0x1000_3000, 4, Ok(Effect::Done)),
    (0x1000_3000, 2, Err(PortError::Fault)),
    (0x1000_3004, 4, Ok(Effect::Done)),
    (0x1000_3008, 4, Ok(Effect::Done)),
    (0x1000_300c, 4, Err(PortError::Fault)),
    (0x1000_3010, 4, Err(PortError::Fault)),
    (0x1000_3014, 4, Err(PortError::Fault)),
    (0xffff_ffff, 1, Err(PortError::Fault)),
];

/// A store of 5 does to a machine that starts what the row tells.
fn stores(rt: &impl Abort, alloc: Global, row: &(u32, u32, Result<Effect, PortError>)) {
    let (address, width, _) = *row;
    let mut ports = ports_at_start(rt, alloc);
    let found = stored(&mut ports, address, width, 5);
    are_equal(rt, &(address, width, found), row);
}

#[test]
fn stores_at_each_port_s_edges(rt: HostRuntime) {
    for row in STORES.iter() {
        stores(&rt, rt.alloc(), row);
    }
}

/// Whether the timer is due. A step is counted then.
fn is_due_and_counts(ports: &mut Ports) -> bool {
    let is_due = ports.is_timer_due();
    ports.count_time(false);
    is_due
}

/// mtimecmp becomes 2.
fn sets_the_time(rt: &impl Abort, ports: &mut Ports) {
    let stores = [
        stored(ports, 0x0200_4004, 4, 0),
        stored(ports, 0x0200_4000, 4, 2),
    ];
    are_equal(rt, &stores, &[Ok(Effect::Done), Ok(Effect::Done)]);
}

/// mtime counts to mtimecmp.
fn times(rt: &impl Abort, ports: &mut Ports) {
    let due = [
        is_due_and_counts(ports),
        is_due_and_counts(ports),
        is_due_and_counts(ports),
    ];
    ports.count_time(true);
    let time = ports.load(0x0200_bff8, 4);
    are_equal(rt, &(due, time), &([false, false, true], Ok(3)));
}

fn puts_out_and_exits(rt: &impl Abort, ports: &mut Ports) {
    let stores = [
        stored(ports, 0x1000_0000, 1, 0x141),
        stored(ports, 0x1000_2000, 4, 9),
        stored(ports, 0x1000_2008, 4, 5),
    ];
    are_equal(
        rt,
        &stores,
        &[Ok(Effect::Done), Ok(Effect::Done), Ok(Effect::Exit(9))],
    );
}

/// The address of the block port's COMMAND.
const BLOCK_COMMAND: u32 = 0x1000_1004;

/// Sector 0 goes to the buffer.
fn reads_the_disk(rt: &impl Abort, ports: &mut Ports) {
    let read = stored(ports, BLOCK_COMMAND, 4, 1);
    let word = ports.load(0x1000_1200, 4);
    are_equal(rt, &(read, word), &(Ok(Effect::Done), Ok(0xaaaa_aaaa)));
}

/// The buffer goes to sector 0, with another first word.
fn writes_the_disk(rt: &impl Abort, ports: &mut Ports) {
    let stores = [
        stored(ports, 0x1000_1200, 4, 7),
        stored(ports, BLOCK_COMMAND, 4, 2),
    ];
    are_equal(rt, &stores, &[Ok(Effect::Done), Ok(Effect::Done)]);
    are_equal(rt, &ports.load(0x1000_1200, 4), &Ok(7));
}

fn keeps_the_sector(rt: &impl Abort, disk: &Disk) {
    let mut sector = [0; 512];
    let read = disk.read_sector(0, &mut sector);
    let found = (read, [sector[0], sector[1], sector[4]]);
    are_equal(rt, &found, &(Ok(()), [7, 0, 0xaa]));
}

fn keeps(rt: &impl Abort, ports: &Ports) {
    keeps_the_sector(rt, ports.disk());
    are_equal(rt, &ports.input(), &b"Z".as_slice());
    are_equal(rt, &ports.output(), &b"A".as_slice());
}

fn all_keep(rt: &impl Abort, ports: &mut Ports) {
    sets_the_time(rt, ports);
    times(rt, ports);
    puts_out_and_exits(rt, ports);
    reads_the_disk(rt, ports);
    writes_the_disk(rt, ports);
    keeps(rt, ports);
}

#[test]
fn each_port_keeps_what_is_stored(rt: HostRuntime) {
    let mut ports = ports_at_start(&rt, rt.alloc());
    all_keep(&rt, &mut ports);
    let output = ports.into_output();
    are_equal(&rt, &output.as_slice(), &b"A".as_slice());
}
