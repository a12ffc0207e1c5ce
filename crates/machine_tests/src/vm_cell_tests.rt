//! One machine: that calls succeed. What whole guests come to is tested by the command line.

ghost use Rattle.std.specs.Prelude.{◌≡◌, ◌≤◌, ◌%◌, length, IfOk};
ghost use Rattle.image_depot.specs.Key.{IsKeyOf};
ghost use Rattle.vm_cell.specs.Keyed.{IsOfDepot};
ghost use Rattle.vm_cell.specs.Woken.{AreOfImage};

use crate::absent::{ChildCourse, bring, forks_a_child};
use crate::equal::{are_equal, succeeds};
use crate::guests::{TWO_CHILDREN, booted_at, run, step};
use elf_load::RAM_BASE;
use forest_model::{Ending, Handed};
use fork_port::Call;
use image_depot::Depot;
use std::alloc::{AllocError, Global};
use std::process::Abort;
use std::sync::Wait;
use vm_cell::{ForkImage, Stepped, Vm};
use vm_descriptor::{DescError, Descriptor};

static EXIT_SEVEN: [u32; 5] = [0x100022b7, 0x00700313, 0x0062a023, 0x00500313, 0x0062a423];

// What a machine does once it is made.
#[derive(Drop)]
pub(crate) enum Course<'a> {
    // It shows its words and registers after two steps.
    Shows,
    // It stops, goes on and ends with the value 7.
    GoesOn,
    // It makes two children, and joins them.
    Joins,
    // It makes two children, the first of which has a descriptor.
    Describes,
    // The same, and so its descriptor tells of pages.
    TellsOfPages(&'a [u8]),
    // It makes a child, which goes a course of its own.
    Forks(ChildCourse<'a>),
}

fn goes_its_course<R: Abort + Wait>(
    rt: &R,
    alloc: Global,
    vm: &mut Vm,
    depot: &Depot,
    course: &Course<'_>,
)
    requires { IsOfDepot depot.now vm.old.key }
{
    match course {
        Course::Shows => runs_and_shows(rt, alloc, vm, depot),
        Course::GoesOn => goes_on(rt, alloc, vm),
        Course::Joins => joins_both(rt, alloc, vm, depot),
        Course::Describes => describes_a_child(rt, alloc, vm, depot),
        Course::TellsOfPages(map) => tells_of_pages(rt, alloc, vm, depot, map),
        Course::Forks(child) => forks_a_child(rt, alloc, vm, depot, child),
    }
}

// The machine of these words, from a base on, with so many pages, goes its course.
pub(crate) fn machine_does<R: Abort + Wait>(
    rt: &R,
    alloc: Global,
    base: u32,
    words: &[u32],
    pages: u32,
    course: &Course<'_>,
)
    requires base { base % 4 ≡ 0 }
    requires words { length words.now ≤ 64 }
    requires least { 16 ≤ pages }
    requires most { pages ≤ 16_384 }
{
    let depot = succeeds(rt, Depot::new(alloc));
    let mut vm = booted_at(rt, alloc, base, words, pages);
    goes_its_course(rt, alloc, &mut vm, &depot, course);
}

#[test]
fn shows_words_and_registers(rt: HostRuntime) {
    machine_does(&rt, rt.alloc(), RAM_BASE, &EXIT_SEVEN, 64, &Course::Shows);
}

// The machine that exits with 7, after two steps.
fn runs_and_shows(rt: &impl Abort, alloc: Global, vm: &mut Vm, depot: &Depot)
    requires { IsOfDepot depot.now vm.old.key }
{
    run(rt, alloc, vm, 2);
    shows(rt, vm, depot);
}

fn shows(rt: &impl Abort, vm: &Vm, depot: &Depot)
    requires { IsOfDepot depot.now vm.now.key }
{
    let words = [
        vm.peek(depot, 0x8000_0004),
        vm.peek(depot, 0x8003_fffc),
        vm.peek(depot, 0x8000_0002),
        vm.peek(depot, 0x8004_0000),
    ];
    are_equal(rt, &words, &[Some(0x0070_0313), Some(0), None, None]);
    // x5 is the fork port, and x6 the value to exit with
    let mut registers = [0; 32];
    registers[0] = 0x8000_0008;
    registers[5] = 0x1000_2000;
    registers[6] = 7;
    are_equal(rt, &vm.regs(), &registers);
}

#[test]
fn stops_and_goes_on(rt: HostRuntime) {
    machine_does(&rt, rt.alloc(), RAM_BASE, &EXIT_SEVEN, 64, &Course::GoesOn);
}

// How many steps a machine makes by a run, by a run after three more steps, and in all; and what comes of the first
// run and of each of the three steps.
fn goes_on(rt: &impl Abort, alloc: Global, vm: &mut Vm) {
    let ran = run(rt, alloc, vm, 3);
    let stops = [ran.why, step(rt, vm), step(rt, vm), step(rt, vm)];
    let last = run(rt, alloc, vm, 3);
    let steps = [ran.steps, last.steps, vm.steps()];
    let ended = Stepped::Ended(exit(7));
    let want = [Stepped::Went, Stepped::Went, ended, ended];
    are_equal(rt, &(steps, stops), &([3, 0, 5], want));
}

// Makes the CLONE that a machine stands at, of a ticket for so many children. It is refused where memory is wanting, or
// where there is no such CLONE.
fn fork<R: Wait>(
    rt: &R,
    alloc: Global,
    vm: &mut Vm,
    children: u32,
    depot: &Depot,
) -> Result<ForkImage, AllocError>
    requires { IsOfDepot depot.now vm.old.key }
    ensures here { IfOk result (λ brood. IsKeyOf depot.now brood.key) }
    ensures seeds { IfOk result (λ brood. AreOfImage brood.key children brood.seed) }
{
    match vm.call() {
        Some(Call::Clone(ticket)) if vm.granted(ticket) == children => {
            Ok(vm.freeze_child(rt, alloc, depot)?)
        }
        _ => Err(AllocError),
    }
}

// Runs a machine to its CLONE, and makes it.
pub(crate) fn run_and_fork<R: Abort + Wait>(
    rt: &R,
    alloc: Global,
    vm: &mut Vm,
    children: u32,
    depot: &Depot,
) -> ForkImage
    requires { IsOfDepot depot.now vm.old.key }
    ensures here { IsKeyOf depot.now result.key }
    ensures seeds { AreOfImage result.key children result.seed }
{
    run(rt, alloc, vm, 1000);
    succeeds(rt, fork(rt, alloc, vm, children, depot))
}

// A child of a brood of two.
fn child_of(alloc: Global, brood: &ForkImage, number: u32, depot: &Depot) -> Result<Vm, AllocError>
    requires here { IsKeyOf depot.now brood.now.key }
    requires seeds { AreOfImage brood.now.key 2 brood.now.seed }
    requires first { 1 ≤ number }
    requires last { number ≤ 2 }
    ensures { IfOk result (λ vm. IsOfDepot depot.now vm.key) }
{
    let seed = brood.seed.through_bytes(alloc, number)?;
    Ok(Vm::wake(alloc, &seed, 2, &brood.key, depot)?)
}

// How a child of a brood of two ends, which the page of its code is enough for.
fn end_of(
    rt: &impl Abort,
    alloc: Global,
    brood: &ForkImage,
    number: u32,
    depot: &Depot,
) -> Option<Ending>
    requires here { IsKeyOf depot.now brood.now.key }
    requires seeds { AreOfImage brood.now.key 2 brood.now.seed }
    requires first { 1 ≤ number }
    requires last { number ≤ 2 }
{
    let mut child = succeeds(rt, child_of(alloc, brood, number, depot));
    bring(rt, alloc, &mut child, depot, 0);
    run(rt, alloc, &mut child, 1000);
    child.ended()
}

// Makes the JOIN that a machine stands at.
fn join(rt: &impl Abort, vm: &mut Vm, endings: &[Ending]) {
    match vm.call() {
        Some(Call::Join(ticket)) if endings.len() == vm.granted(ticket) as usize => {
            succeeds(rt, vm.joined(endings));
        }
        _ => panic!(rt; "no such JOIN"),
    }
}

#[test]
fn a_parent_joins_its_children(rt: HostRuntime) {
    machine_does(&rt, rt.alloc(), RAM_BASE, &TWO_CHILDREN, 64, &Course::Joins);
}

// Runs a machine to its CLONE, both children to their ends, the machine to its JOIN, and then to its own end.
fn joins_both<R: Abort + Wait>(rt: &R, alloc: Global, vm: &mut Vm, depot: &Depot)
    requires { IsOfDepot depot.now vm.old.key }
{
    let clones = run(rt, alloc, vm, 1000).why;
    let endings = ends_of_both(rt, alloc, vm, depot);
    let joins = run(rt, alloc, vm, 1000).why;
    let both = endings_of_both();
    join(rt, vm, &both);
    let ends = run(rt, alloc, vm, 1000).why;
    let stops = [
        Stepped::Call(Call::Clone(1)),
        Stepped::Call(Call::Join(1)),
        Stepped::Ended(exit(41)),
    ];
    are_equal(
        rt,
        &(endings, [clones, joins, ends], vm.steps()),
        &(both.map(Some), stops, 21),
    );
}

/// How both children end.
fn endings_of_both() -> [Ending; 2] {
    [41, 42].map(exit)
}

/// EXIT with a value and no bytes.
fn exit(value: u32) -> Ending {
    Ending::Exit(value, Handed::none())
}

fn ends_of_both<R: Abort + Wait>(
    rt: &R,
    alloc: Global,
    vm: &mut Vm,
    depot: &Depot,
) -> [Option<Ending>; 2]
    requires { IsOfDepot depot.now vm.old.key }
{
    let brood = succeeds(rt, fork(rt, alloc, vm, 2, depot));
    [
        end_of(rt, alloc, &brood, 1, depot),
        end_of(rt, alloc, &brood, 2, depot),
    ]
}

/// Bytes of the descriptor of the first child, by their places.
static FIRST_CHILD: [(usize, &[u8]); 10] = [
    (0, b"SFD3"),
    (12, b"\x01\0\0\0\0\0\0\0\x28\0\0\x80"),
    (40, b"\0\x20\0\x10\x02\0\0\0\x01\0\0\0"),
    (148, b"\0\x18\0\0"),
    (200, b"\xff\xff\xff\xff\xff\xff\xff\xff"),
    (208, b"\x0a\0\0\0\0\0\0\0\x40\x42\x0f\0\0\0\0\0"),
    (224, b"\0\0\0\0\0\0\0\0"),
    (248, b"\x01\0\0\0"),
    (260, b"\x02\0\0\0"),
    (816, b"\0\xfe\xff"),
];

/// How long those bytes are and an 0xff behind them are cut, a byte at a place, and the reason for which they are refused
/// then.
static REFUSED: [(usize, usize, u8, u32); 9] = [
    (775, 0, b'S', 1),
    (818, 0, b'S', 4),
    (819, 0, 0, 2),
    (819, 8, 0x0f, 3),
    (819, 8, 0x11, 4),
    (819, 12, 0, 5),
    (819, 20, 0x29, 5),
    (820, 0, b'S', 4),
    (820, 8, 20, 6),
];

// The reason for which bytes are refused, if they are.
fn reason(alloc: Global, bytes: &[u8]) -> Option<DescError> {
    Descriptor::decode(alloc, bytes).err()
}

#[test]
fn a_descriptor_goes_through_its_bytes(rt: HostRuntime) {
    machine_does(
        &rt,
        rt.alloc(),
        RAM_BASE,
        &TWO_CHILDREN,
        16,
        &Course::Describes,
    );
}

fn describes_a_child<R: Abort + Wait>(rt: &R, alloc: Global, vm: &mut Vm, depot: &Depot)
    requires { IsOfDepot depot.now vm.old.key }
{
    let brood = run_and_fork(rt, alloc, vm, 2, depot);
    is_read_or_refused(rt, alloc, brood.seed.bytes());
}

fn is_read_or_refused(rt: &impl Abort, alloc: Global, bytes: &[u8]) {
    are_equal(rt, &(bytes.len(), misplaced(bytes)), &(819, None));
    is_spelled(rt, alloc, bytes);
    for (length, at, byte, number) in REFUSED.iter() {
        is_refused(rt, alloc, bytes, (*length, *at, *byte), *number);
    }
}

// The first place at which bytes do not stand as the table tells, if there is one.
fn misplaced(bytes: &[u8]) -> Option<usize> {
    for (at, part) in FIRST_CHILD.iter() {
        if !bytes.split_at(*at.min(&bytes.len())).1.starts_with(part) {
            return Some(*at);
        }
    }
    None
}

// The form of the map of pages and the map, which stand last. Page 0 alone is not blank.
#[test]
fn descriptors_tell_of_pages(rt: HostRuntime) {
    tells_at(&rt, rt.alloc(), 16, b"\0\xfe\xff");
    tells_at(&rt, rt.alloc(), 1024, b"\x01\x01\0\xff\x03");
    tells_at(&rt, rt.alloc(), 16_384, b"\x01\x01\0\xff\x3f");
}

fn tells_at<R: Abort + Wait>(rt: &R, alloc: Global, pages: u32, map: &[u8])
    requires least { 16 ≤ pages }
    requires most { pages ≤ 16_384 }
{
    let course = Course::TellsOfPages(map);
    machine_does(rt, alloc, RAM_BASE, &TWO_CHILDREN, pages, &course);
}

fn tells_of_pages<R: Abort + Wait>(rt: &R, alloc: Global, vm: &mut Vm, depot: &Depot, map: &[u8])
    requires { IsOfDepot depot.now vm.old.key }
{
    let brood = run_and_fork(rt, alloc, vm, 2, depot);
    let bytes = brood.seed.bytes();
    are_equal(rt, &bytes.split_at(bytes.len().min(816)).1, &map);
    is_spelled(rt, alloc, bytes);
}

// Bytes are read, and what they are read as has the same bytes.
fn is_spelled(rt: &impl Abort, alloc: Global, bytes: &[u8]) {
    let descriptor = succeeds(rt, Descriptor::decode(alloc, bytes));
    assert!(rt; descriptor.is_in_range());
    let again = succeeds(rt, descriptor.encode(alloc));
    are_equal(rt, &again.as_slice(), &bytes);
}

// The bytes and an 0xff behind them, cut to a length, with another byte at a place.
fn changed(rt: &impl Abort, alloc: Global, bytes: &[u8], change: (usize, usize, u8)) -> Vec<u8> {
    let (length, at, byte) = change;
    let mut changed = succeeds(rt, Vec::from_slice(alloc, bytes));
    succeeds(rt, changed.push(0xff));
    changed.truncate(length);
    if let Some(old) = changed.get_mut(at) {
        *old = byte;
    }
    changed
}

fn is_refused(
    rt: &impl Abort,
    alloc: Global,
    bytes: &[u8],
    change: (usize, usize, u8),
    number: u32,
) {
    let changed = changed(rt, alloc, bytes, change);
    let want = Some(DescError::Refused(number));
    are_equal(rt, &(change, reason(alloc, &changed)), &(change, want));
}
