//! What no clause says of names: that they are made where there is memory, and how some compare.

use crate::equal::{are_equal, succeeds};
use machine_names::{Branch, Name};
use std::alloc::Global;
use std::cmp::Ordering;
use std::process::Abort;

/// The name with these forks, each a ticket and a child's number.
fn named(rt: &impl Abort, alloc: Global, forks: &[(u32, u32)]) -> Name {
    let mut name = succeeds(rt, Name::root(alloc));
    for (ticket, child) in forks {
        name = succeeds(rt, name.child(alloc, *ticket, *child));
    }
    name
}

/// The forks of two names, of which the first comes first, and their texts.
static IN_ORDER: [(&[(u32, u32)], &str, &[(u32, u32)], &str); 8] = [
    (&[], "0", &[(1, 1)], "0.1.1"),
    (&[(1, 1)], "0.1.1", &[(1, 2)], "0.1.2"),
    (&[(1, 9)], "0.1.9", &[(2, 1)], "0.2.1"),
    (&[(1, 11)], "0.1.11", &[(11, 1)], "0.11.1"),
    // A name with fewer forks comes first, whatever they are.
    (&[(9, 9)], "0.9.9", &[(1, 1), (1, 1)], "0.1.1.1.1"),
    (&[(1, 1)], "0.1.1", &[(1, 1), (1, 1)], "0.1.1.1.1"),
    // The last forks decide first.
    (
        &[(2, 1), (1, 1)],
        "0.2.1.1.1",
        &[(1, 1), (1, 2)],
        "0.1.1.1.2",
    ),
    (
        &[(1, 1), (1, 1)],
        "0.1.1.1.1",
        &[(2, 1), (1, 1)],
        "0.2.1.1.1",
    ),
];

fn are_in_order(rt: &impl Abort, first: &Name, second: &Name) {
    let orders = [first.cmp(second), second.cmp(first)];
    let same = [first == first, first == second];
    let want = ([Ordering::Less, Ordering::Greater], [true, false]);
    are_equal(rt, &(orders, same), &want);
}

pub(crate) fn has_text(rt: &impl Abort, alloc: Global, name: &Name, text: &str) {
    let found = succeeds(rt, name.text(alloc));
    are_equal(rt, &found.as_str(), &text);
}

#[test]
fn names_are_in_order(rt: HostRuntime) {
    for (first, first_text, second, second_text) in IN_ORDER.iter() {
        come_in_order(&rt, rt.alloc(), first, first_text, second, second_text);
    }
}

fn come_in_order(
    rt: &impl Abort,
    alloc: Global,
    first: &[(u32, u32)],
    first_text: &str,
    second: &[(u32, u32)],
    second_text: &str,
) {
    let first = named(rt, alloc, first);
    let second = named(rt, alloc, second);
    are_in_order(rt, &first, &second);
    has_text(rt, alloc, &first, first_text);
    has_text(rt, alloc, &second, second_text);
}

/// How many forks the longest name has that a family can have.
const DEEPEST: usize = 4096;

/// The name of so many forks, each the first child of ticket 1 but the one at a place, of ticket 2.
fn deep(rt: &impl Abort, alloc: Global, place: usize) -> Name {
    let mut branches = succeeds(rt, Vec::with_capacity(alloc, DEEPEST));
    for at in 0..DEEPEST {
        let ticket = if at == place { 2 } else { 1 };
        succeeds(rt, branches.push(Branch::new(ticket, 1)));
    }
    succeeds(rt, Name::from_branches(alloc, branches))
}

/// The same with no such place, made child by child.
fn chain(rt: &impl Abort, alloc: Global) -> Name {
    let mut name = succeeds(rt, Name::root(alloc));
    for _ in 0..DEEPEST {
        name = succeeds(rt, name.child(alloc, 1, 1));
    }
    name
}

/// The first, a middle and the last place, and those beside the ends of the runs in which names are kept.
static PLACES: [usize; 9] = [0, 1, 63, 64, 65, 2048, 4031, 4032, 4095];

#[test]
fn deep_names_differ_in_one_fork(rt: HostRuntime) {
    let name = chain(&rt, rt.alloc());
    differs_at_each_place(&rt, rt.alloc(), &name);
}

/// The name differs from those with another fork at a place, and from the one with no such place it does not.
fn differs_at_each_place(rt: &impl Abort, alloc: Global, name: &Name) {
    for place in PLACES.iter() {
        differs_at(rt, alloc, name, *place);
    }
    let same = deep(rt, alloc, DEEPEST);
    are_equal(rt, &(&same == name), &true);
}

fn differs_at(rt: &impl Abort, alloc: Global, name: &Name, place: usize) {
    let other = deep(rt, alloc, place);
    are_in_order(rt, name, &other);
}

/// A parent's name, and its child's made anew.
fn goes_back_and_on(rt: &impl Abort, alloc: Global, name: &Name) {
    let mut parent = succeeds(rt, name.copy());
    let last = parent.pop();
    is_parent(rt, &parent, name, last);
    let child = succeeds(rt, parent.child(alloc, 1, 1));
    are_equal(rt, &(&child == name), &true);
}

fn is_parent(rt: &impl Abort, parent: &Name, name: &Name, last: Option<(u32, u32)>) {
    are_in_order(rt, parent, name);
    let told = [
        name.is_below_all(parent),
        name.is_below(parent, 1),
        name.is_below(parent, 2),
        parent.is_below_all(name),
    ];
    let depths = [parent.depth(), name.depth()];
    let want = [DEEPEST - 1, DEEPEST];
    let below = [true, true, false, false];
    are_equal(rt, &(last, depths, told), &(Some((1, 1)), want, below));
}

#[test]
fn deep_names_go_back_and_on(rt: HostRuntime) {
    let name = chain(&rt, rt.alloc());
    goes_back_and_on(&rt, rt.alloc(), &name);
}
