//! The fates of replies: those that seeds draw, and those of a list.

use crate::equal::{are_equal, succeeds};
use std::process::Abort;
use wire_fates::{Fate, LONGEST_STREAK, MAX_SEEDED_STREAK, Scripted, Seeded, Wire};

/// These are the next fates of a wire, of five replies that wait.
fn are_next<W: Wire>(rt: &impl Abort, wire: &mut W, fates: &[Fate; 3]) {
    let told = [wire.next(5), wire.next(5), wire.next(5)];
    are_equal(rt, &told, fates);
}

#[test]
fn a_seed_draws_fates(rt: HostRuntime) {
    let mut wire = Seeded::new();
    are_next(&rt, &mut wire, &[Fate::Give(0); 3]);
    wire.seed(1);
    are_next(
        &rt,
        &mut wire,
        &[Fate::Lose(4), Fate::Lose(0), Fate::Give(1)],
    );
}

#[test]
fn a_list_is_told_and_then_all_is_given(rt: HostRuntime) {
    let fates = vec![in rt.alloc(); Fate::Again(7), Fate::Lose(4)];
    let mut wire = Scripted::new(succeeds(&rt, fates));
    are_next(
        &rt,
        &mut wire,
        &[Fate::Again(2), Fate::Lose(4), Fate::Give(0)],
    );
}

#[test]
fn streaks_have_these_limits(rt: HostRuntime) {
    are_equal(&rt, &[LONGEST_STREAK, MAX_SEEDED_STREAK], &[64, 3]);
}
