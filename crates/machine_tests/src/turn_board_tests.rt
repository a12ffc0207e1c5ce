//! Tests of the turn lock: a tally under it, to which threads add.

mod depth;
mod tally;
mod workers;

use crate::equal::are_equal;
use depth::split_three_deep;
use std::alloc::AllocError;
use tally::{Tally, TallyTurns};
use workers::{eight_workers, two_workers};

/// Whether the tally has each worker's rounds, each once and in order.
fn keeps_order(tally: &Tally, workers: u8, rounds: u32) -> bool {
    for worker in 0..workers {
        let mut next = 0;
        for (by, round) in &tally.order {
            if *by == worker {
                if *round != next || next >= rounds {
                    return false;
                }
                next += 1;
            }
        }
        if next != rounds {
            return false;
        }
    }
    true
}

#[test]
fn two_threads_add(rt: HostRuntime) -> Result<(), AllocError> {
    let tally = two_workers(&rt, rt.alloc(), 10_000)?;
    let keeps = keeps_order(&tally, 2, 10_000);
    are_equal(&rt, &(tally.count, keeps), &(20_000, true));
    Ok(())
}

#[test]
fn eight_threads_add(rt: HostRuntime) -> Result<(), AllocError> {
    let tally = eight_workers(&rt, rt.alloc(), 10_000)?;
    let keeps = keeps_order(&tally, 8, 10_000);
    are_equal(&rt, &(tally.count, keeps), &(80_000, true));
    Ok(())
}

#[test]
fn seats_are_split_and_joined(rt: HostRuntime) -> Result<(), AllocError> {
    let tally = Tally {
        count: 0,
        order: Vec::new(rt.alloc()),
    };
    let (turns, seat) = TallyTurns::new(rt.alloc(), &(), tally)?;
    let seat = split_three_deep(&turns, seat);
    let tally = turns.close(&rt, seat);
    are_equal(&rt, &tally.count, &0);
    Ok(())
}
