//! A tally under the lock, which stands for the history that has as many entries.
ghost use Rattle.std.specs.Prelude.{◌≡◌, ◌+◌, ◌^◌, ◌<◌, length};
ghost use Rattle.turn_board.specs.Calls.{IsSeat};

use std::hint::spin_loop;
use std::sync::Wait;
use turn_board::{Kept, Seat, Turns};

/// What an entry notes.
#[derive(Drop)]
pub struct Added;

/// A count, and which worker added to it for which time, in order, as far as there was memory.
#[derive(Drop)]
pub struct Tally {
    pub count: u64,
    pub order: Vec<(u8, u32)>,
}

impl Kept<(), Added> for Tally {
    ghost use Rattle.std.specs.Prelude.{◌≡◌, length};

    ghost stands = { λ _ log tally. tally.count ≡ length log };
}

pub type TallyTurns = Turns<(), Added, Tally>;

pub type TallySeat = Seat<(), Added, Tally>;

fn add(tally: &mut Tally, worker: u8, round: u32)
    requires { tally.old.count + 1 < 2 ^ 64 }
    ensures { tally.new.count ≡ tally.old.count + 1 }
{
    tally.count += 1;
    let _ = tally.order.push((worker, round));
}

/// Keeps the turn in some rounds, for so long that those who wait for theirs go to sleep.
fn linger(round: u32) {
    if round % 256 == 0 {
        for _ in 0..10_000 {
            spin_loop();
        }
    }
}

/// The worker adds once.
fn take_turn<R: Wait>(
    rt: &R,
    turns: &TallyTurns,
    seat: TallySeat,
    worker: u8,
    round: u32,
) -> TallySeat
    requires { IsSeat turns.now.table.shared.table_id turns.now.table.shared.key seat }
    ensures seat { IsSeat turns.now.table.shared.table_id turns.now.table.shared.key result }
    ensures more { length result.me.0.mine ≡ length seat.me.0.mine + 1 }
{
    let mut turn = turns.enter(rt, seat);
    add(turn.value(), worker, round);
    linger(round);
    turn.pass(turns, &Added)
}

/// The worker adds so many times.
pub fn work<R: Wait>(
    rt: &R,
    turns: &TallyTurns,
    seat: TallySeat,
    worker: u8,
    rounds: u32,
) -> TallySeat
    requires { IsSeat turns.now.table.shared.table_id turns.now.table.shared.key seat }
    ensures seat { IsSeat turns.now.table.shared.table_id turns.now.table.shared.key result }
    ensures more { length result.me.0.mine ≡ length seat.me.0.mine + rounds }
{
    let mut seat = seat;
    for round in 0..rounds {
        seat = take_turn(rt, turns, seat, worker, round);
    }
    seat
}
