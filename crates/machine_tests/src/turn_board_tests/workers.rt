//! Workers in threads, of whose seats each is split off before and joined after.
ghost use Rattle.std.specs.Prelude.{◌≡◌, ◌+◌, ◌<◌, length, IfOk};
ghost use Rattle.turn_board.specs.Calls.{IsSeat};

use super::tally::{Tally, TallySeat, TallyTurns, work};
use std::alloc::{AllocError, Global};
use std::sync::Wait;
use std::thread::{Threads, join};

fn two<R: Threads + Wait + Sync>(
    rt: &R,
    turns: &TallyTurns,
    seat: TallySeat,
    worker: u8,
    rounds: u32,
) -> TallySeat
    requires seat { IsSeat turns.now.table.shared.table_id turns.now.table.shared.key seat }
    requires parts { length seat.me.0.seat < 3 }
    requires splits { seat.me.0.splits < 65535 }
    requires worker { worker + 1 < 256 }
    ensures seat { IsSeat turns.now.table.shared.table_id turns.now.table.shared.key result }
    ensures more { length result.me.0.mine ≡ length seat.me.0.mine + rounds }
{
    let (first, second) = turns.split(seat);
    let (first, second) = join(
        rt,
        move || work(rt, turns, first, worker, rounds),
        move || work(rt, turns, second, worker + 1, rounds),
    );
    turns.join(first, second)
}

fn four<R: Threads + Wait + Sync>(
    rt: &R,
    turns: &TallyTurns,
    seat: TallySeat,
    worker: u8,
    rounds: u32,
) -> TallySeat
    requires seat { IsSeat turns.now.table.shared.table_id turns.now.table.shared.key seat }
    requires parts { length seat.me.0.seat < 2 }
    requires splits { seat.me.0.splits < 65534 }
    requires worker { worker + 3 < 256 }
    ensures seat { IsSeat turns.now.table.shared.table_id turns.now.table.shared.key result }
    ensures more { length result.me.0.mine ≡ length seat.me.0.mine + rounds }
{
    let (first, second) = turns.split(seat);
    let (first, second) = join(
        rt,
        move ||
            requires { IsSeat turns.now.table.shared.table_id turns.now.table.shared.key first × (length first.me.0.seat < 3) × (first.me.0.splits < 65535) × (worker + 1 < 256) }
        { two(rt, turns, first, worker, rounds) },
        move ||
            requires { IsSeat turns.now.table.shared.table_id turns.now.table.shared.key second × (length second.me.0.seat < 3) × (second.me.0.splits < 65535) × (worker + 3 < 256) }
        { two(rt, turns, second, worker + 2, rounds) },
    );
    turns.join(first, second)
}

fn eight<R: Threads + Wait + Sync>(
    rt: &R,
    turns: &TallyTurns,
    seat: TallySeat,
    rounds: u32,
) -> TallySeat
    requires seat { IsSeat turns.now.table.shared.table_id turns.now.table.shared.key seat }
    requires parts { length seat.me.0.seat < 1 }
    requires splits { seat.me.0.splits < 65533 }
    ensures seat { IsSeat turns.now.table.shared.table_id turns.now.table.shared.key result }
    ensures more { length result.me.0.mine ≡ length seat.me.0.mine + rounds }
{
    let (first, second) = turns.split(seat);
    let (first, second) = join(
        rt,
        move ||
            requires { IsSeat turns.now.table.shared.table_id turns.now.table.shared.key first × (length first.me.0.seat < 2) × (first.me.0.splits < 65534) }
        { four(rt, turns, first, 0, rounds) },
        move ||
            requires { IsSeat turns.now.table.shared.table_id turns.now.table.shared.key second × (length second.me.0.seat < 2) × (second.me.0.splits < 65534) }
        { four(rt, turns, second, 4, rounds) },
    );
    turns.join(first, second)
}

fn tally_for(alloc: Global, entries: usize) -> Result<Tally, AllocError>
    ensures { IfOk result (λ tally. tally.count ≡ 0) }
{
    let order = Vec::with_capacity(alloc, entries)?;
    Ok(Tally { count: 0, order })
}

/// What two workers make of a tally that begins with nothing. Each adds so many times.
pub fn two_workers<R: Threads + Wait + Sync>(
    rt: &R,
    alloc: Global,
    rounds: u32,
) -> Result<Tally, AllocError> {
    let tally = tally_for(alloc, rounds as usize * 2)?;
    let (turns, seat) = TallyTurns::new(alloc, &(), tally)?;
    let seat = two(rt, &turns, seat, 0, rounds);
    Ok(turns.close(rt, seat))
}

/// What eight workers make of it.
pub fn eight_workers<R: Threads + Wait + Sync>(
    rt: &R,
    alloc: Global,
    rounds: u32,
) -> Result<Tally, AllocError> {
    let tally = tally_for(alloc, rounds as usize * 8)?;
    let (turns, seat) = TallyTurns::new(alloc, &(), tally)?;
    let seat = eight(rt, &turns, seat, rounds);
    Ok(turns.close(rt, seat))
}
