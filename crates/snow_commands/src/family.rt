//! A guest whose files are read is booted, and its family is run to its end, by workers on a board: until the root has ended, or
//! no machine makes a step any more.

ghost use Rattle.std.specs.Prelude.{◌≡◌, ◌⊎◌, ◌+◌, ◌<◌, ◌≤◌, length, map, vec_len, IfErr, IfOk};
ghost use Rattle.page_claims.specs.Calls.{fresh};
ghost use Rattle.fork_board.specs.Passes.{HoldsNone};
ghost use Rattle.board_ends.specs.Finishes.{AreDone, Finishes, IsStopped, IsStoppedElsewhere, WorkedAll};
ghost use Rattle.board_ends.specs.Lost.{IsOneLost};
ghost use Rattle.command_texts.specs.Seeded.{IfBefore, IfRun, all_seeded, seeded_for};
ghost use Rattle.command_texts.specs.Text.{HasLines, guest_image};
ghost use Rattle.command_texts.specs.Writes.{MakesOver};
ghost use Rattle.snow_commands.specs.Claimed.{AreOfGuest, claimed_images, disk_pages};

use command_line::{GuestWords, RunWords};
use command_texts::{boot, outcome_of};
use cow_disk::{PAGE_SECTORS, SECTOR_SIZE};
use fork_board::{Board, Pass};
use guest_files::{GuestFiles, MAX_DISK, Stop};
use host_workers::{Finish, Gate, MAX_WORKERS, Settings, Site, run_hosts};
use image_depot::Depot;
use page_claims::{ClaimPass, Claims};
use run_report::Outcome;
use std::alloc::{AllocError, Global};
use std::sync::Wait;
use std::thread::Threads;
use wire_fates::{Seeded, Wire};
use world_core::Reason;

/// How a family is run: what the words say of it, and what its workers call at points of their way.
#[derive_where(Clone, Copy)]
pub struct Plan<'a, G> {
    pub how: &'a RunWords,
    pub gate: &'a G,
}

/// The images whose pages are claimed. A page of a later image comes to who asks for it alone.
pub const CLAIMED_IMAGES: u32 = 256;

/// Boots a guest whose files are there, and runs its family to its end, by as many workers as are asked for, but by no more
/// than there are wires. Each of their wires is given the seed of the words. Where no machine may be cloned, none of them
/// fetches a page, and one worker runs them all over a wire of its own.
pub fn run_files<R: AllocGlobal + Threads + Wait + Sync, W: Wire + Send, G: Gate + Sync>(
    rt: &R,
    guest: &GuestWords<'_>,
    files: &GuestFiles,
    plan: &Plan<'_, G>,
    wires: &mut Vec<W>,
) -> Result<Outcome, Stop>
    requires some { 0 < vec_len wires.old }
    requires most { vec_len wires.old ≤ MAX_WORKERS }
    ensures makes { MakesOver ((0 < guest.now.clones) × IsOneLost W.streak wires.new.items) (guest_image guest.now files.now)
        (HasLines guest.now files.now) result }
    ensures seeded { IfRun result (map W.seeds wires.new.items ≡ seeded_for plan.now.how.now (map W.seeds wires.old.items)) }
    ensures untouched { IfErr result (λ stop. IfBefore stop (wires.new ≡ wires.old)) }
{
    let depot = Depot::new(rt.alloc())?;
    let family = boot(rt.alloc(), guest, files, &depot)?;
    let (claims, claiming) = claims_of(rt.alloc(), guest, files)?;
    let (world, first) = family;
    let (board, pass) = Board::new(rt.alloc(), world, first, &depot)?;
    let site = Site {
        board: &board,
        depot: &depot,
        claims: &claims,
    };
    let workers = wires.len().min(plan.how.workers() as usize);
    let (working, _) = wires.split_at_mut(workers);
    let clones = guest.clones();
    if clones > 0 {
        let (pass, end) = run_seeded(rt, guest, files, &site, pass, claiming, plan, working);
        return outcome_of(rt, board, pass, end);
    }
    seed_all(working, plan.how.seed());
    let mut unused = [Seeded::new()];
    let (pass, end) = run_seeded(rt, guest, files, &site, pass, claiming, plan, &mut unused);
    // The call tells that this wire is not lost.
    let _ = unused[0].streak();
    outcome_of(rt, board, pass, end)
}

/// The claims of a guest's family, which have a place for each page of its RAM and of its disk, and the first pass. Where no
/// machine may be cloned no page of an image is fetched, and they have no image.
fn claims_of(
    alloc: Global,
    guest: &GuestWords<'_>,
    files: &GuestFiles,
) -> Result<(Claims, ClaimPass), AllocError>
    ensures claims { IfOk result (λ made. AreOfGuest guest.now files.now made.0) }
    ensures pass { IfOk result (λ made. made.1 ≡ fresh made.0.table 65536) }
{
    let images = claimed_images(guest.clones());
    let disk_pages = disk_pages(files.disk().len());
    Claims::new(alloc, images, guest.pages(), disk_pages)
}

/// How many images have claims, where so many machines may be cloned.
fn claimed_images(clones: u32) -> u32
    ensures value { result ≡ claimed_images clones }
    ensures most { result ≤ CLAIMED_IMAGES }
{
    if clones > 0 { CLAIMED_IMAGES } else { 0 }
}

/// How many pages a disk of so many bytes has.
fn disk_pages(bytes: usize) -> u32
    requires { bytes ≤ MAX_DISK }
    ensures value { result ≡ disk_pages bytes }
    ensures most { result ≤ 1024 }
{
    bytes.div_ceil(SECTOR_SIZE * PAGE_SECTORS as usize) as u32
}

/// Seeds each wire.
fn seed_all<W: Wire>(wires: &mut [W], seed: u32)
    ensures seeded { map W.seeds wires.new ≡ all_seeded seed (map W.seeds wires.old) }
    ensures len { length wires.new ≡ length wires.old }
{
    for wire in wires.iter_mut() {
        wire.seed(seed);
    }
}

/// Gives each wire the seed of the words, and lets a worker for each of them work on a board, until the root has ended, the
/// world was stopped, or no machine makes a step any more. The claims are those of this guest.
fn run_seeded<R: AllocGlobal + Threads + Wait + Sync, W: Wire + Send, G: Gate + Sync>(
    rt: &R,
    guest: &GuestWords<'_>,
    files: &GuestFiles,
    site: &Site<'_>,
    pass: Pass,
    claiming: ClaimPass,
    plan: &Plan<'_, G>,
    wires: &mut [W],
) -> (Pass, Finish)
    requires board { pass.board ≡ site.now.board.now }
    requires claims { claiming ≡ fresh site.now.claims.now.table 65536 }
    requires claimed { AreOfGuest guest.now files.now site.now.claims.now }
    requires none { HoldsNone pass }
    requires wires { (1 ≤ length wires.old) × (length wires.old ≤ MAX_WORKERS) }
    requires parts { length pass.number < 3 }
    requires splits { pass.splits + length wires.old ≤ 65535 }
    ensures worked { WorkedAll pass result.0 }
    ensures ends { Finishes result.0 result.1 }
    ensures done { AreDone (length wires.new) pass result.0 }
    ensures wire { result.1 ≡ Finish.Stopped Reason.Wire → IsOneLost W.streak wires.new ⊎ (IsStopped pass ⊎ IsStoppedElsewhere pass result.0) }
    ensures seeded { map W.seeds wires.new ≡ all_seeded plan.now.how.now.seed (map W.seeds wires.old) }
    ensures len { length wires.new ≡ length wires.old }
{
    seed_all(wires, plan.how.seed());
    let settings = Settings {
        gate: plan.gate,
        slice: plan.how.slice(),
        ahead: plan.how.ahead(),
    };
    let (pass, _, end) = run_hosts(rt, site, pass, claiming, wires, &settings);
    (pass, end)
}
