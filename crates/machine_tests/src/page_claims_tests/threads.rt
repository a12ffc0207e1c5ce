//! Threads that claim the same pages, each by a pass of its own.
ghost use Rattle.std.specs.Prelude.{◌≡◌, ◌+◌, ◌<◌, ◌≤◌};
ghost use Rattle.page_claims.specs.Calls.{IsSamePass};

use page_claims::{ClaimPass, Claimed, Claims};
use std::alloc::{AllocError, Global};
use std::thread::{Threads, join};

/// How many claims were answered so.
#[derive(Clone, Copy)]
pub struct Tally {
    pub firsts: u32,
    pub repeats: u32,
}

impl Tally {
    fn with(self, claimed: &Claimed) -> Tally {
        match claimed {
            Claimed::First(_) => Tally {
                firsts: self.firsts.saturating_add(1),
                ..self
            },
            Claimed::Repeat => Tally {
                repeats: self.repeats.saturating_add(1),
                ..self
            },
            Claimed::Outside => self,
        }
    }

    fn plus(self, other: Tally) -> Tally {
        Tally {
            firsts: self.firsts.saturating_add(other.firsts),
            repeats: self.repeats.saturating_add(other.repeats),
        }
    }
}

/// In which order a thread claims so many pages, a power of two: from a first one on, by steps of an odd number.
#[derive(Clone, Copy)]
pub struct Order {
    pub pages: u32,
    pub first: u32,
    pub step: u32,
}

impl Order {
    /// That of the thread which is so many behind.
    fn next(self, threads: u32) -> Order
        ensures { result.pages ≡ self.pages }
    {
        Order {
            pages: self.pages,
            first: self.first,
            step: self.step.wrapping_add(threads.wrapping_mul(2)),
        }
    }
}

/// Claims the pages of image 0 in this order.
fn work(claims: &Claims, pass: ClaimPass, order: Order) -> (ClaimPass, Tally)
    requires { pass.table ≡ claims.now.table }
    ensures { IsSamePass pass result.0 }
{
    let mut pass = pass;
    let mut tally = Tally {
        firsts: 0,
        repeats: 0,
    };
    let mut page = order.first;
    for _ in 0..order.pages {
        let (next, claimed) = claims.claim(pass, 0, page % order.pages);
        pass = next;
        tally = tally.with(&claimed);
        page = page.wrapping_add(order.step);
    }
    (pass, tally)
}

/// Splits off a pass with two parts.
fn split_pair(claims: &Claims, pass: ClaimPass) -> (ClaimPass, ClaimPass)
    requires here { pass.table ≡ claims.now.table }
    requires parts { 2 < pass.parts }
    ensures here { (result.0.table ≡ pass.table) × (result.1.table ≡ pass.table) }
    ensures parts { (result.0.parts + 2 ≡ pass.parts) × (result.1.parts ≡ 2) }
{
    let (pass, first) = claims.split(pass);
    let (pass, second) = claims.split(pass);
    (pass, claims.join(first, second))
}

fn two<R: Threads + Sync>(
    rt: &R,
    claims: &Claims,
    pass: ClaimPass,
    order: Order,
) -> (ClaimPass, Tally)
    requires here { pass.table ≡ claims.now.table }
    requires parts { 2 ≤ pass.parts }
    ensures { IsSamePass pass result.0 }
{
    let (first, second) = claims.split(pass);
    let (left, right) = join(
        rt,
        move || work(claims, first, order),
        move || work(claims, second, order.next(1)),
    );
    (claims.join(left.0, right.0), left.1.plus(right.1))
}

fn four<R: Threads + Sync>(
    rt: &R,
    claims: &Claims,
    pass: ClaimPass,
    order: Order,
) -> (ClaimPass, Tally)
    requires here { pass.table ≡ claims.now.table }
    requires parts { 4 ≤ pass.parts }
    ensures { IsSamePass pass result.0 }
{
    let (first, second) = split_pair(claims, pass);
    let (left, right) = join(
        rt,
        move ||
            requires { (first.table ≡ claims.now.table) × (2 ≤ first.parts) }
        { two(rt, claims, first, order) },
        move ||
            requires { (second.table ≡ claims.now.table) × (2 ≤ second.parts) }
        { two(rt, claims, second, order.next(2)) },
    );
    (claims.join(left.0, right.0), left.1.plus(right.1))
}

fn eight<R: Threads + Sync>(
    rt: &R,
    claims: &Claims,
    pass: ClaimPass,
    order: Order,
) -> (ClaimPass, Tally)
    requires here { pass.table ≡ claims.now.table }
    requires parts { 8 ≤ pass.parts }
    ensures { IsSamePass pass result.0 }
{
    let (pass, second) = split_pair(claims, pass);
    let (first, third) = split_pair(claims, pass);
    let second = claims.join(second, third);
    let (left, right) = join(
        rt,
        move ||
            requires { (first.table ≡ claims.now.table) × (4 ≤ first.parts) }
        { four(rt, claims, first, order) },
        move ||
            requires { (second.table ≡ claims.now.table) × (4 ≤ second.parts) }
        { four(rt, claims, second, order.next(4)) },
    );
    (claims.join(left.0, right.0), left.1.plus(right.1))
}

/// What two threads are answered that each claim all of so many pages, and the words.
pub fn two_threads<R: Threads + Sync>(
    rt: &R,
    alloc: Global,
    order: Order,
) -> Result<(Tally, Vec<u64>), AllocError> {
    let (claims, pass) = Claims::new(alloc, 1, order.pages, 0)?;
    let (pass, tally) = two(rt, &claims, pass, order);
    Ok((tally, claims.close(pass)))
}

/// What eight threads are answered.
pub fn eight_threads<R: Threads + Sync>(
    rt: &R,
    alloc: Global,
    order: Order,
) -> Result<(Tally, Vec<u64>), AllocError> {
    let (claims, pass) = Claims::new(alloc, 1, order.pages, 0)?;
    let (pass, tally) = eight(rt, &claims, pass, order);
    Ok((tally, claims.close(pass)))
}
