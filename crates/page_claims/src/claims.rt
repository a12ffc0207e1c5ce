//! The claims, and the passes by which threads claim.
ghost use Rattle.std.specs.Prelude.{◌≡◌, ◌≤◌, []};
ghost use Rattle.std.specs.Vec.{vec_capacity};
ghost use Rattle.std.specs.Slots.{IsFull, slots_items, slots_len};

use crate::first::{Claimed, First};
use crate::plays::{Looks, Meets, Parts, Sets};
use crate::view::{Keeping, View};
use atomic_table::{Closed, Seat, Table};
use std::alloc::{AllocError, Global};
use std::marker::Model;

/// Claims have fewer bits than this.
const BIT_LIMIT: u64 = 1 << 32;

/// A bit for each page of each image, which is set by the first claim of the page. The bits stand image after image, 64 to a
/// word, from value 1 up. Threads share it by a `&`, and each claims by a pass of its own.
#[derive(Drop)]
pub struct Claims {
    table: Table<(), View, usize, Keeping, Global>,
    images: u32,
    places: u64,
    /// Memory for the words that `close` gives.
    room: Vec<u64>,
}

impl Model for Claims {
    ghost use Rattle.std.specs.Vec.{vec_len, vec_capacity};
    ghost use Rattle.page_claims.specs.Values.{ClaimsValue, IsLaid};

    ghost Value = { ClaimsValue };

    ghost view = { λ c. record { table = c.table.shared.table_id; images = c.images; places = c.places } };

    ghost invariant = { λ c. IsLaid c.table.shared.table_id c.table.shared.key c.images c.places (vec_len c.room) (vec_capacity c.room) };
}

/// The right to claim, which a thread has. It has no bytes. In contracts it has the bits that it claimed first, those that it
/// found claimed, and how many of the 65,536 parts of the claims are its own.
#[derive(Drop)]
pub struct ClaimPass {
    seat: Seat<(), View>,
}

impl Model for ClaimPass {
    ghost use Rattle.page_claims.specs.Values.{PassValue, IsPass};

    ghost Value = { PassValue };

    ghost view = { λ p. record { table = p.seat.table_id; firsts = p.seat.me.0.firsts; repeats = p.seat.me.0.repeats; parts = p.seat.me.0.parts } };

    ghost invariant = { λ p. IsPass p.seat.me };
}

impl Claims {
    ghost use Rattle.std.specs.Prelude.{◌+◌, ◌-◌, ◌*◌, ◌^◌, ◌<◌, ◌↔◌, length, IfOk, IsTrue};
    ghost use Rattle.page_claims.specs.Bits.{words_for, IsOnce};
    ghost use Rattle.page_claims.specs.Calls.{IsAnswered, IsSamePass, Closes, fresh, joined};

    /// Whether claims of so many images may be made, each of so many pages of RAM and of the disk: there are fewer than
    /// 2^32 bits.
    pub fn fits(images: u32, pages: u32, disk_pages: u32) -> bool
        ensures { IsTrue result ↔ (images * (pages + disk_pages) < 2 ^ 32) }
    {
        let places = pages as u64 + disk_pages as u64;
        match places.checked_mul(images as u64) {
            Some(bits) => bits < BIT_LIMIT,
            None => false,
        }
    }

    /// Claims of so many images, each of so many pages of RAM and of the disk, and the first pass, which has all parts.
    /// The error is want of memory.
    pub fn new(
        alloc: Global,
        images: u32,
        pages: u32,
        disk_pages: u32,
    ) -> Result<(Claims, ClaimPass), AllocError>
        requires { images * (pages + disk_pages) < 2 ^ 32 }
        ensures claims { IfOk result (λ made. (made.0.images ≡ images) × (made.0.places ≡ pages + disk_pages)) }
        ensures pass { IfOk result (λ made. made.1 ≡ fresh made.0.table 65536) }
    {
        let places = pages as u64 + disk_pages as u64;
        let bits = images as u64 * places;
        let count = bits.div_ceil(64).max(1) as usize;
        let zeros = vec![in alloc; 0u64; count]?;
        let (table, seat) = Table::of_words(alloc, zeros.as_slice(), &count)?;
        drop(zeros);
        let room = Vec::with_capacity(alloc, count)?;
        let claims = Claims {
            table,
            images,
            places,
            room,
        };
        Ok((claims, ClaimPass { seat }))
    }

    /// Claims a page of an image. `page` is its place: page p of the RAM has place p, and page q of the disk stands behind
    /// the pages of the RAM. It takes no memory and waits for nobody.
    pub fn claim(&self, pass: ClaimPass, image: u32, page: u32) -> (ClaimPass, Claimed)
        requires { pass.table ≡ self.now.table }
        ensures answered { IsAnswered self.now image page pass result.0 result.1 }
        ensures same { IsSamePass pass result.0 }

        // No bit is twice among the firsts of a pass and of those that were joined to it.
        ensures once { IsOnce result.0.firsts }
    {
        let ClaimPass { mut seat } = pass;
        if image >= self.images || page as u64 >= self.places {
            return (ClaimPass { seat }, Claimed::Outside);
        }
        let bit = image as u64 * self.places + page as u64;
        let mask = 1u64 << (bit % 64);
        let shared = &self.table.shared;
        let found = shared.fetch_or::<Sets>(&mut seat, (bit / 64) as usize, mask);
        let claimed = if found & mask == 0 {
            Claimed::First(First::new(self, image, page))
        } else {
            Claimed::Repeat
        };
        (ClaimPass { seat }, claimed)
    }

    /// Splits a pass off, which has one part and has claimed nothing. The old pass comes first.
    pub fn split(&self, pass: ClaimPass) -> (ClaimPass, ClaimPass)
        requires here { pass.table ≡ self.now.table }
        requires parts { 1 < pass.parts }
        ensures old { result.0 ≡ record pass { parts = pass.parts - 1 } }
        ensures new { result.1 ≡ fresh pass.table 1 }
    {
        let ClaimPass { mut seat } = pass;
        let new = self.table.shared.split_seat::<Parts>(&mut seat);
        (ClaimPass { seat }, ClaimPass { seat: new })
    }

    /// Joins the second pass to the first, which then has what both had. The second is spent.
    pub fn join(&self, pass: ClaimPass, other: ClaimPass) -> ClaimPass
        requires here { pass.table ≡ self.now.table }
        requires other_here { other.table ≡ self.now.table }
        ensures both { result ≡ joined pass other }
        ensures once { IsOnce result.firsts }
    {
        let ClaimPass { mut seat } = pass;
        let ClaimPass { seat: other } = other;
        self.table.shared.join_seat::<Meets>(&mut seat, other);
        self.table.shared.load::<Looks>(&mut seat, 0);
        ClaimPass { seat }
    }

    /// Ends the claims, by a pass that has all parts. The bits of the words are exactly those that it claimed first.
    pub fn close(self, pass: ClaimPass) -> Vec<u64>
        requires here { pass.table ≡ self.table }
        requires whole { pass.parts ≡ 65536 }
        ensures count { length result.items ≡ words_for (self.images * self.places) }
        ensures closes { Closes pass.firsts pass.repeats result.items }
    {
        let Claims {
            table,
            images: _,
            places: _,
            mut room,
        } = self;
        let ClaimPass { seat } = pass;
        let count = table.word_count();
        let closed = table.close_with(seat);
        write_words(&mut room, &closed, count);
        closed.free();
        room
    }
}

// The words of a table that is closed, written into memory that is at hand.
fn write_words(room: &mut Vec<u64>, closed: &Closed<(), Global>, count: usize)
    requires empty { room.old.items ≡ [] }
    requires fits { count ≤ vec_capacity room.old }
    requires full { IsFull closed.now.words × (slots_len closed.now.words ≡ count) }
    ensures { room.new.items ≡ slots_items closed.now.words }
{
    for i in 0..count {
        room.push_reserved(closed.word(i));
    }
}
