ghost use Rattle.std.specs.Prelude.{◌≡◌, ◌+◌, ◌*◌, ◌<◌, ◌≤◌, List, IfSome, unwrap_or};
ghost use Rattle.pool.specs.Limits.{max_clients, max_frames, max_held};
ghost use Rattle.pool.specs.State.{none, within, slot, page, pins, count, entry_frame, of_client};
ghost use Rattle.pool.specs.Table.{entry_of, lookup, unused_entry};
ghost use Rattle.pool.specs.declared.Client.{Client};
ghost use Rattle.books.specs.Books.{pool_in, NumbersOf};
ghost use Rattle.books.specs.Optional.{some_number, IsNumber};
ghost use Rattle.books.specs.Lists.{grant_in};

use crate::{Extent, searches};
use pool::{EVICTED, FRAMES, GRANTS, HELD, NONE, Pool, SLOTS};

/// A pool's books, lent to be read: the fields of `Pool` but for the clients.
#[derive(Clone, Copy)]
pub struct Books<'a> {
    pub numbers: Extent,
    pub hand: u32,
    pub free: u8,
    pub last: u8,
    pub slots: &'a [u8; SLOTS],
    pub pages: &'a [u32; FRAMES],
    pub pins: &'a [u8; FRAMES],
    pub counts: &'a [u8; FRAMES],
    pub table_pages: &'a [u32; FRAMES],
    pub table_frames: &'a [u8; FRAMES],
    pub grant_pages: &'a [u32; GRANTS],
    pub grant_frames: &'a [u8; GRANTS],
}

/// A frame or a place as the arrays have it, where NONE says that there is none: so a C program's memory has it, and the public calls take any pool.
pub fn some(number: u8) -> Option<u8>
    ensures value { result ≡ some_number number }
    ensures back { unwrap_or result none ≡ number }
    ensures number { IsNumber result }
{
    if number == NONE { None } else { Some(number) }
}

/// Element i of the first n, of a frame's pins or counts or of the table's frames; d past them.
#[tactic(auto, unfolding(pool::specs::State::within, pool::specs::Choose::choose))]
pub fn byte_within(xs: &[u8; FRAMES], n: u8, d: u8, i: u8) -> u8
    requires { n ≤ max_frames }
    ensures { result ≡ within xs.now n d i }
{
    if i < n { xs[i as usize] } else { d }
}

// What an action reads, of the pool with these books and any clients.
impl<'a> Books<'a> {
    /// The books of an owned pool.
    pub fn of(numbers: Extent, pool: &'a Pool) -> Self
        requires { NumbersOf pool.now numbers }
        ensures pool { pool_in result pool.now.clients ≡ pool.now }
        ensures numbers { result.numbers ≡ numbers }
    {
        Books {
            numbers,
            hand: pool.hand,
            free: pool.free,
            last: pool.last,
            slots: &pool.slots,
            pages: &pool.pages,
            pins: &pool.pins,
            counts: &pool.counts,
            table_pages: &pool.table_pages,
            table_frames: &pool.table_frames,
            grant_pages: &pool.grant_pages,
            grant_frames: &pool.grant_frames,
        }
    }

    /// The frame that slot i names.
    #[tactic(auto, unfolding(pool::specs::State::slot, pool::specs::State::within, pool::specs::Choose::choose))]
    pub fn slot(&self, i: u8) -> Option<u8>
        ensures frame { (clients : List Client) → unwrap_or result none ≡ slot (pool_in self.now clients) i }
        ensures number { IsNumber result }
    {
        if i < self.numbers.size {
            some(self.slots[i as usize])
        } else {
            None
        }
    }

    /// A frame's page, 0 past the pool's frames.
    #[tactic(auto, unfolding(pool::specs::State::page, pool::specs::State::within, pool::specs::Choose::choose))]
    pub fn page(&self, f: u8) -> u32
        ensures { (clients : List Client) → result ≡ page (pool_in self.now clients) f }
    {
        if f < self.numbers.total() {
            self.pages[f as usize]
        } else {
            0
        }
    }

    /// A frame's pins as they are stored; one past the pool's frames counts as evicted.
    #[tactic(auto, unfolding(pool::specs::State::pins))]
    pub fn pins(&self, f: u8) -> u8
        ensures { (clients : List Client) → result ≡ pins (pool_in self.now clients) f }
    {
        byte_within(self.pins, self.numbers.total(), EVICTED, f)
    }

    /// A frame's reference count.
    #[tactic(auto, unfolding(pool::specs::State::count))]
    pub fn count(&self, f: u8) -> u8
        ensures { (clients : List Client) → result ≡ count (pool_in self.now clients) f }
    {
        byte_within(self.counts, self.numbers.total(), 0, f)
    }

    /// The place of the entry that maps a page.
    #[tactic(auto, unfolding(pool::specs::State::entry_page, pool::specs::State::entry_frame, pool::specs::Table::maps, pool::specs::Table::entry_of, crate::specs::Lists::maps_in, crate::specs::Lists::entry_in))]
    pub fn entry_of(&self, page: u32) -> Option<u8>
        ensures place { (clients : List Client) → unwrap_or result none ≡ entry_of (pool_in self.now clients) page }
        ensures number { IsNumber result }
    {
        searches::entry_of(
            self.table_pages,
            self.table_frames,
            self.numbers.total(),
            page,
        )
    }

    /// The frame at a place of the table.
    #[tactic(auto, unfolding(pool::specs::State::entry_frame))]
    pub fn entry_frame(&self, i: u8) -> Option<u8>
        ensures frame { (clients : List Client) → unwrap_or result none ≡ entry_frame (pool_in self.now clients) i }
        ensures number { IsNumber result }
    {
        some(byte_within(self.table_frames, self.numbers.total(), NONE, i))
    }

    /// The frame that a page is mapped to.
    #[tactic(auto, unfolding(pool::specs::Table::lookup, pool::specs::State::entry_frame, pool::specs::State::within, pool::specs::Choose::choose))]
    pub fn lookup(&self, page: u32) -> Option<u8>
        ensures frame { (clients : List Client) → unwrap_or result none ≡ lookup (pool_in self.now clients) page }
        ensures number { IsNumber result }
    {
        let i = self.entry_of(page)?;
        self.entry_frame(i)
    }

    /// The first unused place of the table.
    #[tactic(auto, unfolding(pool::specs::State::entry_frame, pool::specs::Table::unused_entry, crate::specs::Lists::unused_in))]
    pub fn unused_entry(&self) -> Option<u8>
        ensures place { (clients : List Client) → unwrap_or result none ≡ unused_entry (pool_in self.now clients) }
        ensures number { IsNumber result }
    {
        searches::unused_of(self.table_frames, self.numbers.total())
    }

    /// The place among client c's grants, so many, of its first on a page.
    pub fn grant_of(&self, c: usize, held: u8, page: u32) -> Option<u8>
        requires client { c < max_clients }
        requires few { held ≤ max_held }
        ensures first { unwrap_or result none ≡ grant_in self.now.grant_pages.now c held page }
        ensures bound { IfSome result (λ i. i < held) }
    {
        searches::grant_of(self.grant_pages, c, held, page)
    }

    /// The frame of client c's grant i, of so many.
    #[tactic(auto, unfolding(pool::specs::State::of_client, pool::specs::Choose::choose))]
    pub fn grant_frame(&self, c: usize, held: u8, i: u8) -> u8
        requires client { c < max_clients }
        requires few { held ≤ max_held }
        ensures { result ≡ of_client self.now.grant_frames.now c held none i }
    {
        if i < held {
            self.grant_frames[HELD * c + i as usize]
        } else {
            NONE
        }
    }
}
