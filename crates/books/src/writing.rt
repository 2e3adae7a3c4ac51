ghost use Rattle.std.specs.Prelude.{◌≡◌, ◌<◌, ◌≤◌, List, set};
ghost use Rattle.pool.specs.Limits.{max_clients};
ghost use Rattle.pool.specs.Apply.{apply};
ghost use Rattle.pool.specs.declared.Client.{Client};
ghost use Rattle.books.specs.Books.{pool_in, pool_of, SameLoans};
ghost use Rattle.books.specs.Puts.{written, granted};

use crate::{Books, Extent};
use pool::{FRAMES, GRANTS, GrantChange, HELD, Move, SLOTS, Write};

/// A pool's books, lent to be written.
#[derive(Drop)]
pub struct BooksMut<'a> {
    pub numbers: Extent,
    pub hand: &'a mut u32,
    pub free: &'a mut u8,
    pub last: &'a mut u8,
    pub slots: &'a mut [u8; SLOTS],
    pub pages: &'a mut [u32; FRAMES],
    pub pins: &'a mut [u8; FRAMES],
    pub counts: &'a mut [u8; FRAMES],
    pub table_pages: &'a mut [u32; FRAMES],
    pub table_frames: &'a mut [u8; FRAMES],
    pub grant_pages: &'a mut [u32; GRANTS],
    pub grant_frames: &'a mut [u8; GRANTS],
}

impl BooksMut<'_> {
    /// The same, to be read.
    pub fn books(&self) -> Books<'_>
        ensures books { (clients : List Client) → pool_in result clients ≡ pool_of self.now clients }
        ensures numbers { result.numbers ≡ self.now.numbers }
    {
        Books {
            numbers: self.numbers,
            hand: *self.hand,
            free: *self.free,
            last: *self.last,
            slots: self.slots,
            pages: self.pages,
            pins: self.pins,
            counts: self.counts,
            table_pages: self.table_pages,
            table_frames: self.table_frames,
            grant_pages: self.grant_pages,
            grant_frames: self.grant_frames,
        }
    }

    /// A move of client c, put into the books: SPECIFICATION 1.9. Its next record is the caller's to put back.
    pub fn put(&mut self, c: usize, turn: &Move)
        requires clients { self.old.numbers.client_count ≤ max_clients }
        requires client { c < max_clients }
        ensures loans { SameLoans self.old self.new }
        ensures applied { (clients : List Client) →
            pool_of self.new (set clients c turn.now.next) ≡ apply (pool_of self.old clients) c turn.now }
    {
        self.write(turn.write);
        self.grant(c, turn.grants);
    }

    /// The one change of what the clients share. What is past the part that the pool has is not written.
    #[tactic(auto, unfolding(pool::specs::Apply::stored, pool::specs::Apply::slots_after, pool::specs::Apply::pages_after, pool::specs::Apply::pins_after, pool::specs::Apply::counts_after, pool::specs::Apply::entry_pages_after, pool::specs::Apply::entry_frames_after, pool::specs::Apply::hand_after, pool::specs::Apply::free_after, pool::specs::Apply::last_after, pool::specs::Choose::choose))]
    fn write(&mut self, write: Write)
        ensures loans { SameLoans self.old self.new }
        ensures written { (clients : List Client) → pool_of self.new clients ≡ written (pool_of self.old clients) write }
    {
        let total = self.numbers.total();
        match write {
            Write::Keep => {}
            Write::PutSlot(i, frame) => {
                if i < self.numbers.size {
                    self.slots[i as usize] = frame;
                }
            }
            Write::PutPins(f, pins) => {
                if f < total {
                    self.pins[f as usize] = pins;
                }
            }
            Write::PutCount(f, count) => {
                if f < total {
                    self.counts[f as usize] = count;
                }
            }
            Write::TakeFrame(f, page, pins, first) => {
                *self.last = f;
                if f < total {
                    self.pages[f as usize] = page;
                    self.pins[f as usize] = pins;
                    self.counts[f as usize] = first;
                }
            }
            Write::PutEntry(i, page, frame) => {
                if i < total {
                    self.table_pages[i as usize] = page;
                    self.table_frames[i as usize] = frame;
                }
            }
            Write::PutHand(hand) => *self.hand = hand,
            Write::PutFree(free) => *self.free = free,
        }
    }

    /// What becomes of client c's grants.
    #[tactic(auto, unfolding(pool::specs::Apply::stored, pool::specs::Apply::grant_pages_after, pool::specs::Apply::grant_frames_after, pool::specs::State::within, pool::specs::Choose::choose))]
    fn grant(&mut self, c: usize, change: GrantChange)
        requires clients { self.old.numbers.client_count ≤ max_clients }
        requires client { c < max_clients }
        ensures loans { SameLoans self.old self.new }
        ensures granted { (clients : List Client) → pool_of self.new clients ≡ granted (pool_of self.old clients) c change }
    {
        let n = HELD * self.numbers.client_count as usize;
        match change {
            GrantChange::Same => {}
            GrantChange::Open(i, page, frame) => {
                let at = HELD * c + i as usize;
                if at < n {
                    self.grant_pages[at] = page;
                    self.grant_frames[at] = frame;
                }
            }
            GrantChange::End(i, last) => {
                let at = HELD * c + i as usize;
                let from = HELD * c + last as usize;
                if at < n {
                    let inside = from < n;
                    self.grant_pages[at] = if inside { self.grant_pages[from] } else { 0 };
                    self.grant_frames[at] = if inside { self.grant_frames[from] } else { 0 };
                }
            }
        }
    }
}
