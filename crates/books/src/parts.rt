ghost use Rattle.std.specs.Prelude.{◌≡◌, true, false, List, MatchOption};
ghost use Rattle.pool.specs.Valid.{numbers_ok};
ghost use Rattle.pool.specs.declared.Client.{Client};
ghost use Rattle.books.specs.Books.{pool_in};
ghost use Rattle.books.specs.Lent.{pool_lent};

use crate::{Books, Numbers};
use pool::{FRAMES, GRANTS, Pool, SLOTS};

/// A pool's books as anybody may lend them: nothing is known of S, T and C.
#[derive(Clone, Copy)]
pub struct Parts<'a> {
    pub size: u8,
    pub client_count: u8,
    pub cap: u8,
    pub hand: u32,
    pub free: u8,
    pub last: u8,
    pub slots: &'a [u8; SLOTS],
    pub pages: &'a [u32; FRAMES],
    pub pins: &'a [u8; FRAMES],
    pub counts: &'a [u8; FRAMES],
    pub table_pages: &'a [u32; FRAMES],
    pub table_frames: &'a [u8; FRAMES],
    pub grant_pages: &'a [u32; GRANTS],
    pub grant_frames: &'a [u8; GRANTS],
}

impl<'a> Parts<'a> {
    /// Those of an owned pool.
    pub fn of(pool: &'a Pool) -> Self
        ensures { pool_lent result pool.now.clients ≡ pool.now }
    {
        Parts {
            size: pool.size,
            client_count: pool.client_count,
            cap: pool.cap,
            hand: pool.hand,
            free: pool.free,
            last: pool.last,
            slots: &pool.slots,
            pages: &pool.pages,
            pins: &pool.pins,
            counts: &pool.counts,
            table_pages: &pool.table_pages,
            table_frames: &pool.table_frames,
            grant_pages: &pool.grant_pages,
            grant_frames: &pool.grant_frames,
        }
    }

    /// The books, where S, T and C are in range.
    pub fn books(&self) -> Option<Books<'a>>
        ensures { MatchOption result (numbers_ok self.now.size self.now.client_count self.now.cap ≡ false)
            (λ b. (numbers_ok self.now.size self.now.client_count self.now.cap ≡ true)
            × ((clients : List Client) → pool_in b clients ≡ pool_lent self.now clients)) }
    {
        let numbers = Numbers::new(self.size, self.client_count, self.cap)?;
        Some(Books {
            numbers: numbers.into(),
            hand: self.hand,
            free: self.free,
            last: self.last,
            slots: self.slots,
            pages: self.pages,
            pins: self.pins,
            counts: self.counts,
            table_pages: self.table_pages,
            table_frames: self.table_frames,
            grant_pages: self.grant_pages,
            grant_frames: self.grant_frames,
        })
    }
}
