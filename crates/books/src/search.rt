ghost use Rattle.std.specs.Prelude.{◌≡◌, ◌≤◌, ◌<◌, ◌+◌, ◌%◌, List, unwrap_or, eqb};
ghost use Rattle.pool.specs.Limits.{max_clients, max_held};
ghost use Rattle.pool.specs.State.{none, total, slot, entry_frame};
ghost use Rattle.pool.specs.Choose.{some};
ghost use Rattle.pool.specs.Frames.{referenced, free_frame};
ghost use Rattle.pool.specs.declared.Client.{Client};
ghost use Rattle.books.specs.Books.{pool_in};
ghost use Rattle.books.specs.Optional.{IsNumber};
ghost use Rattle.books.specs.Named.{first_of, names_in, FewGrants};

use crate::{Books, searches};
use pool::{CLIENTS, Client, GRANTS, NONE};

/// Whether client c names frame f: SPECIFICATION 2.6.
#[tactic(auto, unfolding(crate::specs::Named::names_in, pool::specs::Choose::either, pool::specs::Choose::choose))]
fn names(client: &Client, grant_frames: &[u8; GRANTS], c: usize, f: u8) -> bool
    requires client { c < max_clients }
    requires few { client.now.held ≤ max_held }
    ensures { result ≡ names_in client.now grant_frames.now c f }
{
    client.own == f
        || client.found == f
        || client.victim == f
        || searches::holds(grant_frames, c, client.held, f)
}

/// The frame that the search tries first (SPECIFICATION 2.8), of so many. In place `last` may be any byte; one more than it fits, as 255 is NONE.
#[tactic(auto, unfolding(crate::specs::Named::first_of, pool::specs::Choose::choose))]
fn first_tried(last: u8, total: u8) -> u8
    requires { 0 < total }
    ensures value { result ≡ first_of last total }
    ensures bound { result < total }
{
    if last == NONE { 0 } else { (last + 1) % total }
}

/// The frame that is tried after frame f: frame 0 after the last one.
fn tried_after(f: u8, total: u8) -> u8
    requires { f < total }
    ensures value { result ≡ (f + 1) % total }
    ensures bound { result < total }
{
    if f + 1 == total { 0 } else { f + 1 }
}

impl Books<'_> {
    /// Whether frame f stands in a slot.
    fn in_slot(&self, f: u8) -> bool
        ensures { (clients : List Client) → result ≡ some (λ i. eqb (slot (pool_in self.now clients) i) f) self.now.numbers.size }
    {
        // By a local: the array behind a field is lent on as a slice only so.
        let slots = self.slots;
        searches::has(slots, self.numbers.size as usize, f)
    }

    /// Whether an entry of the table has frame f.
    fn in_table(&self, f: u8) -> bool
        ensures { (clients : List Client) →
            result ≡ some (λ i. eqb (entry_frame (pool_in self.now clients) i) f) (total (pool_in self.now clients)) }
    {
        let frames = self.table_frames;
        searches::has(frames, self.numbers.total() as usize, f)
    }

    /// Whether a slot, an entry or a client names frame f: SPECIFICATION 2.7.
    fn is_named(&self, clients: &[Client; CLIENTS], f: u8) -> bool
        requires { FewGrants self.now.numbers.client_count clients.now }
        ensures { result ≡ referenced (pool_in self.now clients.now) f }
    {
        if self.in_slot(f) {
            return true;
        }
        if self.in_table(f) {
            return true;
        }
        // Tried: `(0..count).any(..)`, whose proof did not close.
        let count = self.numbers.client_count as usize;
        for c in 0..count {
            if names(&clients[c], self.grant_frames, c, f) {
                return true;
            }
        }
        false
    }

    /// The frame that stage 4 takes: the first that nobody names, in the order of SPECIFICATION 2.8.
    pub fn free_frame(&self, clients: &[Client; CLIENTS]) -> Option<u8>
        requires some_slot { 0 < self.now.numbers.size }
        requires few { FewGrants self.now.numbers.client_count clients.now }
        ensures frame { unwrap_or result none ≡ free_frame (pool_in self.now clients.now) }
        ensures number { IsNumber result }
    {
        let total = self.numbers.total();
        let mut next = first_tried(self.last, total);
        for n in 0..total {
            let f = next;
            next = tried_after(f, total);
            if !self.is_named(clients, f) {
                return Some(f);
            }
        }
        None
    }
}
