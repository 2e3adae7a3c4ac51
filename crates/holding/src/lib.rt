// A client that reads or writes a byte in place: by which refusal it is turned down, or the frame of its grant (SPECIFICATION 14.4, 14.6). Internal.
#![tactic(auto)]

ghost use Rattle.std.specs.Prelude.{◌≡◌, ◌*◌, ◌<◌, length, IfOk};
ghost use Rattle.memory.specs.Memory.{page_bytes};
ghost use Rattle.memory.specs.Requests.{State};
ghost use Rattle.holding.specs.Holds.{Keeps, HeldBy};

use answers::Refusal;
use books::searches;
use client_arrays::Clients;
use memory::PAGE;
use pool::{GRANTS, HELD, MAX_CLIENTS, MAX_HELD};

/// What a read or a write looks at: how many clients the pool has, their records, and all grants.
#[derive(Clone, Copy)]
pub struct Grants<'a> {
    pub client_count: u8,
    pub clients: Clients<'a>,
    pub pages: &'a [u32; GRANTS],
    pub frames: &'a [u8; GRANTS],
}

impl Grants<'_> {
    /// The frame of a client's grant, for a call for a byte at an offset of a page; lent a store of so many bytes, beside which the pool was set up with so
    /// many pages.
    pub fn frame_of(
        &self,
        client: u8,
        page: u32,
        offset: u32,
        lent: usize,
        store_pages: u16,
    ) -> Result<u8, Refusal>
        ensures held_by { (x : State) →
            Keeps x.pool self.now.client_count self.now.clients.bytes.now self.now.clients.words.now self.now.pages.now self.now.frames.now →
            x.memory.pages ≡ store_pages → length x.store ≡ lent → HeldBy x client page offset result }
        ensures lent_value { IfOk result (λ f. (lent ≡ page_bytes * store_pages) × (offset < page_bytes)) }
    {
        let long = PAGE * usize::from(store_pages);
        if lent != long {
            return Err(Refusal::OutOfRange);
        }
        if self.client_count > MAX_CLIENTS {
            return Err(Refusal::OutOfRange);
        }
        if client >= self.client_count {
            return Err(Refusal::NoSuchClient);
        }
        let c = usize::from(client);
        let its = self.clients.get(c);
        if its.held > MAX_HELD {
            return Err(Refusal::OutOfRange);
        }
        if its.stage != 0 {
            return Err(Refusal::AtWork);
        }
        let Some(i) = searches::grant_of(self.pages, c, its.held, page) else {
            return Err(Refusal::NotHeld);
        };
        content::outside(store_pages, page, offset)?;
        Ok(self.frames[HELD * c + usize::from(i)])
    }
}
