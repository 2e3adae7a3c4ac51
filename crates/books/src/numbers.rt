ghost use Rattle.std.specs.Prelude.{◌≡◌, ◌+◌, ◌*◌, ◌<◌, ◌≤◌, true, false, MatchOption};
ghost use Rattle.pool.specs.Limits.{max_size, max_clients, max_cap, max_frames};
ghost use Rattle.pool.specs.Valid.{numbers_ok};

use crate::Extent;
use pool::{MAX_CAP, MAX_CLIENTS, MAX_SIZE};

/// S, T and C of a pool, which are in range: SPECIFICATION 1.1.
#[derive(Clone, Copy, Debug, PartialEq, Eq)]
pub struct Numbers {
    pub size: u8,
    pub client_count: u8,
    pub cap: u8,
    ghost some_slot: { 0 < size },
    ghost few_slots: { size ≤ max_size },
    ghost some_client: { 0 < client_count },
    ghost few_clients: { client_count ≤ max_clients },
    ghost some_cap: { 0 < cap },
    ghost low_cap: { cap ≤ max_cap },
}

impl Numbers {
    /// None where one is out of range.
    #[tactic(auto, unfolding(pool::specs::Valid::numbers_ok, pool::specs::Choose::both, pool::specs::Choose::choose))]
    pub fn new(size: u8, client_count: u8, cap: u8) -> Option<Numbers>
        ensures { MatchOption result (numbers_ok size client_count cap ≡ false)
            (λ n. (numbers_ok size client_count cap ≡ true) × (n.size ≡ size) × (n.client_count ≡ client_count) × (n.cap ≡ cap)) }
    {
        if (1..=MAX_SIZE).contains(&size)
            && (1..=MAX_CLIENTS).contains(&client_count)
            && (1..=MAX_CAP).contains(&cap)
        {
            Some(Numbers {
                size,
                client_count,
                cap,
            })
        } else {
            None
        }
    }

    /// How many frames a pool of these has: SPECIFICATION 1.2.
    pub fn total(&self) -> u8
        ensures value { result ≡ self.now.size + 2 * self.now.client_count }
        ensures bound { result ≤ max_frames }
    {
        Extent::from(*self).total()
    }
}
