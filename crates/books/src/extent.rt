ghost use Rattle.std.specs.Prelude.{◌≡◌, ◌+◌, ◌*◌, ◌≤◌};
ghost use Rattle.pool.specs.Limits.{max_size, max_frames};

use crate::Numbers;

/// S, T and C of lent books: no more slots and frames than there is room for. Whether they are in range, as `Numbers` are, is not known.
#[derive(Clone, Copy, Debug, PartialEq, Eq)]
pub struct Extent {
    pub size: u8,
    pub client_count: u8,
    pub cap: u8,
    ghost few_slots: { size ≤ max_size },
    ghost few_frames: { size + 2 * client_count ≤ max_frames },
}

impl Extent {
    /// How many frames there are, and places of the table: SPECIFICATION 1.2.
    pub fn total(&self) -> u8
        ensures value { result ≡ self.now.size + 2 * self.now.client_count }
        ensures bound { result ≤ max_frames }
    {
        self.size + 2 * self.client_count
    }
}

/// What it gives is `ExtentOf` of crates/books/specs/Extents.antt, which cannot be named here, as it names this type.
impl From<Numbers> for Extent {
    ghost from_gives = { λ n e. (e.size ≡ n.size) × (e.client_count ≡ n.client_count) × (e.cap ≡ n.cap) };

    fn from(numbers: Numbers) -> Extent {
        Extent {
            size: numbers.size,
            client_count: numbers.client_count,
            cap: numbers.cap,
        }
    }
}
