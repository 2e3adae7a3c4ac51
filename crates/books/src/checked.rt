ghost use Rattle.std.specs.Prelude.{◌≡◌, true};
ghost use Rattle.pool.specs.Valid.{valid};
ghost use Rattle.books.specs.Books.{pool_in};
ghost use Rattle.books.specs.Extents.{ExtentOf};

use crate::{Books, Numbers};
use pool::Pool;

/// A pool that passes check 8: SPECIFICATION, section 5. Whoever makes one has tested the pool, or knows where it comes from.
#[derive(Clone, Copy)]
pub struct Checked<'a> {
    pub pool: &'a Pool,
    pub numbers: Numbers,
    ghost size: { numbers.size ≡ pool.now.size },
    ghost client_count: { numbers.client_count ≡ pool.now.client_count },
    ghost cap: { numbers.cap ≡ pool.now.cap },
    ghost valid: { valid pool.now ≡ true },
}

impl<'a> Checked<'a> {
    /// Its books.
    pub fn books(&self) -> Books<'a>
        ensures pool { pool_in result self.now.pool.now.clients ≡ self.now.pool.now }
        ensures numbers { ExtentOf self.now.numbers result.numbers }
    {
        Books::of(self.numbers.into(), self.pool)
    }
}
