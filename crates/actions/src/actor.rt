ghost use Rattle.std.specs.Prelude.{◌≡◌, ◌<◌, ◌≤◌, true};
ghost use Rattle.std.proofs.Props.{props};
ghost use Rattle.pool.specs.Limits.{max_held};
ghost use Rattle.pool.specs.Valid.{numbers_ok};
ghost use Rattle.books.specs.Optional.{IsNumber};
ghost use Rattle.actions.specs.Low.{LowPins};

use books::Books;
use pool::Client;

/// All that a client's next action looks at. A pool that passes check 8 has what the ghost fields say of each of its clients; a call in place tests it.
/// It may be of a client that there is not, and of a pool whose S, T or C is out of range; where neither is so, it can be an `Actor`.
#[derive(Clone, Copy)]
pub struct View<'a> {
    pub books: Books<'a>,
    /// The client's number, and its record.
    pub number: u8,
    pub client: Client,
    /// The frame to take, which stage 4 alone looks at.
    pub fresh: Option<u8>,
    ghost busy: { client.busy < books.numbers.size },
    ghost held: { client.held ≤ max_held },
    /// A pin more fits the frame that it found.
    ghost pins: { LowPins books client.found },
    ghost fresh_number: { IsNumber fresh } by { Prim.hlevel props },
}

/// A client that there is, of a pool whose S, T and C are in range, with all that its next action looks at.
#[derive(Clone, Copy)]
pub struct Actor<'a> {
    pub view: View<'a>,
    ghost known: { view.number < view.books.numbers.client_count },
    ghost in_range: { numbers_ok view.books.numbers.size view.books.numbers.client_count view.books.numbers.cap ≡ true },
}
