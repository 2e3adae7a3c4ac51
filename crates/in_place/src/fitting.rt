// The tests of a call in place: SPECIFICATION 14.4.
ghost use Rattle.std.specs.Prelude.{◌≡◌, ◌<◌, ◌≤◌, true, false, List, IfOk, MatchResult, unwrap_or, leb};
ghost use Rattle.std.specs.List.{list_all};
ghost use Rattle.pool.specs.Limits.{max_clients, max_held};
ghost use Rattle.pool.specs.State.{none, pins};
ghost use Rattle.pool.specs.Frames.{free_frame};
ghost use Rattle.pool.specs.declared.Client.{Client};
ghost use Rattle.answers.specs.declared.refusal.Refusal.TheVariants.{OutOfRange};
ghost use Rattle.books.specs.Books.{pool_in};
ghost use Rattle.books.specs.Optional.{IsNumber};
ghost use Rattle.play.specs.Playable.{CanAct};
ghost use Rattle.client_arrays.specs.Loans.{clients_in};
ghost use Rattle.in_place.specs.Held.{client_fits, search_fits};
ghost use Rattle.in_place.specs.Acts.{helds};

use answers::{Refusal, Stage};
use books::Books;
use client_arrays::Clients;
use pool::{Client, MAX_HELD, MAX_PINS};

/// The acting client, and the pins of the frame that it found.
#[tactic(auto, unfolding(crate::specs::Held::client_fits, pool::specs::Choose::both, pool::specs::Choose::choose))]
pub fn client_fits(books: &Books, client: &Client) -> bool
    ensures value { (clients : List Client) → result ≡ client_fits books.now.numbers.size (pins (pool_in books.now clients) client.now.found) client.now }
    ensures ready { result ≡ true → CanAct books.now client.now }
{
    let size = books.numbers.size;
    client.place < size
        && client.busy < size
        && client.held <= MAX_HELD
        && books.pins(client.found) <= MAX_PINS
}

/// None of them has more than eight grants.
fn few_grants(clients: &[Client]) -> bool
    ensures { result ≡ list_all (λ k. leb k.held max_held) clients.now }
{
    clients.iter().all(|client| client.held <= MAX_HELD)
}

/// The search for a frame, which looks at every client. Out of line: a caller pays at its entry for the clients' room.
#[inline(never)]
#[tactic(auto, using(crate::proofs::Each::helds_is))]
fn searched(books: &Books, clients: &Clients) -> Result<Option<u8>, Refusal>
    requires some_slot { 0 < books.now.numbers.size }
    requires clients { books.now.numbers.client_count ≤ max_clients }
    ensures fits { MatchResult result (λ f. helds (clients_in clients.now) books.now.numbers.client_count ≡ true)
        (λ e. (helds (clients_in clients.now) books.now.numbers.client_count ≡ false) × (e ≡ OutOfRange)) }
    ensures frame { IfOk result (λ f. unwrap_or f none ≡ free_frame (pool_in books.now (clients_in clients.now))) }
    ensures number { IfOk result (λ f. IsNumber f) }
{
    let all = clients.all();
    let count = usize::from(books.numbers.client_count);
    if !few_grants(&all[..count]) {
        return Err(Refusal::OutOfRange);
    }
    Ok(books.free_frame(&all))
}

/// The frame to take, where the client stands at stage 4; no other stage looks at it.
#[tactic(auto, using(crate::proofs::Each::search_of, crate::proofs::Each::no_search))]
pub fn fresh_frame(books: &Books, clients: &Clients, client: &Client) -> Result<Option<u8>, Refusal>
    requires some_slot { 0 < books.now.numbers.size }
    requires clients { books.now.numbers.client_count ≤ max_clients }
    ensures fits { MatchResult result (λ f. search_fits (pool_in books.now (clients_in clients.now)) client.now ≡ true)
        (λ e. (search_fits (pool_in books.now (clients_in clients.now)) client.now ≡ false) × (e ≡ OutOfRange)) }
    ensures frame { IfOk result (λ f. client.now.stage ≡ 4 → unwrap_or f none ≡ free_frame (pool_in books.now (clients_in clients.now))) }
    ensures number { IfOk result (λ f. IsNumber f) }
{
    if client.stage != Stage::TakeFrame.number() {
        return Ok(None);
    }
    searched(books, clients)
}
