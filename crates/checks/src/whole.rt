// Check 8 of a pool without bytes: SPECIFICATION, section 5.
#![tactic(auto)]

ghost use Rattle.std.specs.Prelude.{◌≡◌, ◌<◌, ◌≤◌, ℕ, ◌&&◌, true, false, fold, MatchResult};
ghost use Rattle.std.specs.List.{zip};
ghost use Rattle.pool.specs.Limits.{max_size, max_clients, max_frames};
ghost use Rattle.pool.specs.State.{none, evicted, within};
ghost use Rattle.pool.specs.Choose.{every};
ghost use Rattle.pool.specs.Valid.{numbers_ok, frame_ok, state_ok, client_ok, valid};
ghost use Rattle.answers.specs.declared.refusal.Refusal.TheVariants.{OutOfRange};
ghost use Rattle.books.specs.Books.{pool_in};
ghost use Rattle.checks.specs.Parts.{valid_in};

use crate::{repeats, single};
use answers::Refusal;
use books::{Books, Checked, Numbers, Parts};
use pool::{CLIENTS, Client, FRAMES, Pool, SLOTS};

/// Whether each is no frame, or one of the pool's n. No `all`, which is slower here.
fn frames_ok(frames: &[u8], n: u8) -> bool
    ensures { result ≡ fold (λ ok f. ok && frame_ok n f) true frames.now }
{
    frames
        .iter()
        .fold(true, |ok, &f| ok & single::frame_ok(n, f))
}

/// SPECIFICATION 5.2, of the first `size` slots.
fn slots_ok(slots: &[u8; SLOTS], size: usize, n: u8) -> bool
    requires { size ≤ max_size }
    ensures { result ≡ every (λ i. frame_ok n (within slots.now size none i)) size }
{
    frames_ok(&slots[..size], n)
}

/// Whether each frame's pins and count pass. No `all`, as for the slots.
fn each_state_ok(pins: &[u8], counts: &[u8], cap: u8) -> bool
    ensures { result ≡ fold (λ ok (s : ℕ × ℕ). ok && state_ok cap s.0 s.1) true (zip pins.now counts.now) }
{
    pins.iter()
        .zip(counts)
        .fold(true, |ok, (&q, &r)| ok & single::state_ok(cap, q, r))
}

/// SPECIFICATION 5.3, of the first n frames.
fn states_ok(pins: &[u8; FRAMES], counts: &[u8; FRAMES], n: usize, cap: u8) -> bool
    requires { n ≤ max_frames }
    ensures { result ≡ every (λ f. state_ok cap (within pins.now n evicted f) (within counts.now n 0 f)) n }
{
    each_state_ok(&pins[..n], &counts[..n], cap)
}

/// Client c: its numbers, the frames that it remembers, its grants.
fn client_ok(books: &Books, clients: &[Client; CLIENTS], c: usize) -> bool
    requires clients { books.now.numbers.client_count ≤ max_clients }
    requires client { c < books.now.numbers.client_count }
    ensures { result ≡ client_ok (pool_in books.now clients.now) c }
{
    let client = &clients[c];
    single::counts_ok(client, books.numbers.size)
        && single::names_ok(client, books.numbers.total())
        && repeats::grants_ok(books, c, client.held)
}

/// The first T clients.
fn clients_ok(books: &Books, clients: &[Client; CLIENTS]) -> bool
    requires { books.now.numbers.client_count ≤ max_clients }
    ensures { result ≡ every (client_ok (pool_in books.now clients.now)) books.now.numbers.client_count }
{
    (0..usize::from(books.numbers.client_count)).all(|c| client_ok(books, clients, c))
}

/// All of section 5, of the pool with these books and clients, whose numbers are in range.
pub fn books_ok(books: &Books, clients: &[Client; CLIENTS]) -> bool
    requires { numbers_ok books.now.numbers.size books.now.numbers.client_count books.now.numbers.cap ≡ true }
    ensures { result ≡ valid (pool_in books.now clients.now) }
{
    let n = books.numbers.total();
    let size = books.numbers.size;
    // SPECIFICATION 5.1: free, and the frame taken last.
    books.free <= size
        && single::frame_ok(n, books.last)
        && slots_ok(books.slots, size as usize, n)
        && states_ok(books.pins, books.counts, n as usize, books.numbers.cap)
        && repeats::entries_ok(books)
        && clients_ok(books, clients)
}

/// The same of parts with any numbers. It looks neither at the hand nor at the frames' pages.
pub fn parts_ok(parts: &Parts, clients: &[Client; CLIENTS]) -> bool
    ensures { result ≡ valid_in parts.now.size parts.now.client_count parts.now.cap parts.now.free parts.now.last parts.now.slots.now parts.now.pins.now
        parts.now.counts.now parts.now.table_pages.now parts.now.table_frames.now clients.now parts.now.grant_pages.now parts.now.grant_frames.now }
{
    match parts.books() {
        Some(books) => books_ok(&books, clients),
        None => false,
    }
}

/// The same of a pool with any numbers; by its type, one that passes is known to.
pub fn checked(pool: &Pool) -> Result<Checked<'_>, Refusal>
    ensures { MatchResult result (λ c. c.pool.now ≡ pool.now) (λ e. (e ≡ OutOfRange) × (valid pool.now ≡ false)) }
{
    let Some(numbers) = Numbers::new(pool.size, pool.client_count, pool.cap) else {
        return Err(Refusal::OutOfRange);
    };
    if books_ok(&Books::of(numbers.into(), pool), &pool.clients) {
        Ok(Checked { pool, numbers })
    } else {
        Err(Refusal::OutOfRange)
    }
}

/// Whether a pool passes.
pub fn valid(pool: &Pool) -> bool
    ensures { result ≡ valid pool.now }
{
    parts_ok(&Parts::of(pool), &pool.clients)
}
