// Check 8 of a pool that has bytes (SPECIFICATION 13.11): its own, that every page number of it is inside the store, and that a pool without a store has
// no marks.
#![tactic(auto)]

ghost use Rattle.std.specs.Prelude.{◌≡◌, ◌<◌, ◌≤◌, List, ℕ, ◌*◌, ◌&&◌, ◌==◌, not, true, fold, eqb, length, true, false, IfErr, MatchResult};
ghost use Rattle.std.specs.List.{zip, list_all};
ghost use Rattle.pool.specs.Limits.{max_clients, max_held, max_frames};
ghost use Rattle.pool.specs.Choose.{choose, both, either, every};
ghost use Rattle.pool.specs.State.{none, within, of_client};
ghost use Rattle.pool.specs.Valid.{numbers_ok, valid};
ghost use Rattle.memory.specs.Memory.{page_bytes, mark};
ghost use Rattle.memory.specs.Requests.{inside, in_order, client_inside, pages_inside, bytes_ok};
ghost use Rattle.answers.specs.Numbers.{refusal_number, refused_by};
ghost use Rattle.answers.specs.declared.refusal.Refusal.TheVariants.{OutOfRange};
ghost use Rattle.books.specs.Books.{pool_in};
ghost use Rattle.books.specs.Lent.{pool_lent};
ghost use Rattle.books.specs.Named.{FewGrants};
ghost use Rattle.checks.specs.Lent.{memory_in};
ghost use Rattle.checks.specs.Parts.{sound_in};

use crate::whole;
use answers::Refusal;
use books::{Books, Checked, Parts};
use memory::{BufferPool, MAX_PAGES, Memory, PAGE};
use pool::{CLIENTS, Client, FRAMES, GRANTS, HELD, NONE};

/// What check 8 looks at of a memory: how many pages the store has, and the marks.
#[derive(Clone, Copy)]
pub struct Marks<'a> {
    pub pages: u16,
    pub filled: &'a [u8; FRAMES],
    pub changed: &'a [u8; FRAMES],
}

impl<'a> Marks<'a> {
    /// Those of an owned memory.
    pub fn of(memory: &'a Memory) -> Self
        ensures { memory_in result memory.now.bytes ≡ memory.now }
    {
        Marks {
            pages: memory.pages,
            filled: &memory.filled,
            changed: &memory.changed,
        }
    }
}

/// Whether a page is inside a store of so many pages; where there is none, every page is.
#[tactic(auto, unfolding(memory::specs::Requests::inside, pool::specs::Choose::either, pool::specs::Choose::choose))]
pub fn inside(store: u16, page: u32) -> bool
    ensures { result ≡ inside store page }
{
    store == 0 || page < u32::from(store)
}

/// SPECIFICATION 13.10: by which number a begin of a page outside the store is turned down, where the pool turns it down by n, or by none of its
/// numbers, 0. It takes any number, also those that no refusal has (what may not change).
#[tactic(auto, using(memory::specs::Orders::order_zero, memory::specs::Orders::order_some), unfolding(memory::specs::Requests::in_order, memory::specs::Requests::first_of, pool::specs::Choose::choose))]
pub fn outside(n: u8) -> u8
    ensures { result ≡ in_order n 16 }
{
    if n == 0 || n == 18 { 16 } else { n }
}

/// The same by name.
#[tactic(auto, unfolding(memory::specs::Requests::in_order, memory::specs::Requests::first_of, pool::specs::Choose::choose))]
pub fn outside_of<T: Copy>(turned: Result<T, Refusal>) -> Refusal
    ensures { refusal_number result ≡ in_order (refused_by turned) 16 }
{
    match turned {
        Ok(_) | Err(Refusal::HeldAlready) => Refusal::OutsideStore,
        Err(other) => other,
    }
}

/// Whether each page is inside. No `all`, which is slower here.
fn each_inside(pages: &[u32], store: u16) -> bool
    ensures { result ≡ fold (λ ok g. ok && inside store g) true pages.now }
{
    pages.iter().fold(true, |ok, &g| ok & inside(store, g))
}

/// The pages of the first n frames.
fn frames_inside(pages: &[u32; FRAMES], n: usize, store: u16) -> bool
    requires { n ≤ max_frames }
    ensures { result ≡ every (λ f. inside store (within pages.now n 0 f)) n }
{
    each_inside(&pages[..n], store)
}

/// A place of the table with this frame, as the array has it (NONE: unused), and page.
#[tactic(auto, unfolding(pool::specs::Choose::either, pool::specs::Choose::choose))]
fn entry_inside(frame: u8, page: u32, store: u16) -> bool
    ensures { result ≡ either (eqb frame none) (inside store page) }
{
    frame == NONE || inside(store, page)
}

/// Whether each entry's page is inside. No `all`, as for the frames.
fn each_entry_inside(frames: &[u8], pages: &[u32], store: u16) -> bool
    ensures { result ≡ fold (λ ok (e : ℕ × ℕ). ok && either (eqb e.0 none) (inside store e.1)) true (zip frames.now pages.now) }
{
    frames
        .iter()
        .zip(pages)
        .fold(true, |ok, (&f, &g)| ok & entry_inside(f, g, store))
}

/// The pages of the entries at the first n places of the table.
fn entries_inside(frames: &[u8; FRAMES], pages: &[u32; FRAMES], n: usize, store: u16) -> bool
    requires { n ≤ max_frames }
    ensures { result ≡ every (λ i. either (eqb (within frames.now n none i) none) (inside store (within pages.now n 0 i))) n }
{
    each_entry_inside(&frames[..n], &pages[..n], store)
}

/// Whether each page is inside, up to the first that is not: of few.
fn all_inside(pages: &[u32], store: u16) -> bool
    ensures { result ≡ list_all (inside store) pages.now }
{
    pages.iter().all(|&g| inside(store, g))
}

/// The pages of client c's grants.
fn grants_inside(pages: &[u32; GRANTS], c: usize, held: u8, store: u16) -> bool
    requires client { c < max_clients }
    requires few { held ≤ max_held }
    ensures { result ≡ every (λ i. inside store (of_client pages.now c held 0 i)) held }
{
    let at = HELD * c;
    all_inside(&pages[at..at + held as usize], store)
}

/// The page that a client at a stage wants, if it works. The stage is a number, 0 at rest, since a record's may be any: so `client_inside` of
/// memory.specs.Requests asks it.
#[tactic(auto, unfolding(pool::specs::Choose::either, pool::specs::Choose::choose))]
fn wanted_inside(stage: u8, page: u32, store: u16) -> bool
    ensures { result ≡ either (eqb stage 0) (inside store page) }
{
    stage == 0 || inside(store, page)
}

/// Client c: the page that it wants, and its grants.
fn client_inside(books: &Books, clients: &[Client; CLIENTS], c: usize, store: u16) -> bool
    requires few { FewGrants books.now.numbers.client_count clients.now }
    requires client { c < books.now.numbers.client_count }
    ensures { result ≡ client_inside (pool_in books.now clients.now) store c }
{
    let client = &clients[c];
    wanted_inside(client.stage, client.page, store)
        && grants_inside(books.grant_pages, c, client.held, store)
}

/// The first T clients.
fn clients_inside(books: &Books, clients: &[Client; CLIENTS], store: u16) -> bool
    requires { FewGrants books.now.numbers.client_count clients.now }
    ensures { result ≡ every (client_inside (pool_in books.now clients.now) store) books.now.numbers.client_count }
{
    (0..usize::from(books.numbers.client_count)).all(|c| client_inside(books, clients, c, store))
}

/// Every page number of the pool.
fn pages_inside(books: &Books, clients: &[Client; CLIENTS], store: u16) -> bool
    requires { FewGrants books.now.numbers.client_count clients.now }
    ensures { result ≡ pages_inside (pool_in books.now clients.now) store }
{
    let n = books.numbers.total() as usize;
    frames_inside(books.pages, n, store)
        && entries_inside(books.table_frames, books.table_pages, n, store)
        && clients_inside(books, clients, store)
}

/// Whether neither mark is on, of frames with these marks.
fn none_marked(filled: &[u8], changed: &[u8]) -> bool
    ensures { result ≡ list_all (λ (m : ℕ × ℕ). (m.0 == 0) && (m.1 == 0)) (zip filled.now changed.now) }
{
    filled.iter().zip(changed).all(|(&f, &c)| f == 0 && c == 0)
}

/// The first n frames have no mark.
fn unmarked(filled: &[u8; FRAMES], changed: &[u8; FRAMES], n: usize) -> bool
    requires { n ≤ max_frames }
    ensures { result ≡ every (λ f. both (not (mark filled.now f)) (not (mark changed.now f))) n }
{
    none_marked(&filled[..n], &changed[..n])
}

/// What is tested of the bytes. Without a store every page is inside, and with one any mark may be on.
fn bytes_ok(books: &Books, clients: &[Client; CLIENTS], marks: &Marks) -> bool
    requires { FewGrants books.now.numbers.client_count clients.now }
    ensures { (bytes : List ℕ) → result ≡ bytes_ok (pool_in books.now clients.now) (memory_in marks.now bytes) }
{
    if marks.pages == 0 {
        return unmarked(marks.filled, marks.changed, books.numbers.total() as usize);
    }
    marks.pages <= MAX_PAGES && pages_inside(books, clients, marks.pages)
}

/// Check 8 of a pool that has bytes, of books whose numbers are in range.
fn books_sound(books: &Books, clients: &[Client; CLIENTS], marks: &Marks) -> bool
    requires { numbers_ok books.now.numbers.size books.now.numbers.client_count books.now.numbers.cap ≡ true }
    ensures { (bytes : List ℕ) →
        result ≡ both (valid (pool_in books.now clients.now)) (bytes_ok (pool_in books.now clients.now) (memory_in marks.now bytes)) }
{
    whole::books_ok(books, clients) && bytes_ok(books, clients, marks)
}

/// Check 8 of a pool that has bytes, of the parts that are lent of it, with any numbers. It looks neither at the hand nor at the bytes.
pub fn parts_sound(parts: &Parts, clients: &[Client; CLIENTS], marks: &Marks) -> bool
    ensures parts { result ≡ sound_in parts.now.size parts.now.client_count parts.now.cap parts.now.free parts.now.last parts.now.slots.now
        parts.now.pages.now parts.now.pins.now parts.now.counts.now parts.now.table_pages.now parts.now.table_frames.now clients.now
        parts.now.grant_pages.now parts.now.grant_frames.now marks.now.pages marks.now.filled.now marks.now.changed.now }
    ensures whole { (bytes : List ℕ) →
        result ≡ both (valid (pool_lent parts.now clients.now)) (bytes_ok (pool_lent parts.now clients.now) (memory_in marks.now bytes)) }
{
    match parts.books() {
        Some(books) => books_sound(&books, clients, marks),
        None => false,
    }
}

/// The same of a pool with any numbers; by its type, one that passes is known to.
pub fn sound(pool: &BufferPool) -> Result<Checked<'_>, Refusal>
    ensures { MatchResult result
        (λ c. (c.pool.now ≡ pool.now.pool) × (both (valid pool.now.pool) (bytes_ok pool.now.pool pool.now.memory) ≡ true))
        (λ e. (e ≡ OutOfRange) × (both (valid pool.now.pool) (bytes_ok pool.now.pool pool.now.memory) ≡ false)) }
{
    let checked = whole::checked(&pool.pool)?;
    if bytes_ok(
        &checked.books(),
        &pool.pool.clients,
        &Marks::of(&pool.memory),
    ) {
        Ok(checked)
    } else {
        Err(Refusal::OutOfRange)
    }
}

/// The whole check 8, also of a store of so many bytes, which has to be as long as at setup: SPECIFICATION 13.4, 14.8.
pub fn check(
    parts: &Parts,
    clients: &[Client; CLIENTS],
    marks: &Marks,
    lent: usize,
) -> Result<(), Refusal>
    ensures number { (bytes store : List ℕ) → length store ≡ lent →
        let p = pool_lent parts.now clients.now in
        let m = memory_in marks.now bytes in
        refused_by result ≡ choose (both (both (valid p) (bytes_ok p m)) (eqb (length store) (page_bytes * m.pages))) 0 8 }
    ensures refusal { IfErr result (λ r. r ≡ OutOfRange) }
{
    let as_long = lent == PAGE * usize::from(marks.pages);
    if parts_sound(parts, clients, marks) && as_long {
        Ok(())
    } else {
        Err(Refusal::OutOfRange)
    }
}
