ghost use Rattle.std.specs.Prelude.{◌≡◌, ◌≤◌, true, Err, IfOk, IfErr};
ghost use Rattle.pool.specs.Limits.{max_clients};
ghost use Rattle.pool.specs.Choose.{choose};
ghost use Rattle.pool.specs.Valid.{numbers_ok};
ghost use Rattle.memory.specs.Requests.{outside_at};
ghost use Rattle.books.specs.Books.{pool_in, pool_of, SameLoans};
ghost use Rattle.client_arrays.specs.Loans.{clients_in, clients_of, SameClients};
ghost use Rattle.in_place.specs.Held.{pool_from};
ghost use Rattle.in_place.specs.Acts.{ActsTo, IsMove};

use crate::fitting::{client_fits, fresh_frame};
use actions::{Actor, View};
use answers::Refusal;
use books::{Books, BooksMut, Numbers};
use client_arrays::{ALL_BYTES, ALL_WORDS, Clients, ClientsMut};
use pool::{Answer, Call, Counted, FRAMES, GRANTS, Move, SLOTS, Write};

/// What a call answers, how it counts, what it wrote to the pool, and the frame of the entry that this replaced, or NONE: the number as the table has it,
/// which `follow` and `duty` take, so that no option is made here and taken apart there.
#[derive(Clone, Copy)]
pub struct Acted {
    pub answer: Answer,
    pub counted: Counted,
    pub write: Write,
    pub entry: u8,
}

/// A begin of a page outside a store of so many pages.
#[tactic(auto, unfolding(memory::specs::Requests::outside_at, pool::specs::Choose::choose))]
fn is_outside(store_pages: u16, call: Call) -> bool
    ensures { outside_at store_pages call ≡ choose result 16 0 }
{
    match call {
        Call::Begin(_, page) => !checks::inside(store_pages, page),
        Call::Step(_) | Call::Release(..) => false,
    }
}

/// The turn of a call beside a store of so many pages, by the tests of SPECIFICATION 14.4 in their order; S, T and C have passed theirs.
fn turn(books: &Books, clients: &Clients, call: Call, store_pages: u16) -> Result<Move, Refusal>
    requires numbers { numbers_ok books.now.numbers.size books.now.numbers.client_count books.now.numbers.cap ≡ true }
    requires clients { books.now.numbers.client_count ≤ max_clients }
    ensures moved { IfOk result (λ m. IsMove (pool_in books.now (clients_in clients.now)) store_pages call m) }
    ensures away { IfErr result (λ e. let p = pool_in books.now (clients_in clients.now) in ActsTo p store_pages call (Err e) p) }
{
    let caller = answers::caller(call);
    if caller >= books.numbers.client_count {
        return Err(Refusal::NoSuchClient);
    }
    let client = clients.get(usize::from(caller));
    if !client_fits(books, &client) {
        return Err(Refusal::OutOfRange);
    }
    let fresh = fresh_frame(books, clients, &client)?;
    if is_outside(store_pages, call) {
        let count = books.numbers.client_count;
        let turned = play::turned_by(call, count, client, books.grant_pages);
        return Err(checks::outside_of(turned));
    }
    let view = View {
        books: *books,
        number: caller,
        client,
        fresh,
    };
    play::decide(&Actor { view }, call)
}

/// The call on books whose numbers are in range.
fn act_on(
    call: Call,
    store_pages: u16,
    books: &mut BooksMut,
    clients: &mut ClientsMut,
) -> Result<Acted, Refusal>
    requires numbers { numbers_ok books.old.numbers.size books.old.numbers.client_count books.old.numbers.cap ≡ true }
    requires clients { books.old.numbers.client_count ≤ max_clients }
    ensures books { SameLoans books.old books.new }
    ensures clients { SameClients clients.old clients.new }
    ensures acts { ActsTo (pool_of books.old (clients_of clients.old)) store_pages call result (pool_of books.new (clients_of clients.new)) }
{
    let turn = turn(&books.books(), &clients.clients(), call, store_pages)?;
    let c = usize::from(answers::caller(call));
    let entry = content::replaced(books.table_frames, books.numbers.total(), turn.write);
    books.put(c, &turn);
    clients.put(c, turn.next);
    Ok(Acted {
        answer: turn.answer,
        counted: turn.counted,
        write: turn.write,
        entry,
    })
}

/// A begin, step or release, beside a store of so many pages: SPECIFICATION 14.4, 14.5. Refused it changes nothing. The pool is lent part by part, as a
/// program in another language has it, with any numbers.
pub fn act(
    call: Call,
    store_pages: u16,
    size: u8,
    client_count: u8,
    cap: u8,
    hand: &mut u32,
    free: &mut u8,
    last: &mut u8,
    slots: &mut [u8; SLOTS],
    pages: &mut [u32; FRAMES],
    pins: &mut [u8; FRAMES],
    counts: &mut [u8; FRAMES],
    table_pages: &mut [u32; FRAMES],
    table_frames: &mut [u8; FRAMES],
    client_bytes: &mut [u8; ALL_BYTES],
    client_words: &mut [u32; ALL_WORDS],
    grant_pages: &mut [u32; GRANTS],
    grant_frames: &mut [u8; GRANTS],
) -> Result<Acted, Refusal>
    ensures { ActsTo
        (pool_from size client_count cap hand.old free.old last.old slots.old pages.old
        pins.old counts.old table_pages.old table_frames.old client_bytes.old
        client_words.old grant_pages.old grant_frames.old)
        store_pages call result
        (pool_from size client_count cap hand.new free.new last.new slots.new pages.new
        pins.new counts.new table_pages.new table_frames.new client_bytes.new
        client_words.new grant_pages.new grant_frames.new) }
{
    let Some(numbers) = Numbers::new(size, client_count, cap) else {
        return Err(Refusal::OutOfRange);
    };
    let mut books = BooksMut {
        numbers: numbers.into(),
        hand,
        free,
        last,
        slots,
        pages,
        pins,
        counts,
        table_pages,
        table_frames,
        grant_pages,
        grant_frames,
    };
    let mut clients = ClientsMut {
        bytes: client_bytes,
        words: client_words,
    };
    act_on(call, store_pages, &mut books, &mut clients)
}
