// One call's turn: by which refusal it is turned down, or its move, decided over the pool's books where they lie; and the move put into an owned pool.
// The run of a schedule, the public calls, and the begins, steps and releases in place decide here and nowhere else; who may read or write a byte in
// place is told by crate `holding`. Internal: check 8 is not made here. A record's stage is a byte, 0 at rest, and may be any in a pool that a C program
// hands over: so it is compared as a number.
#![tactic(auto)]

ghost use Rattle.std.specs.Prelude.{◌≡◌, ◌<◌, ◌≤◌, ℕ, List, IfOk, unwrap_or};
ghost use Rattle.pool.specs.Limits.{max_clients, max_held};
ghost use Rattle.pool.specs.State.{none};
ghost use Rattle.pool.specs.Frames.{free_frame};
ghost use Rattle.pool.specs.Apply.{apply};
ghost use Rattle.pool.specs.Calls.{caller, refusal_at, turned_by, move_of};
ghost use Rattle.pool.specs.declared.Client.{Client};
ghost use Rattle.pool.specs.declared.Call.TheVariants.{Begin, Step, Release};
ghost use Rattle.pool.specs.declared.Pool.{Pool};
ghost use Rattle.answers.specs.Numbers.{refused_by};
ghost use Rattle.books.specs.Books.{pool_in, NumbersOf};
ghost use Rattle.books.specs.Named.{FewGrants};
ghost use Rattle.books.specs.Optional.{IsNumber};
ghost use Rattle.play.specs.Caller.{Caller};
ghost use Rattle.play.specs.Turn.{turn, Turns};
ghost use Rattle.play.specs.Decides.{Answers, Acts, Asks, Decides, IsClient, move_by};

use actions::{Actor, View, moves};
use answers::{Refusal, Stage};
use books::{Books, BooksMut, Checked, Extent, searches};
use pool::{CLIENTS, Call, Client, GRANTS, MAX_HELD, Move, NONE, Pool};

// ---- what turns a call down

/// SPECIFICATION 3.2.
#[tactic(auto, unfolding(pool::specs::Calls::refusal_at, pool::specs::Choose::choose))]
fn begin_refusal(
    client: Client,
    number: u8,
    page: u32,
    grant_pages: &[u32; GRANTS],
) -> Result<(), Refusal>
    requires client { number < max_clients }
    requires few { client.held ≤ max_held }
    ensures { (p : Pool) → IsClient p number client → p.grant_pages ≡ grant_pages.now → refused_by result ≡ refusal_at p client (Begin number page) }
{
    if client.stage != 0 {
        return Err(Refusal::AtWork);
    }
    if client.held >= MAX_HELD {
        return Err(Refusal::HasEight);
    }
    match searches::grant_of(grant_pages, number as usize, client.held, page) {
        Some(_) => Err(Refusal::HeldAlready),
        None => Ok(()),
    }
}

/// SPECIFICATION 3.3.
#[tactic(auto, unfolding(pool::specs::Calls::refusal_at, pool::specs::Choose::choose))]
fn step_refusal(client: Client) -> Result<(), Refusal>
    ensures { (p : Pool) (number : ℕ) → refused_by result ≡ refusal_at p client (Step number) }
{
    if client.stage == 0 {
        Err(Refusal::AtRest)
    } else {
        Ok(())
    }
}

/// SPECIFICATION 3.4.
#[tactic(auto, unfolding(pool::specs::Calls::refusal_at, pool::specs::Choose::choose))]
fn release_refusal(
    client: Client,
    number: u8,
    page: u32,
    grant_pages: &[u32; GRANTS],
) -> Result<(), Refusal>
    requires client { number < max_clients }
    requires few { client.held ≤ max_held }
    ensures { (p : Pool) → IsClient p number client → p.grant_pages ≡ grant_pages.now → refused_by result ≡ refusal_at p client (Release number page) }
{
    if client.stage != 0 {
        return Err(Refusal::AtWork);
    }
    match searches::grant_of(grant_pages, number as usize, client.held, page) {
        Some(_) => Ok(()),
        None => Err(Refusal::NotHeld),
    }
}

/// Why a call is turned down, of a client with this record: SPECIFICATION 3.7 without 8. By 9 nothing is asked of the record.
#[tactic(auto, unfolding(pool::specs::Calls::caller))]
pub fn turned_by(
    call: Call,
    client_count: u8,
    client: Client,
    grant_pages: &[u32; GRANTS],
) -> Result<(), Refusal>
    requires count { client_count ≤ max_clients }
    requires few { client.held ≤ max_held }
    ensures value { (p : Pool) → Caller p call client_count client grant_pages.now → refused_by result ≡ turned_by p call }
    ensures known { IfOk result (λ _. caller call < client_count) }
{
    let number = answers::caller(call);
    if number >= client_count {
        return Err(Refusal::NoSuchClient);
    }
    match call {
        Call::Begin(_, page) => begin_refusal(client, number, page, grant_pages),
        Call::Step(_) => step_refusal(client),
        Call::Release(_, page) => release_refusal(client, number, page, grant_pages),
    }
}

// ---- the turn

/// The move of a call of the client in view, whether or not it is turned down: SPECIFICATION 3.2 to 3.4.
#[tactic(auto, unfolding(pool::specs::Calls::caller))]
pub fn call_move(view: &View, call: Call) -> Move
    requires caller { caller call ≡ view.now.number }
    requires client { view.now.number < max_clients }
    ensures { (clients : List Client) → Acts (pool_in view.now.books clients) view.now → result ≡ move_of (pool_in view.now.books clients) call }
{
    let client = view.client;
    match call {
        Call::Begin(_, page) => moves::begin_move(client, page),
        Call::Step(_) => view.stage_move(),
        Call::Release(_, page) => {
            let books = &view.books;
            let c = view.number as usize;
            let i = books.grant_of(c, client.held, page).unwrap_or(NONE);
            let f = books.grant_frame(c, client.held, i);
            moves::release_move(client, page, i, f, books.pins(f))
        }
    }
}

/// The turn of a call, whether or not there is such a client: SPECIFICATION 3.7 without 8. Where there is none, its record may be any.
pub fn decide_any(view: &View, call: Call) -> Result<Move, Refusal>
    requires caller { caller call ≡ view.now.number }
    requires clients { view.now.books.numbers.client_count ≤ max_clients }
    ensures decides { (clients : List Client) → Asks (pool_in view.now.books clients) view.now → Decides (pool_in view.now.books clients) call result }
    ensures turn { (c : ℕ) (clients : List Client) →
        Turns (pool_in view.now.books clients) call c view.now.client (unwrap_or view.now.fresh none) →
        move_by view.now.client result ≡ turn (pool_in view.now.books clients) call }
{
    let client_count = view.books.numbers.client_count;
    // By its arms: with `?` the proof of clause `turn` did not close.
    match turned_by(call, client_count, view.client, view.books.grant_pages) {
        Ok(()) => Ok(call_move(view, call)),
        Err(refusal) => Err(refusal),
    }
}

/// The turn of a call of the actor, whom 9 does not turn down: SPECIFICATION 3.7 without 8 and 9.
pub fn decide(actor: &Actor, call: Call) -> Result<Move, Refusal>
    requires { caller call ≡ actor.now.view.number }
    ensures answers { (clients : List Client) → Acts (pool_in actor.now.view.books clients) actor.now.view →
        Answers (pool_in actor.now.view.books clients) call actor.now.view.client result }
    ensures decides { (clients : List Client) → Asks (pool_in actor.now.view.books clients) actor.now.view →
        Decides (pool_in actor.now.view.books clients) call result }
    ensures turn { (c : ℕ) (clients : List Client) →
        Turns (pool_in actor.now.view.books clients) call c actor.now.view.client (unwrap_or actor.now.view.fresh none) →
        move_by actor.now.view.client result ≡ turn (pool_in actor.now.view.books clients) call }
{
    decide_any(&actor.view, call)
}

/// The frame to take, where the client stands at stage 4; it is dear to find, and no other stage looks at it.
pub fn fresh_frame(books: &Books, clients: &[Client; CLIENTS], client: Client) -> Option<u8>
    requires some_slot { 0 < books.now.numbers.size }
    requires few { FewGrants books.now.numbers.client_count clients.now }
    ensures frame { client.stage ≡ 4 → unwrap_or result none ≡ free_frame (pool_in books.now clients.now) }
    ensures number { IsNumber result }
{
    if client.stage == Stage::TakeFrame.number() {
        books.free_frame(clients)
    } else {
        None
    }
}

/// The turn of a call on a pool that passes check 8: SPECIFICATION 3.7 without 8.
pub fn turn(pool: &Checked, call: Call) -> Result<Move, Refusal>
    ensures { Decides pool.now.pool.now call result }
{
    let number = answers::caller(call);
    if number >= pool.numbers.client_count {
        return Err(Refusal::NoSuchClient);
    }
    let clients = &pool.pool.clients;
    let client = clients[number as usize];
    let books = pool.books();
    let view = View {
        books,
        number,
        client,
        fresh: fresh_frame(&books, clients, client),
    };
    decide(&Actor { view }, call)
}

/// A move of client c, put into an owned pool: SPECIFICATION 1.9.
pub fn put(pool: &mut Pool, numbers: Extent, c: usize, turn: &Move)
    requires numbers { NumbersOf pool.old numbers }
    requires clients { numbers.client_count ≤ max_clients }
    requires client { c < max_clients }
    ensures { pool.new ≡ apply pool.old c turn.now }
{
    let mut books = BooksMut {
        numbers,
        hand: &mut pool.hand,
        free: &mut pool.free,
        last: &mut pool.last,
        slots: &mut pool.slots,
        pages: &mut pool.pages,
        pins: &mut pool.pins,
        counts: &mut pool.counts,
        table_pages: &mut pool.table_pages,
        table_frames: &mut pool.table_frames,
        grant_pages: &mut pool.grant_pages,
        grant_frames: &mut pool.grant_frames,
    };
    books.put(c, turn);
    pool.clients[c] = turn.next;
}
