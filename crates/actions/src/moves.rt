// A Move is written here and nowhere else in the code: the moves that several stages share, refusal 15's and one that changes nothing, and those
// of a begin and a release. A move says what an action does; it changes nothing by itself. Stages and refusals are told by number, and slots by how many
// there are: the pages on the code name `works` and `still`, which take any (what may not change).
#![tactic(auto, unfolding(pool::specs::Stages::around, pool::specs::Stages::raised, pool::specs::Stages::busy_visit, pool::specs::Stages::evict_own, pool::specs::Moves::granted, pool::specs::Calls::release_move, pool::specs::Choose::choose))]

ghost use Rattle.std.specs.Prelude.{◌≡◌, ◌-◌, ◌<◌};
ghost use Rattle.pool.specs.Stages.{around, raised, next_slot, busy_visit, evict_own, granted_found};
ghost use Rattle.pool.specs.State.{resting};
ghost use Rattle.pool.specs.Moves.{works_as, works, still, stuck, granted, refused15};
ghost use Rattle.pool.specs.Calls.{begin_move, release_move};

use answers::{Refusal, Stage};
use pool::{Answer, Client, Counted, EVICTED, GrantChange, MAX_HELD, Move, NONE, ONE_PIN, Write};

// ---- numbers

/// The slot after slot i (SPECIFICATION 1.3).
pub fn around(size: u8, i: u8) -> u8
    ensures { result ≡ around size i }
{
    match i.checked_add(1) {
        Some(next) if next < size => next,
        _ => 0,
    }
}

/// SPECIFICATION 4.26.
fn raised(cap: u8, n: u8) -> u8
    ensures { result ≡ raised cap n }
{
    if n < cap { n + 1 } else { n }
}

// ---- what several stages share

/// A client at rest: it names no frame but its grants', and its other numbers are 0.
pub fn resting(held: u8) -> Client
    ensures { result ≡ resting held }
{
    Client {
        stage: 0,
        page: 0,
        own: NONE,
        found: NONE,
        victim: NONE,
        seen: 0,
        place: 0,
        start: 0,
        busy: 0,
        held,
    }
}

/// The client goes on to another stage, by its number.
pub fn works_as(client: Client, counted: Counted, stage: u8, write: Write) -> Move
    ensures { result ≡ works_as client counted stage write }
{
    Move {
        next: Client { stage, ..client },
        grants: GrantChange::Same,
        write,
        answer: Answer::Working(stage),
        counted,
    }
}

pub fn works(client: Client, stage: u8, write: Write) -> Move
    ensures { result ≡ works client stage write }
{
    works_as(client, Counted::Nothing, stage, write)
}

/// Nothing changes, and the call is refused by a number.
pub fn still(client: Client, refusal: u8) -> Move
    ensures { result ≡ still client refusal }
{
    Move {
        next: client,
        grants: GrantChange::Same,
        write: Write::Keep,
        answer: Answer::Refused(refusal),
        counted: Counted::Nothing,
    }
}

/// SPECIFICATION 4.30.
pub fn stuck(client: Client) -> Move
    ensures { result ≡ stuck client }
{
    still(client, Refusal::OutOfRange.number())
}

/// SPECIFICATION 4.29. There is no place for a ninth grant.
pub fn granted(client: Client, f: u8, write: Write, counted: Counted) -> Move
    ensures { result ≡ granted client f write counted }
{
    if client.held < MAX_HELD {
        return Move {
            next: resting(client.held + 1),
            grants: GrantChange::Open(client.held, client.page, f),
            write,
            answer: Answer::Granted(f),
            counted,
        };
    }
    stuck(client)
}

/// The found frame is granted, and its count raised.
pub fn granted_found(client: Client, cap: u8, count: u8, counted: Counted) -> Move
    ensures { result ≡ granted_found client cap count counted }
{
    let more = raised(cap, count);
    granted(
        client,
        client.found,
        Write::PutCount(client.found, more),
        counted,
    )
}

/// SPECIFICATION 4.24. The slot was not busy when 12 looked, so that the busy run starts anew.
pub fn next_slot(client: Client, size: u8, write: Write) -> Move
    ensures { result ≡ next_slot client size write }
{
    let next = Client {
        victim: NONE,
        place: around(size, client.place),
        busy: 0,
        ..client
    };
    works(next, Stage::LookAtSlot.number(), write)
}

/// SPECIFICATION 3.9. Nothing is written: the frame that the client took keeps its pins.
fn refused_15(client: Client) -> Move
    ensures { result ≡ refused15 client }
{
    Move {
        next: resting(client.held),
        counted: Counted::Refusal,
        ..still(client, Refusal::AllBusy.number())
    }
}

/// SPECIFICATION 4.25. S busy visits one after the other have met every slot once.
pub fn busy_visit(client: Client, size: u8) -> Move
    requires { client.busy < size }
    ensures { result ≡ busy_visit client size }
{
    let busy = client.busy + 1;
    if busy == size {
        return refused_15(client);
    }
    let next = Client {
        victim: NONE,
        place: around(size, client.place),
        busy,
        ..client
    };
    works(next, Stage::LookAtSlot.number(), Write::Keep)
}

/// SPECIFICATION 4.28. The frame stands in a slot: left with its pin and named by nobody, it would keep that slot busy for good.
pub fn evict_own(client: Client, pins: u8, stage: u8) -> Move
    ensures { result ≡ evict_own client pins stage }
{
    let next = Client {
        own: NONE,
        ..client
    };
    if pins == ONE_PIN {
        return works(next, stage, Write::PutPins(client.own, EVICTED));
    }
    works(next, stage, Write::Keep)
}

// ---- begin and release

/// A begin or a release is done.
fn completes(page: u32, next: Client, grants: GrantChange, write: Write) -> Move
    ensures { result ≡ Rattle.pool.specs.Moves.completes page next grants write }
{
    Move {
        next,
        grants,
        write,
        answer: Answer::Done(page),
        counted: Counted::Nothing,
    }
}

/// SPECIFICATION 3.2.
pub fn begin_move(client: Client, page: u32) -> Move
    ensures { result ≡ begin_move client page }
{
    let next = Client {
        stage: Stage::LookUp.number(),
        page,
        ..client
    };
    completes(page, next, GrantChange::Same, Write::Keep)
}

/// SPECIFICATION 3.4. The client's last grant moves to the place of the one that ends. Read: that place, its frame, and the frame's pins.
pub fn release_move(client: Client, page: u32, i: u8, f: u8, pins: u8) -> Move
    ensures { result ≡ release_move client page i f pins }
{
    if pins == EVICTED {
        return stuck(client);
    }
    let held = client.held.saturating_sub(1);
    completes(
        page,
        Client { held, ..client },
        GrantChange::End(i, held),
        Write::PutPins(f, pins - 1),
    )
}
