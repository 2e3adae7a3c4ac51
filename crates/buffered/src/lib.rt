// The calls of a pool that has bytes: setup, begin and release (SPECIFICATION, section 13). Each takes any pool, numbers and store, and its promise says
// what it answers and what it leaves, whole. The second clause of a promise lists by which refusals the call can be refused; 0 is no refusal. Public,
// through crate `foqheran`; the step is in crate `byte_step`, reads and writes are in crate `byte_calls`. By value, as the theorems of crate `byte_tie`
// name these promises.
#![tactic(auto)]

ghost use Rattle.std.specs.Prelude.{◌≡◌, List, ℕ, MatchOption};
ghost use Rattle.pool.specs.Answers.{refusal_of};
ghost use Rattle.pool.specs.declared.Call.TheVariants.{Begin, Release};
ghost use Rattle.answers.specs.Among.{Among};
ghost use Rattle.answers.specs.Refusals.{by_setup, by_begin_on, by_release};
ghost use Rattle.memory.specs.Memory.{blank};
ghost use Rattle.memory.specs.Requests.{Asks, setup_on, call_on, state_of, reply};
ghost use Rattle.buffered.specs.Ways.{turned_reply, replied};

use answers::Refusal;
use books::Numbers;
use checked::Made;
use memory::{BYTES, BufferPool, Memory, Reply};
use pool::{Answer, Call, FRAMES};

/// The pool as it was, and why the call is refused: by a number, which may be any (what may not change). Internal.
pub fn turned_back(n: u8, pool: BufferPool) -> Reply
    ensures { result ≡ turned_reply n pool }
{
    Reply {
        answer: Answer::Refused(n),
        pool,
    }
}

// ---- setup

/// SPECIFICATION 13.3.
fn blank(pages: u16) -> Memory
    ensures { result ≡ blank pages }
{
    Memory {
        pages,
        bytes: [0; BYTES],
        filled: [0; FRAMES],
        changed: [0; FRAMES],
    }
}

/// SPECIFICATION 13.3; refusal 8, which leaves no pool.
#[tactic(auto, unfolding(pool::specs::Answers::refusal_of, pool::specs::Choose::both, pool::specs::Choose::choose, memory::specs::Requests::setup_on))]
pub fn setup(size: u8, client_count: u8, cap: u8, hand: u32, store: &[u8]) -> Reply
    ensures value { result ≡ reply (setup_on size client_count cap hand store.now) }
    ensures among { Among by_setup (refusal_of result.answer) }
{
    let numbers = Numbers::new(size, client_count, cap);
    let pages = content::pages_of(store.len());
    let (Some(_), Some(pages)) = (numbers, pages) else {
        let pool = calls::fresh(0, 0, 0, 0);
        let memory = blank(0);
        return turned_back(Refusal::OutOfRange.number(), BufferPool { pool, memory });
    };
    let pool = calls::fresh(size, client_count, cap, hand);
    let memory = blank(pages);
    Reply {
        answer: Answer::Done(u32::from(size)),
        pool: BufferPool { pool, memory },
    }
}

// ---- begin, release

/// What a begin makes of the books: check 8, refusal 16, the pool's own call. The bytes stay.
fn begun(pool: &BufferPool, client: u8, page: u32) -> Result<Made, Refusal>
    ensures { (store : List ℕ) → replied result pool.now ≡ reply (call_on (state_of pool.now store) (Asks (Begin client page))) }
{
    let checked = checks::sound(pool)?;
    let call = Call::Begin(client, page);
    if !checks::inside(pool.memory.pages, page) {
        return Err(checks::outside_of(checked::turned_by(&checked, call)));
    }
    Ok(checked::call_made(&checked, call))
}

/// What a release makes of them: check 8, the pool's own call. The bytes stay.
fn released(pool: &BufferPool, client: u8, page: u32) -> Result<Made, Refusal>
    ensures { (store : List ℕ) → replied result pool.now ≡ reply (call_on (state_of pool.now store) (Asks (Release client page))) }
{
    let call = Call::Release(client, page);
    Ok(checked::call_made(&checks::sound(pool)?, call))
}

/// The reply to such a call.
fn replied(made: Result<Made, Refusal>, pool: BufferPool) -> Reply
    ensures { result ≡ replied made pool }
{
    match made {
        Ok(made) => Reply {
            answer: made.answer,
            pool: BufferPool {
                pool: made.pool,
                ..pool
            },
        },
        Err(refusal) => turned_back(refusal.number(), pool),
    }
}

/// SPECIFICATION 13.5, 13.10: whatever the store has in it.
pub fn begin(pool: BufferPool, client: u8, page: u32) -> Reply
    ensures by_index { (store : List ℕ) → result ≡ reply (call_on (state_of pool store) (Asks (Begin client page))) }
    ensures among { Among by_begin_on (refusal_of result.answer) }
{
    replied(begun(&pool, client, page), pool)
}

/// SPECIFICATION 13.5: whatever the store has in it.
pub fn release(pool: BufferPool, client: u8, page: u32) -> Reply
    ensures by_index { (store : List ℕ) → result ≡ reply (call_on (state_of pool store) (Asks (Release client page))) }
    ensures among { Among by_release (refusal_of result.answer) }
{
    replied(released(&pool, client, page), pool)
}
