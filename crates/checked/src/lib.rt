// A call on any pool: check 8 of the pool as handed, the call's turn on a copy of it, and check 8 of the copy. A call that is refused by another number
// than 15 leaves the pool as it came. Internal: crate `calls` has the calls by name, and crates `buffered` and `byte_step` those of a pool with bytes,
// which need what the call wrote.
#![tactic(auto)]

ghost use Rattle.std.specs.Prelude.{◌≡◌, MatchResult};
ghost use Rattle.pool.specs.Calls.{turned_by, turned_down, call_of};
ghost use Rattle.answers.specs.Numbers.{refused_by, refusal_number};
ghost use Rattle.checked.specs.Ways.{acts, unmade_by, made_of};

use answers::Refusal;
use books::Checked;
use pool::{Answer, Call, Counted, Outcome, Pool, Write};

/// What a call leaves, and what it wrote to the pool.
#[derive(Clone, Copy, Debug, PartialEq, Eq)]
pub struct Made {
    pub answer: Answer,
    pub counted: Counted,
    pub write: Write,
    pub pool: Pool,
}

/// The pool as it was, and nothing written.
fn unmade(refusal: Refusal, pool: &Pool) -> Made
    ensures { result ≡ unmade_by (refusal_number refusal) pool.now }
{
    Made {
        answer: refusal.into(),
        counted: Counted::Nothing,
        write: Write::Keep,
        pool: *pool,
    }
}

/// Why a call on a pool that passes check 8 is turned down: SPECIFICATION 3.7 without 8. No frame is looked for, as its turn does.
pub fn turned_by(pool: &Checked, call: Call) -> Result<(), Refusal>
    ensures { refused_by result ≡ turned_by pool.now.pool.now call }
{
    let number = answers::caller(call);
    if number >= pool.numbers.client_count {
        return Err(Refusal::NoSuchClient);
    }
    let client = pool.pool.clients[number as usize];
    play::turned_by(
        call,
        pool.numbers.client_count,
        client,
        &pool.pool.grant_pages,
    )
}

/// Whether an action may have changed something: one that is refused by another number than 15 has not (SPECIFICATION 3.9).
#[tactic(auto, unfolding(crate::specs::Ways::acts, pool::specs::Choose::either, pool::specs::Choose::choose))]
fn acts(answer: Answer) -> bool
    ensures { result ≡ acts answer }
{
    let refused = answers::refusal_of(answer);
    refused == 0 || refused == Refusal::AllBusy.number()
}

/// The turn of a call, played on a copy of the pool, which is then checked; one that changes nothing is not played.
fn attempt(pool: &Checked, call: Call) -> Result<Made, Refusal>
    ensures { MatchResult result (λ m. m ≡ made_of pool.now.pool.now call)
        (λ e. call_of pool.now.pool.now call ≡ turned_down (refusal_number e) pool.now.pool.now) }
{
    let turn = play::turn(pool, call)?;
    if !acts(turn.answer) {
        return Err(Refusal::OutOfRange);
    }
    let mut next = *pool.pool;
    let c = answers::caller(call) as usize;
    play::put(&mut next, pool.numbers.into(), c, &turn);
    if checks::valid(&next) {
        Ok(Made {
            answer: turn.answer,
            counted: turn.counted,
            write: turn.write,
            pool: next,
        })
    } else {
        Err(Refusal::OutOfRange)
    }
}

/// A call on a pool that passes check 8.
pub fn call_made(pool: &Checked, call: Call) -> Made
    ensures { result ≡ made_of pool.now.pool.now call }
{
    match attempt(pool, call) {
        Ok(made) => made,
        Err(refusal) => unmade(refusal, pool.pool),
    }
}

/// A call on any pool, with what it wrote.
pub fn call_on(pool: &Pool, call: Call) -> Made
    ensures { result ≡ made_of pool.now call }
{
    match checks::checked(pool) {
        Ok(checked) => call_made(&checked, call),
        Err(refusal) => unmade(refusal, pool),
    }
}

/// A call on any pool.
pub fn call_of(pool: Pool, call: Call) -> Outcome
    ensures { result ≡ call_of pool call }
{
    let made = call_on(&pool, call);
    Outcome {
        answer: made.answer,
        counted: made.counted,
        pool: made.pool,
    }
}
