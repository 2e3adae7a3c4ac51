// The calls: setup, begin, step, release. Each takes any pool and any numbers, and its promise says what it answers and what it leaves, whole. The
// second clause of a promise lists by which refusals the call can be refused; 0 is no refusal. Public, through crate `storeless`.
//
// They go by value, with a pool handed back where a call is refused, since the theorems of crate `tie` name these promises.
#![tactic(auto)]

ghost use Rattle.std.specs.Prelude.{◌≡◌};
ghost use Rattle.pool.specs.Answers.{refusal_of};
ghost use Rattle.pool.specs.Calls.{fresh, setup_of, call_of};
ghost use Rattle.pool.specs.declared.Call.TheVariants.{Begin, Release};
ghost use Rattle.answers.specs.Among.{Among};
ghost use Rattle.answers.specs.Refusals.{by_setup, by_begin, by_step, by_release};
ghost use Rattle.calls.specs.Tallied.{stepped_of};

use answers::Refusal;
use books::Numbers;
use pool::{
    Answer, CLIENTS, Call, Counted, EVICTED, FRAMES, GRANTS, NONE, Outcome, Pool, SLOTS, Tally,
};

// ---- setup

/// SPECIFICATION 1.8. Internal.
pub fn fresh(size: u8, client_count: u8, cap: u8, hand: u32) -> Pool
    ensures { result ≡ fresh size client_count cap hand }
{
    let resting = actions::moves::resting(0);
    Pool {
        size,
        client_count,
        cap,
        hand,
        free: size,
        last: NONE,
        slots: [NONE; SLOTS],
        pages: [0; FRAMES],
        pins: [EVICTED; FRAMES],
        counts: [0; FRAMES],
        table_pages: [0; FRAMES],
        table_frames: [NONE; FRAMES],
        clients: [resting; CLIENTS],
        grant_pages: [0; GRANTS],
        grant_frames: [0; GRANTS],
    }
}

/// SPECIFICATION 3.1; refusal 8.
#[tactic(auto, unfolding(pool::specs::Calls::setup_of, pool::specs::Answers::refusal_of, pool::specs::Choose::choose))]
pub fn setup(size: u8, client_count: u8, cap: u8, hand: u32) -> Outcome
    ensures value { result ≡ setup_of size client_count cap hand }
    ensures among { Among by_setup (refusal_of result.answer) }
{
    match Numbers::new(size, client_count, cap) {
        Some(_) => Outcome {
            answer: Answer::Done(u32::from(size)),
            counted: Counted::Nothing,
            pool: fresh(size, client_count, cap, hand),
        },
        None => Outcome {
            answer: Refusal::OutOfRange.into(),
            counted: Counted::Nothing,
            pool: fresh(0, 0, 0, 0),
        },
    }
}

// ---- begin, step, release

/// SPECIFICATION 3.2.
pub fn begin(pool: Pool, client: u8, page: u32) -> Outcome
    ensures value { result ≡ call_of pool (Begin client page) }
    ensures among { Among by_begin (refusal_of result.answer) }
{
    checked::call_of(pool, Call::Begin(client, page))
}

/// SPECIFICATION 3.4.
pub fn release(pool: Pool, client: u8, page: u32) -> Outcome
    ensures value { result ≡ call_of pool (Release client page) }
    ensures among { Among by_release (refusal_of result.answer) }
{
    checked::call_of(pool, Call::Release(client, page))
}

// ---- a step, with the tally

/// What a step leaves: its answer, the caller's tally brought up to date, the pool.
#[derive(Clone, Copy, Debug, PartialEq, Eq)]
pub struct Stepped {
    pub answer: Answer,
    pub tally: Tally,
    pub pool: Pool,
}

/// SPECIFICATION 3.3 and 7.2, by value: crate `step` has the form that is lent the tally.
pub fn step_tallied(pool: Pool, client: u8, mut tally: Tally) -> Stepped
    ensures value { result ≡ stepped_of pool client tally }
    ensures among { Among by_step (refusal_of result.answer) }
{
    let made = checked::call_on(&pool, Call::Step(client));
    tallies::count(&mut tally, made.counted);
    Stepped {
        answer: made.answer,
        tally,
        pool: made.pool,
    }
}
