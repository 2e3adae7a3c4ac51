// A step of a pool that has bytes, with the tally by value and the store lent (SPECIFICATION 13.4 to 13.8). It takes any pool, client, tally and store,
// and its promise says what it answers and what it leaves, whole. Crate `byte_lent` has the form that is lent the tally, too. Public, through crate
// `foqheran`. Both stay, since the theorems of crate `byte_tie` name them.
#![tactic(auto)]

ghost use Rattle.std.specs.Prelude.{◌≡◌};
ghost use Rattle.pool.specs.Answers.{refusal_of};
ghost use Rattle.pool.specs.declared.Call.TheVariants.{Step};
ghost use Rattle.answers.specs.Among.{Among};
ghost use Rattle.answers.specs.Refusals.{by_step};
ghost use Rattle.memory.specs.Requests.{Asks, call_on, state_of, tallying};
ghost use Rattle.byte_step.specs.Steps.{left};

use answers::Refusal;
use content::Content;
use memory::{BufferPool, PAGE, Tallied};
use pool::{Answer, Call, Counted, Tally};

/// What a step does to the pool and the store. Its effect on store and bytes comes after the pool's own call, which no other call can come between.
fn step(pool: &mut BufferPool, client: u8, store: &mut [u8]) -> Result<(Answer, Counted), Refusal>
    ensures { left result pool.new store.new ≡ call_on (state_of pool.old store.old) (Asks (Step client)) }
{
    let checked = checks::sound(pool)?;
    let pages = pool.memory.pages;
    let as_long = store.len() == PAGE * usize::from(pages);
    if !as_long {
        return Err(Refusal::OutOfRange);
    }
    let made = checked::call_made(&checked, Call::Step(client));
    let entry = content::replaced(&pool.pool.table_frames, checked.numbers.total(), made.write);
    pool.pool = made.pool;
    let mut content = Content {
        pages,
        bytes: &mut pool.memory.bytes,
        filled: &mut pool.memory.filled,
        changed: &mut pool.memory.changed,
    };
    content.follow(store, entry, made.write);
    Ok((made.answer, made.counted))
}

/// SPECIFICATION 13.5.
#[tactic(auto, unfolding(pool::specs::Tallies::tallied))]
pub fn step_tallied(mut pool: BufferPool, client: u8, mut tally: Tally, store: &mut [u8]) -> Tallied
    ensures value { (result ≡ tallying tally (call_on (state_of pool store.old) (Asks (Step client))))
        × (store.new ≡ (call_on (state_of pool store.old) (Asks (Step client))).state.store) }
    ensures among { Among by_step (refusal_of result.answer) }
{
    let answer = match step(&mut pool, client, store) {
        Ok((answer, counted)) => {
            tallies::count(&mut tally, counted);
            answer
        }
        Err(refusal) => refusal.into(),
    };
    Tallied {
        answer,
        tally,
        pool,
    }
}
