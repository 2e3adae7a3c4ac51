// The step of a pool that has bytes, over a lent tally and a lent store (SPECIFICATION 7.2, 13.4). Public, through crate `foqheran`.
//
// All decisions are in crate `byte_step`, with the tally by value. `step` only carries the tally there and back and hands the store on.
#![tactic(auto)]

ghost use Rattle.std.specs.Prelude.{◌≡◌};
ghost use Rattle.pool.specs.Answers.{refusal_of};
ghost use Rattle.answers.specs.Among.{Among};
ghost use Rattle.answers.specs.Refusals.{by_step};
ghost use Rattle.byte_lent.specs.Lent.{step_on, tally_on, store_on};

use memory::{BufferPool, Reply};
use pool::Tally;

/// SPECIFICATION 13.5: its reply, and what it leaves of the tally and of the store, whole.
pub fn step(pool: BufferPool, client: u8, tally: &mut Tally, store: &mut [u8]) -> Reply
    ensures value { (result ≡ step_on pool client store.old)
        × (tally.new ≡ tally_on pool client store.old tally.old)
        × (store.new ≡ store_on pool client store.old) }
    ensures among { Among by_step (refusal_of result.answer) }
{
    let stepped = byte_step::step_tallied(pool, client, *tally, store);
    *tally = stepped.tally;
    Reply {
        answer: stepped.answer,
        pool: stepped.pool,
    }
}
