// The step over a lent tally (SPECIFICATION 7.2). Public, through crate `storeless`.
//
// The stages and all counting are by value, in crate `calls`. `step` only carries the tally there and back, and `step_of` is the same by value: the
// theorems of crate `tie` name both.
#![tactic(auto)]

ghost use Rattle.std.specs.Prelude.{◌≡◌};
ghost use Rattle.pool.specs.Answers.{refusal_of};
ghost use Rattle.pool.specs.Tallies.{tally_after};
ghost use Rattle.answers.specs.Among.{Among};
ghost use Rattle.answers.specs.Refusals.{by_step};
ghost use Rattle.calls.specs.Tallied.{stepped_of};
ghost use Rattle.step.specs.Answers.{answered_of};

use calls::Stepped;
use pool::{Answer, Pool, Tally};

/// What a step returns: its answer and the pool.
#[derive(Clone, Copy, Debug, PartialEq, Eq)]
pub struct Answered {
    pub answer: Answer,
    pub pool: Pool,
}

/// SPECIFICATION 3.3. A step that is turned down leaves the tally as it was lent (SPECIFICATION 3.10): so says `tally_after`.
pub fn step(pool: Pool, client: u8, tally: &mut Tally) -> Answered
    ensures value { (result ≡ answered_of pool client) × (tally.new ≡ tally_after pool client tally.old) }
    ensures among { Among by_step (refusal_of result.answer) }
{
    let stepped = calls::step_tallied(pool, client, *tally);
    *tally = stepped.tally;
    Answered {
        answer: stepped.answer,
        pool: stepped.pool,
    }
}

/// The step on a tally that this function owns, lends to `step` and hands back, so that those who call it lend nothing.
pub fn step_of(pool: Pool, client: u8, tally: Tally) -> Stepped
    ensures value { result ≡ stepped_of pool client tally }
    ensures among { Among by_step (refusal_of result.answer) }
{
    let mut lent = tally;
    let answered = step(pool, client, &mut lent);
    Stepped {
        answer: answered.answer,
        tally: lent,
        pool: answered.pool,
    }
}
