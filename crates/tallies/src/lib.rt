// The tally of what steps did, brought up to date by what an action is counted as. Internal.
#![tactic(auto)]

ghost use Rattle.std.specs.Prelude.{◌≡◌};
ghost use Rattle.pool.specs.Tallies.{tallied};

use pool::{Counted, Tally};

/// SPECIFICATION 7.1. What an action is counted as is said where it is decided, in crate `actions`. A count that went on past its largest value would
/// start again from 0, so it stays there.
#[tactic(auto, unfolding(pool::specs::Tallies::tallied, pool::specs::Tallies::up, pool::specs::Choose::choose))]
pub fn count(tally: &mut Tally, counted: Counted)
    ensures { tally.new ≡ tallied counted tally.old }
{
    match counted {
        Counted::Nothing => {}
        Counted::Hit => tally.hits = tally.hits.saturating_add(1),
        Counted::Join => tally.joins = tally.joins.saturating_add(1),
        Counted::Admitted => tally.admitted = tally.admitted.saturating_add(1),
        Counted::Revived => tally.revived = tally.revived.saturating_add(1),
        Counted::Drop => tally.drops = tally.drops.saturating_add(1),
        Counted::Refusal => tally.refused = tally.refused.saturating_add(1),
    }
}
