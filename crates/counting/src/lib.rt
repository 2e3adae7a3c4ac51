// A caller's tally that is six numbers in an array, brought up to date where it lies (SPECIFICATION 14.3): so C programs
// keep it, and it is no `Tally` that crate `tallies` could count. Internal.
#![tactic(auto, unfolding(pool::specs::Tallies::tallied, pool::specs::Tallies::up, pool::specs::Choose::choose))]

ghost use Rattle.std.specs.Prelude.{◌≡◌, ◌<◌, unwrap_or, IfSome};
ghost use Rattle.pool.specs.Tallies.{tallied};
ghost use Rattle.counting.specs.Counts.{counts, tally_from, place_of};

use pool::Counted;

/// How many numbers a tally has.
pub const COUNTS: usize = 6;

/// The place of the number that an action counted so takes up by one.
#[tactic(auto, unfolding(crate::specs::Counts::place_of))]
fn place_of(counted: Counted) -> Option<usize>
    ensures place { unwrap_or result counts ≡ place_of counted }
    ensures bound { IfSome result (λ i. i < counts) }
{
    Some(match counted {
        Counted::Hit => 0,
        Counted::Join => 1,
        Counted::Admitted => 2,
        Counted::Revived => 3,
        Counted::Drop => 4,
        Counted::Refusal => 5,
        Counted::Nothing => return None,
    })
}

/// SPECIFICATION 7.1, 14.3.
pub fn count(tally: &mut [u32; COUNTS], counted: Counted)
    ensures { tally_from tally.new ≡ tallied counted (tally_from tally.old) }
{
    if let Some(i) = place_of(counted) {
        tally[i] = tally[i].saturating_add(1);
    }
}
