// The tests of one number or one client. Each is the definition of its name.
//
// They ask bytes as a record has them: so a C program's memory has them, and `valid` is asked of any pool. So a frame is compared with NONE, and a stage with
// its number of SPECIFICATION 3.6. `Stage` cannot say these tests: `uses_own` of pool.specs.Valid is true of every number above 23 too, which is no stage,
// and `Stage::X.number()` is no pattern.
#![tactic(auto, unfolding(pool::specs::Valid::frame_ok, pool::specs::Valid::used_ok, pool::specs::Valid::state_ok, pool::specs::Valid::counts_ok, pool::specs::Valid::names_ok, pool::specs::Choose::both, pool::specs::Choose::either, pool::specs::Choose::choose))]

ghost use Rattle.std.specs.Prelude.{◌≡◌};
ghost use Rattle.pool.specs.Valid.{frame_ok, used_ok, state_ok, uses_own, uses_found, uses_victim, counts_ok, names_ok};

use pool::{Client, MAX_HELD, MAX_PINS, NONE};

/// No frame, or one of the pool's n, which are numbered from 0: SPECIFICATION 1.2.
pub fn frame_ok(n: u8, f: u8) -> bool
    ensures { result ≡ frame_ok n f }
{
    f == NONE || f < n
}

/// A frame's pins, which are stored one more, and its count: SPECIFICATION 5.3.
pub fn state_ok(cap: u8, pins: u8, count: u8) -> bool
    ensures { result ≡ state_ok cap pins count }
{
    pins <= MAX_PINS && count <= cap
}

/// A frame number that a client keeps: one of the pool's n where its stage uses it, else none.
fn used_ok(used: bool, n: u8, f: u8) -> bool
    ensures { result ≡ used_ok used n f }
{
    if used { f < n } else { f == NONE }
}

/// The stages that use the own frame: SPECIFICATION 5.6. A record's stage may be any number.
fn uses_own(stage: u8) -> bool
    ensures { result ≡ uses_own stage }
{
    stage >= 5 && stage != 21
}

/// The stages that use the found frame.
fn uses_found(stage: u8) -> bool
    ensures { result ≡ uses_found stage }
{
    matches!(stage, 2 | 3 | 19..=22)
}

/// The stages that use the victim.
fn uses_victim(stage: u8) -> bool
    ensures { result ≡ uses_victim stage }
{
    matches!(stage, 12..=17)
}

/// SPECIFICATION 5.5.
pub fn counts_ok(client: &Client, size: u8) -> bool
    ensures { result ≡ counts_ok client.now size }
{
    client.stage <= 23
        && client.held <= MAX_HELD
        && client.place < size
        && client.busy < size
        && client.seen <= size
}

/// The frames that a client remembers are the pool's, and there where its stage uses them: SPECIFICATION 5.6.
pub fn names_ok(client: &Client, n: u8) -> bool
    ensures { result ≡ names_ok client.now n }
{
    used_ok(uses_own(client.stage), n, client.own)
        && used_ok(uses_found(client.stage), n, client.found)
        && used_ok(uses_victim(client.stage), n, client.victim)
}
