// What the test programs share: a pool with the one tally that is lent to every step, how answers and lists are printed, and how the largest pool is
// filled. It lends through `storeless::step_of` and `holdings::on_first`, which own what they lend. Internal.
#![tactic(auto)]

ghost use Rattle.std.specs.Prelude.{◌≤◌};
ghost use Rattle.pool.specs.Limits.{max_held};

use std::fmt;
use storeless::{Answer, HELD, Listed, Pool, Row, Tally};

/// A row that says nothing: page 77, seven times. Lists are asked for on such rows, so that it is seen which are filled (SPECIFICATION 8.2).
const FILLER: Row = Row { page: 77, times: 7 };

/// The pool, and the one tally that is lent to every step.
#[derive(Clone, Copy, Debug, PartialEq, Eq)]
pub struct State {
    pub pool: Pool,
    pub tally: Tally,
}

impl State {
    /// A pool, and a tally that has counted nothing.
    pub fn new(pool: Pool) -> State {
        State {
            pool,
            tally: Tally::default(),
        }
    }

    /// The pool that a setup with these numbers leaves.
    pub fn set_up(size: u8, client_count: u8, cap: u8, hand: u32) -> State {
        State::new(storeless::setup(size, client_count, cap, hand).pool)
    }

    pub fn begin(&mut self, client: u8, page: u32) {
        self.pool = storeless::begin(self.pool, client, page).pool;
    }

    pub fn release(&mut self, client: u8, page: u32) {
        self.pool = storeless::release(self.pool, client, page).pool;
    }

    pub fn step(&mut self, client: u8) {
        let stepped = storeless::step_of(self.pool, client, self.tally);
        self.pool = stepped.pool;
        self.tally = stepped.tally;
    }

    pub fn steps(&mut self, client: u8, n: u8) {
        for _ in 0..n {
            self.step(client);
        }
    }

    /// A begin, and so many steps.
    pub fn request(&mut self, client: u8, page: u32, n: u8) {
        self.begin(client, page);
        self.steps(client, n);
    }

    /// The client's holdings on eight rows that say nothing.
    pub fn holdings(&self, client: u8) -> Listed {
        storeless::holdings_on(self.pool, client, [FILLER; HELD])
    }

    /// The client's holdings on the first `room` of such rows.
    pub fn holdings_on_first(&self, client: u8, room: usize) -> Listed
        requires { room ≤ max_held }
    {
        holdings::on_first(self.pool, client, [FILLER; HELD], room)
    }
}

/// An answer as it is printed: its code and value (SPECIFICATION 3.6).
#[derive(Clone, Copy)]
pub struct Shown(pub Answer);

impl fmt::Display for Shown {
    fn fmt<W: fmt::Write>(&self, f: &mut fmt::Formatter<W>) -> fmt::Result {
        let code = storeless::code_of(self.0);
        let value = storeless::value_of(self.0);
        write!(f, "{code} {value}")
    }
}

/// A list as it is printed: its answer, and its rows, a page and its times each.
#[derive(Clone, Copy)]
pub struct ShownList(pub Listed);

impl fmt::Display for ShownList {
    fn fmt<W: fmt::Write>(&self, f: &mut fmt::Formatter<W>) -> fmt::Result {
        write!(f, "{}", Shown(self.0.answer))?;
        for row in &self.0.rows {
            write!(f, " {} {}", row.page, row.times)?;
        }
        Ok(())
    }
}

/// Has each of 64 pages requested, as many as the largest pool has slots, by the 16 clients in turn: each keeps four of them.
pub fn fill<F: FnMut(u8, u32)>(mut request: F)
    requires { F.IsAlwaysCallable request }
{
    for page in 0..64u8 {
        request(page % 16, u32::from(page));
    }
}
