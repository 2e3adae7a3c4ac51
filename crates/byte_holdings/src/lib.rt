// Holdings of a pool that has bytes (SPECIFICATION 8.2, 13.11): those of the pool, after a check 8 that looks at the bytes, too. Public, through crate
// `foqheran`.
//
// The second clause of each public promise lists by which refusals the call can be refused; 0 is no refusal. The forms by value stay, since the theorems
// of crate `byte_tie` name them.
#![tactic(auto, unfolding(pool::specs::Answers::refusal_of))]

ghost use Rattle.std.specs.Prelude.{◌≡◌, List, ℕ, ◌≤◌, take, IfOk, IfErr};
ghost use Rattle.pool.specs.Limits.{max_held};
ghost use Rattle.pool.specs.Answers.{refusal_of};
ghost use Rattle.pool.specs.Holdings.{listed, holdings_of};
ghost use Rattle.pool.specs.declared.Row.{Row};
ghost use Rattle.pool.specs.declared.Answer.TheVariants.{Refused};
ghost use Rattle.answers.specs.Among.{Among};
ghost use Rattle.answers.specs.declared.refusal.Refusal.TheVariants.{OutOfRange};
ghost use Rattle.answers.specs.Refusals.{by_holdings};
ghost use Rattle.holdings.specs.First.{on_first};
ghost use Rattle.memory.specs.Requests.{holdings_on};

use answers::Refusal;
use memory::BufferPool;
use pool::{Answer, HELD, Listed, Pool, Row};

/// The pool within, where it and its bytes pass check 8.
fn books(pool: BufferPool) -> Result<Pool, Refusal>
    ensures found { IfOk result (λ books. (client : ℕ) (rows : List Row) → holdings_of books client rows ≡ holdings_on pool client rows) }
    ensures refusal { IfErr result (λ refusal. refusal ≡ OutOfRange) }
    ensures refused { IfErr result (λ refusal. (client : ℕ) (rows : List Row) → listed (Refused 8) rows ≡ holdings_on pool client rows) }
{
    checks::sound(&pool)?;
    Ok(pool.pool)
}

/// SPECIFICATION 8.2, 13.11. Where the call is turned down the list stays as it was.
pub fn holdings(pool: BufferPool, client: u8, rows: &mut [Row]) -> Answer
    ensures rows_after { listed result rows.new ≡ holdings_on pool client rows.old }
    ensures among { Among by_holdings (refusal_of result) }
{
    match books(pool) {
        Ok(books) => holdings::holdings(books, client, rows),
        Err(refusal) => refusal.into(),
    }
}

/// Holdings over eight rows by value, which are enough for every client.
pub fn holdings_on(pool: BufferPool, client: u8, start: [Row; HELD]) -> Listed
    ensures value { result ≡ holdings_on pool client start }
    ensures among { Among by_holdings (refusal_of result.answer) }
{
    on_first(pool, client, start, HELD)
}

/// Holdings over the first `room` rows of a list that is handed over and back, as `holdings::on_first`: for programs that lend nothing. Internal.
pub fn on_first(pool: BufferPool, client: u8, start: [Row; HELD], room: usize) -> Listed
    requires { room ≤ max_held }
    ensures value { result ≡ on_first room start (holdings_on pool client (take room start)) }
    ensures among { Among by_holdings (refusal_of result.answer) }
{
    match books(pool) {
        Ok(books) => holdings::on_first(books, client, start, room),
        Err(refusal) => Listed {
            answer: refusal.into(),
            rows: start,
        },
    }
}
