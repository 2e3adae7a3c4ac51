// Answers, refusals and stages by their names, and the numbers that the world outside has for them. Each function equals the definition of its name in
// crate `pool`, `specs/Answers.antt`; `caller` the one in `specs/Calls.antt`. Internal; crate `foqheran` hands `code_of`, `value_of` and `refusal_of` on.
#![tactic(auto, unfolding(pool::specs::Answers::code_of, pool::specs::Answers::value_of, pool::specs::Answers::refusal_of, pool::specs::Answers::unread_of, pool::specs::Calls::caller))]

ghost use Rattle.std.specs.Prelude.{◌≡◌, ◌≤◌};
ghost use Rattle.pool.specs.Answers.{code_of, value_of, refusal_of, unread_of};
ghost use Rattle.pool.specs.Calls.{caller};

use pool::{Answer, Call, Reading};

pub mod refusal;
pub mod stage;

pub use refusal::Refusal;
pub use stage::Stage;

/// SPECIFICATION 3.6. A refusal number is a byte, which bounds the code.
pub fn code_of(a: Answer) -> u32
    ensures code { result ≡ code_of a }
    ensures bound { result ≤ 355 }
{
    match a {
        Answer::Done(_) => 0,
        Answer::Working(_) => 1,
        Answer::Granted(_) => 2,
        Answer::Refused(n) => 100 + u32::from(n),
    }
}

/// SPECIFICATION 3.6.
pub fn value_of(a: Answer) -> u32
    ensures { result ≡ value_of a }
{
    match a {
        Answer::Done(n) => n,
        Answer::Working(stage) => u32::from(stage),
        Answer::Granted(frame) => u32::from(frame),
        Answer::Refused(_) => 0,
    }
}

/// The refusal number of an answer, 0 for one that is no refusal. A number and no option: the calls' promises list by which numbers they can be refused
/// (`Among`), and a handed answer may have any.
pub fn refusal_of(a: Answer) -> u8
    ensures { result ≡ refusal_of a }
{
    match a {
        Answer::Refused(n) => n,
        Answer::Done(_) => 0,
        Answer::Working(_) => 0,
        Answer::Granted(_) => 0,
    }
}

/// The refusal by which a record cannot be read, 0 for one that is read whole. A number, as `refusal_of`.
pub fn unread_of(r: Reading) -> u8
    ensures { result ≡ unread_of r }
{
    match r {
        Reading::Unreadable(n) => n,
        Reading::Setup(..) | Reading::Asked(_) => 0,
    }
}

/// The client that a call names.
pub fn caller(call: Call) -> u8
    ensures { result ≡ caller call }
{
    match call {
        Call::Begin(c, _) | Call::Step(c) | Call::Release(c, _) => c,
    }
}
