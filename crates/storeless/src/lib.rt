// The calls of a pool without bytes: it says who has which frame, and what the frames hold is its caller's. Public; it only hands on, and each call is
// promised and proved in the crate that it comes from. Crate `foqheran` has the calls of a pool that keeps its pages' bytes.
#![tactic(auto)]

// ---- the calls, in the order of a pool's life; each takes any input whatever
pub use calls::{begin, release, setup};
pub use holdings::holdings;
pub use step::step;

// The same two with what they are lent handed over and back by value.
pub use holdings::{holdings_of, holdings_on};
pub use step::step_of;

// A whole schedule file, and its report.
pub use schedule::run;

// An answer in numbers: its code and value, as a line of a report has them, and its refusal number.
pub use answers::{code_of, refusal_of, value_of};

// ---- what the calls return, and what they are lent
pub use calls::Stepped;
pub use pool::{Answer, Client, Counted, Ended, Listed, Outcome, Pool, Row, Tally};
pub use step::Answered;

// ---- the largest pool, the index pages, and the number that names no frame
pub use pool::{HELD, INDEX_COUNT, INDEX_PAGES, MAX_CAP, MAX_CLIENTS, MAX_HELD, MAX_SIZE, NONE};
