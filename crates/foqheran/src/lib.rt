// Foqheran, a page buffer pool whose every answer is proved. Public: the one crate that a user of the pool names. It only hands on; each call is
// promised and proved in the crate that it comes from.
//
// A pool keeps what it lends: its frames hold pages' bytes, and a store has those that are in no frame. A pool that is set up with an empty store has
// none. For pools that never need one, crate `storeless` has the same calls on the books alone, smaller and faster.
#![tactic(auto)]

// ---- the calls, in the order of a pool's life; each takes any input whatever
pub use buffered::{begin, release, setup};
pub use byte_calls::{read, write};
pub use byte_holdings::holdings;
pub use byte_lent::step;

// The step with the tally, and holdings with the list, handed over and back by value.
pub use byte_holdings::holdings_on;
pub use byte_step::step_tallied;

// A whole schedule file, and its report.
pub use schedule::run;

// An answer in numbers: its code and value, as a line of a report has them, and its refusal number.
pub use answers::{code_of, refusal_of, value_of};

// ---- what the calls return, and what they are lent
pub use memory::{BufferPool, Memory, Reply, Tallied};
pub use pool::{Answer, Client, Ended, Listed, Pool, Row, Tally};

// ---- the largest pool and store, the bytes of a page, the index pages, and the number that names no frame
pub use memory::{MAX_PAGES, PAGE};
pub use pool::{HELD, INDEX_COUNT, INDEX_PAGES, MAX_CAP, MAX_CLIENTS, MAX_HELD, MAX_SIZE, NONE};
