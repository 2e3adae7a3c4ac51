// A call in place: on a pool that its owner, a program in another language, keeps in numbers and arrays and lends (SPECIFICATION, section 14). Nothing is
// asked of what stands there: the few numbers that the action relies on are tested, and where one is out of range the call is refused by 8 and changes
// nothing. The whole check 8 is not made. Internal: crate `served` has the calls by name.
#![tactic(auto)]

pub mod acting;
mod duties;
mod fitting;

pub use acting::{Acted, act};
pub use duties::duty;
