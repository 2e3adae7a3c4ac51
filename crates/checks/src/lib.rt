// Check 8 of a pool: SPECIFICATION, section 5, and 13.11 where it has bytes. Internal.
//
// The tests of one number or one client are in module `single`, those that compare pages in `repeats`; `whole` puts them together, and `bytes` adds what
// is asked of a pool that has bytes. The cheap tests come first. The tests of all slots, frames and table places go on to the end by `fold`, since a loop
// without a way out is turned into vector instructions: `all`, which leaves at the first that fails, took ten times as long.
#![tactic(auto)]

pub mod bytes;
pub mod repeats;
pub mod single;
pub mod whole;

pub use bytes::{Marks, check, inside, outside, outside_of, parts_sound, sound};
pub use whole::{books_ok, checked, parts_ok, valid};
