// What the frames of a pool hold, lent, and the store beside them: what an action does to bytes, marks and store, by what it writes to the pool; a frame
// filled from its page; one byte read or written; the numbers of a store, and of a byte in it. SPECIFICATION 13.1, 13.6 to 13.10. Internal.
#![tactic(auto, unfolding(crate::specs::Effects::replaced_in, crate::specs::Effects::store_in, crate::specs::Effects::saved_in, crate::specs::Effects::bytes_after, crate::specs::Effects::bytes_moved, crate::specs::Effects::marks_after, crate::specs::Effects::cleared, crate::specs::Effects::marks_moved, crate::specs::Filling::wanted, crate::specs::Filling::bytes_filled, crate::specs::Filling::marks_filled, crate::specs::Filling::byte_in, crate::specs::Filling::bytes_written, crate::specs::Filling::marks_written, memory::specs::Memory::is_frame, memory::specs::Memory::mark, memory::specs::Requests::length_ok, memory::specs::Requests::byte_refusal, pool::specs::State::within, pool::specs::Choose::choose, pool::specs::Choose::both))]

pub mod lent;
pub mod pages;
pub mod store;

pub use lent::{Content, Frames, marked, replaced};
pub use store::{outside, pages_of};
