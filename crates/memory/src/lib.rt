// What the frames of a pool hold, and the pool with it: SPECIFICATION, section 13. Public, through crate `foqheran`.
//
// The pool of crate `pool` keeps its books and has no bytes. These are a layer over it: no stage reads a byte or a mark, and what an action does to
// them follows from the pool before it and from what it writes there.
#![tactic(auto)]

use pool::{Answer, FRAMES, Pool, Tally};

/// How many bytes a page has.
pub const PAGE: usize = 64;

/// The largest store, in pages.
pub const MAX_PAGES: u16 = 256;

/// How many bytes all frames of the largest pool have.
pub const BYTES: usize = FRAMES * PAGE;

/// SPECIFICATION 13.2.
#[derive(Clone, Copy, Debug, PartialEq, Eq)]
pub struct Memory {
    /// How many pages the store has that the pool was set up with; 0: it has none.
    pub pages: u16,
    /// Frame f's bytes, at 64 f, 64 f + 1 and on.
    pub bytes: [u8; BYTES],
    /// The marks: whether a frame has its page's bytes, and whether they were written since. A mark is a byte, 0 for off and anything else for on: memory
    /// that a C program lends may hold any byte here, and a Rust bool that is neither 0 nor 1 is undefined behaviour.
    pub filled: [u8; FRAMES],
    pub changed: [u8; FRAMES],
}

/// A pool and what its frames hold: SPECIFICATION 13.2.
#[derive(Clone, Copy, Debug, PartialEq, Eq)]
pub struct BufferPool {
    pub pool: Pool,
    pub memory: Memory,
}

/// What a call leaves: its answer and the pool.
#[derive(Clone, Copy, Debug, PartialEq, Eq)]
pub struct Reply {
    pub answer: Answer,
    pub pool: BufferPool,
}

/// What a step leaves: its answer, the caller's tally brought up to date, the pool.
#[derive(Clone, Copy, Debug, PartialEq, Eq)]
pub struct Tallied {
    pub answer: Answer,
    pub tally: Tally,
    pub pool: BufferPool,
}
