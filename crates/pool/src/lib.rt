// The types of docs/SPECIFICATION.md: the pool's state, the parts of one atomic action on it, and what calls and runs are lent and return. Public,
// through crates `foqheran` and `storeless`: the types of the calls and the limits. The parts of an action are internal.
//
// S, T and C are the pool's `size`, `client_count` and `cap`. A frame number, a place in the table or a grant's place that is NONE names nothing.
// Every array is as long as the largest pool needs; what stands past the part that a pool has is never looked at.
#![tactic(auto)]

/// No frame; no place.
pub const NONE: u8 = 255;

/// Pins are stored as one more than they are, so that no number is negative: these are -1, 0 and 1.
pub const EVICTED: u8 = 0;

pub const NO_PIN: u8 = 1;

pub const ONE_PIN: u8 = 2;

/// The largest pool: its slots, its clients, the count cap; the grants that one client can hold; a frame's pins, as they are stored.
pub const MAX_SIZE: u8 = 64;

pub const MAX_CLIENTS: u8 = 16;

pub const MAX_CAP: u8 = 100;

pub const MAX_HELD: u8 = 8;

pub const MAX_PINS: u8 = NO_PIN + MAX_CLIENTS * MAX_HELD;

/// SPECIFICATION 4.31: how many pages the index has, from page 0 on; the count that they start with, where C allows it.
pub const INDEX_PAGES: u32 = 4;

pub const INDEX_COUNT: u8 = 3;

/// How long the arrays are, by what they are over. HELD is one client's part of the grants.
pub const SLOTS: usize = MAX_SIZE as usize;

pub const CLIENTS: usize = MAX_CLIENTS as usize;

pub const FRAMES: usize = SLOTS + 2 * CLIENTS;

pub const HELD: usize = MAX_HELD as usize;

pub const GRANTS: usize = CLIENTS * HELD;

/// One client (a thread, in the published method): SPECIFICATION 2.1, 2.4. Its grants stand in the pool's `grant_pages` and `grant_frames`.
#[derive(Clone, Copy, Debug, PartialEq, Eq)]
pub struct Client {
    /// The stage it stands at, 1 to 23; 0 where it rests.
    pub stage: u8,
    /// The page it wants.
    pub page: u32,
    /// The frame it took at stage 4, until it is granted or given up, or NONE.
    pub own: u8,
    /// The frame that its last look-up of the page found, or NONE.
    pub found: u8,
    /// The frame that its sweep looks at, or NONE.
    pub victim: u8,
    /// The value of free that stage 5 read, 0 to S.
    pub seen: u8,
    /// A slot number, 0 to S - 1: where it tries to put its own frame, or where its sweep is.
    pub place: u8,
    /// The hand as stage 10 read it.
    pub start: u32,
    /// The busy run, 0 to S - 1.
    pub busy: u8,
    /// How many grants it holds, 0 to 8.
    pub held: u8,
}

/// SPECIFICATION, section 1.
#[derive(Clone, Copy, Debug, PartialEq, Eq)]
pub struct Pool {
    /// S, T and C: SPECIFICATION 1.1.
    pub size: u8,
    pub client_count: u8,
    pub cap: u8,
    /// Not reduced modulo S: SPECIFICATION 1.5.
    pub hand: u32,
    /// How many slots are left to be claimed: SPECIFICATION 1.4.
    pub free: u8,
    /// The frame taken last, NONE at first: SPECIFICATION 1.10.
    pub last: u8,
    /// The frame that each slot names, or NONE: the first S.
    pub slots: [u8; SLOTS],
    /// Each frame's page, its pins as they are stored (0 is evicted, 1 is no pin, 129 is 128 pins) and its reference count: the first S + 2T of each.
    pub pages: [u32; FRAMES],
    pub pins: [u8; FRAMES],
    pub counts: [u8; FRAMES],
    /// The table: at each of its first S + 2T places a page and the frame that the page is mapped to. A place whose frame is NONE is unused.
    pub table_pages: [u32; FRAMES],
    pub table_frames: [u8; FRAMES],
    /// The clients: the first T.
    pub clients: [Client; CLIENTS],
    /// Client c's grants, a page and a frame each, at 8c, 8c + 1 and on: as many as it holds.
    pub grant_pages: [u32; GRANTS],
    pub grant_frames: [u8; GRANTS],
}

/// What is asked of a pool that is set up: SPECIFICATION 3.2 to 3.4.
#[derive(Clone, Copy, Debug, PartialEq, Eq)]
pub enum Call {
    /// Client and page.
    Begin(u8, u32),
    /// Client.
    Step(u8),
    /// Client and page.
    Release(u8, u32),
}

/// SPECIFICATION 3.6.
#[derive(Clone, Copy, Debug, PartialEq, Eq)]
pub enum Answer {
    /// The call is done: the page, or S for a setup, or how many rows a holdings list has.
    Done(u32),
    /// The client still works: the stage it now stands at.
    Working(u8),
    /// The request is granted: the frame.
    Granted(u8),
    /// The number of the refusal: SPECIFICATION, section 6.
    Refused(u8),
}

/// The one change that an action makes to what the clients share: SPECIFICATION 1.9.
#[derive(Clone, Copy, Debug, PartialEq, Eq)]
pub enum Write {
    Keep,
    /// Slot, frame.
    PutSlot(u8, u8),
    /// Frame, pins as they are stored.
    PutPins(u8, u8),
    /// Frame, count.
    PutCount(u8, u8),
    /// Frame, and the page, pins as they are stored and count that it gets; it is the one last taken.
    TakeFrame(u8, u32, u8, u8),
    /// Place in the table, page, frame; NONE empties the place.
    PutEntry(u8, u32, u8),
    PutHand(u32),
    PutFree(u8),
}

/// What an action does to the acting client's grants.
#[derive(Clone, Copy, Debug, PartialEq, Eq)]
pub enum GrantChange {
    Same,
    /// Place, page, frame of one more grant.
    Open(u8, u32, u8),
    /// Place of the grant that ends, place of the last one, which moves there.
    End(u8, u8),
}

/// What the tally counts an action as: SPECIFICATION 7.1.
#[derive(Clone, Copy, Debug, PartialEq, Eq)]
pub enum Counted {
    Nothing,
    Hit,
    Join,
    Admitted,
    Revived,
    Drop,
    Refusal,
}

/// One atomic action of a client: SPECIFICATION 1.9.
#[derive(Clone, Copy, Debug, PartialEq, Eq)]
pub struct Move {
    pub next: Client,
    pub grants: GrantChange,
    pub write: Write,
    pub answer: Answer,
    pub counted: Counted,
}

/// What a call leaves.
#[derive(Clone, Copy, Debug, PartialEq, Eq)]
pub struct Outcome {
    pub answer: Answer,
    pub counted: Counted,
    pub pool: Pool,
}

/// What a caller's steps came to: SPECIFICATION 7.1.
#[derive(Clone, Copy, Debug, Default, PartialEq, Eq)]
pub struct Tally {
    pub hits: u32,
    pub joins: u32,
    pub admitted: u32,
    pub revived: u32,
    pub drops: u32,
    pub refused: u32,
}

/// One row of a holdings list: SPECIFICATION 8.1.
#[derive(Clone, Copy, Debug, Default, PartialEq, Eq)]
pub struct Row {
    pub page: u32,
    pub times: u8,
}

/// What holdings leaves, its answer and the caller's list: SPECIFICATION 8.2. A list by value has eight rows, which are enough for every client.
#[derive(Clone, Copy, Debug, PartialEq, Eq)]
pub struct Listed {
    pub answer: Answer,
    pub rows: [Row; HELD],
}

/// What the reader makes of the bytes at the start of a record: SPECIFICATION 9.2.
#[derive(Clone, Copy, Debug, PartialEq, Eq)]
pub enum Reading {
    /// S, T, C, hand.
    Setup(u8, u8, u8, u32),
    Asked(Call),
    /// The refusal that ends the run.
    Unreadable(u8),
}

/// How a run of a schedule ended: SPECIFICATION 10.4.
#[derive(Clone, Copy, Debug, PartialEq, Eq)]
pub struct Ended {
    /// How many records did not end it.
    pub records: u32,
    /// How many bytes of the report space were written.
    pub bytes: usize,
    /// The refusal that ended it, or 0.
    pub refusal: u8,
}
