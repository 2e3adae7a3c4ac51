// A pool's books where they lie: what the pool keeps of its slots, frames, table and grants, lent by whoever has it, an owned pool or a C program's
// memory. `Books` are lent to be read, `BooksMut` to be written, too; `Parts` are books of which nothing is known yet. The clients' records are no part
// of them, since the two owners keep those in different forms. What only lends has no derives for comparing or printing, as nobody does that with what
// is lent. Internal.
#![tactic(auto)]

pub mod checked;
pub mod extent;
pub mod numbers;
pub mod parts;
pub mod reading;
pub mod search;
pub mod searches;
pub mod writing;

pub use checked::Checked;
pub use extent::Extent;
pub use numbers::Numbers;
pub use parts::Parts;
pub use reading::Books;
pub use writing::BooksMut;
