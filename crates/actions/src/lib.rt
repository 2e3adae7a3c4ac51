// What a client's next action does: the 23 stages, the moves that they share, and the dispatch by the stage at which the client stands. Internal.
#![tactic(auto)]

pub mod actor;
pub mod dispatch;
pub mod moves;
pub mod stages;

pub use actor::{Actor, View};
