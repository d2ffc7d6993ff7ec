//! What stands for an open file that is removed: a name of its own, until its last close.
#![tactic(auto)]

mod kept;
mod removal;
mod rename;

pub use kept::Silly;
pub use removal::Plan;
pub use rename::plan;
