//! The client over a simulated server. `replay` runs a script over the world that a schedule begins, and `replay_batches` runs batches
//! over it. `replay_made` runs a script that is made by a rule over a server without a file.
#![tactic(auto)]

mod batches;
mod made;
mod top;

pub use batches::replay_batches;
pub use made::replay_made;
pub use top::replay;
