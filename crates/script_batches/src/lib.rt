//! The batches of an input: scripts one after another, each ended by a line whose only word is `go`.
#![tactic(auto)]

mod held;
mod input;
mod lines;

pub use held::ReadFault;
pub use input::{Batch, Batches};
