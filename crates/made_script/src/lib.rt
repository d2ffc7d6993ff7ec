//! Scripts that are made by a rule, for runs of any length without a file, and what comes of a run's answers in one line.
#![tactic(auto)]

mod answers;
mod numbers;
mod script;

pub use answers::summary;
pub use script::made;
