//! The client over a script that is made by a rule: `run_made` runs it, and writes one line on what came of it.
#![tactic(auto)]

mod output;
mod status;
mod top;

pub use top::run_made;
