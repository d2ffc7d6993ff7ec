//! The client of NFS version 3 with scripts that are asked for: `run_with` takes them from an `Asker`, one after another. The code stands in `asked_runs`;
//! here is said what it promises.
#![tactic(auto)]

mod top;

pub use top::run_with;
