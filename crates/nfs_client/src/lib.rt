//! The client of NFS version 3: `run` takes a script of file operations and a link to a server, answers each operation
//! and ends in a status. The code stands in `script_runs`; here is said what it promises.
#![tactic(auto)]

mod top;

pub use script_runs::Stock;
pub use top::{run, run_stocked, run_with};
