//! The client of NFS version 3 with batches. `run` takes scripts one after another from an input, and a link to a server. It answers
//! each operation and each batch, and ends in a status. The code stands in `batch_runs`; here is said what it promises.
#![tactic(auto)]

mod top;

pub use top::{run, run_with};
