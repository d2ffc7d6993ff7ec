//! A session of batches: scripts one after another, as an input gives them, over one set-up, one connection and one core. What it
//! shows of the files is said by the crate above, `run_batches`.
#![tactic(auto)]

mod answered;
mod lost;
mod output;
mod reading;
mod running;
mod status;
mod stop;
mod top;

pub use top::{run, run_with};
