//! A session whose scripts are made as it goes on: the next one by what was answered to the one before. One set-up, one connection and one core serve all of
//! them. What it shows of the files is said by the crates above.
#![tactic(auto)]

mod asker;
mod running;
mod status;
mod top;

pub use asker::Asker;
pub use top::run_with;
