//! Two scripts, run by two clients over one link with two ends. The clients take turns: each settles its lanes and exchanges records once.
#![tactic(auto)]

mod client;
mod settings;
mod start;
mod status;
mod top;
mod turns;

pub use top::run_pair;
