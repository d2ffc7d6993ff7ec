//! Copies a tree of files from a server, or compares it with one, in one session.
#![tactic(auto)]

mod fetching;
mod top;

pub use top::{fetch, run};
