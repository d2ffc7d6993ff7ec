//! Copies a tree of files to a server, in one session.
#![tactic(auto)]

mod copying;
mod top;

pub use top::{copy, run};
