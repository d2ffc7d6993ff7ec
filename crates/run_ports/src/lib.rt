//! A session whose ports a port mapper tells: `run_found` takes the port mapper out of the words, asks it for the ports of MOUNT
//! and NFS, and runs the client with them.
#![tactic(auto)]

mod output;
mod reason;
mod status;
mod top;

pub use top::run_found;
