//! The scripts that copy a tree of files to a server, one after another: each by what the tree gives, and by what was answered to the one before.
#![tactic(auto)]

mod answers;
mod owners;
mod paths;
mod telling;
mod upload;

pub use paths::{below, server_path};
pub use telling::{Progress, Teller};
pub use upload::{Sent, Upload};
