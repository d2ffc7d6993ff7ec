//! A folder or a file of the system as a tree of files.
#![tactic(auto)]

mod listing;
mod opened;
mod tree;
mod unread;

pub use listing::Listing;
pub use tree::DiskTree;
