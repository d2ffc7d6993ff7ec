//! Kept names: what a server told of the names in a directory is believed while the directory didn't change.
//! A contract sees a cache as its entries, the one that was used last in front.
#![tactic(auto)]

mod cache;
mod entry;

pub use cache::NameCache;
pub use entry::{KeptName, Place};
