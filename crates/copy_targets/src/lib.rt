//! Where a tree of files is copied to, as a trait: folders, links and files are given to it one after another. Code that is written against it is proved for
//! every implementation. Beside it stands one in memory.
#![tactic(auto)]

mod mem_target;
mod target;
mod why;

pub use mem_target::{FileSize, MemTarget, Refusal};
pub use target::{Target, Took};
pub use why::Why;
