//! Folders and files of the system as what a tree is copied to, or compared with.
#![tactic(auto)]

mod comparing;
mod places;
mod target;
mod writing;

pub use comparing::DiskCheck;
pub use target::DiskTarget;
