//! A file system in memory that answers the calls of NFS and MOUNT version 3 (RFC 1813) exactly as specs/ says: the
//! server of tests. It tells what a restart would leave of each file.
#![tactic(auto)]

mod dir_calls;
mod dir_changes;
mod dir_refusal;
mod directory;
mod entries;
mod export;
mod file_bytes;
mod file_calls;
mod file_refusal;
mod finding;
mod link_text;
mod mounts;
mod node;
mod nodes;
mod pages;
mod partial;
mod places;
mod placing;
mod restart;
mod row;
mod shown;
mod status;
mod tree;

pub use export::Export;
pub use mounts::handles_fit;
pub use places::handle_of;
pub use row::Row;
