//! The calls and replies of MOUNT version 3 (RFC 1813, appendix I), and how they stand in XDR (RFC 4506).
#![tactic(auto)]

mod call;
mod exports;
mod flavors;
mod keep;
mod reply;
mod text;

pub use call::{MountCall, is_mount_proc, mount_proc, read_mount_call, write_mount_call};
pub use exports::{ExportList, ExportRow, Groups};
pub use flavors::Flavors;
pub use reply::{MountReply, read_mount_reply, write_mount_reply};
