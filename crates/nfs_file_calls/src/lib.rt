//! The calls and replies of NFS version 3 on files (RFC 1813, section 3.3), and how they stand in XDR (RFC 4506).
#![tactic(auto)]

mod attributes;
mod call;
mod file_system;
mod owned;
mod read_back;
mod reply;
mod transfer;

pub use call::{FileCall, file_proc, is_file_proc, read_file_call, write_file_call};
pub use owned::{FileKept, kept};
pub use read_back::{file_call_read_back, file_reply_read_back};
pub use reply::{FileReply, read_file_reply, write_file_reply};
