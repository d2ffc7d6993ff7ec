//! The calls of NFS version 3 on directories and names, and their replies (RFC 1813, section 3.3), as they stand
//! in XDR.
#![tactic(auto)]

mod call;
mod changed;
mod create;
mod dir_page;
mod failure;
mod keeping;
mod link;
mod listed_name;
mod lookup;
mod mkdir;
mod mknod;
mod new_object;
mod opt_handle;
mod place;
mod plus_page;
mod readdir;
mod readdirplus;
mod readlink;
mod remove;
mod rename;
mod reply;
mod rmdir;
mod symlink;

pub use call::{DirCall, dir_proc, is_dir_proc, read_dir_call, write_dir_call};
pub use create::Making;
pub use dir_page::{DirEntry, DirPage, DirRow, DirRows, write_dir_entry};
pub use keeping::{DirKept, kept};
pub use mknod::Node;
pub use plus_page::{PlusEntry, PlusPage, PlusRow, PlusRows, write_plus_entry};
pub use reply::{DirReply, read_dir_reply, write_dir_reply};
