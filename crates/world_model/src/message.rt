//! The calls of the protocols and their replies.

use mount_calls::{MountCall, MountReply};
use nfs_dir_calls::{DirCall, DirKept};
use nfs_file_calls::{FileCall, FileKept};

/// A call of NFS version 3 or of MOUNT version 3 (RFC 1813).
#[derive(Debug, Drop)]
pub enum Call {
    /// A call on a file.
    File(FileCall),
    /// A call on a directory.
    Dir(DirCall),
    /// A call of MOUNT.
    Mount(MountCall),
}

/// A reply to a call.
#[derive(Debug, Drop)]
pub enum Reply {
    /// The reply to a call on a file.
    File(FileKept),
    /// The reply to a call on a directory.
    Dir(DirKept),
    /// The reply to a call of MOUNT.
    Mount(MountReply),
}
