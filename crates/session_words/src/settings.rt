//! What a command line asks for.

use attr_cache::Lives;
use nfs_types::Handle;
use rpc_message::Cred;
use xdr_codec::Blob;

/// What the client works on.
#[derive(Debug, Drop)]
pub enum Export {
    /// The export of this path: UTF-8 text of 1 to 1,024 bytes. It has to be mounted.
    Path(Blob),
    /// The directory of this file handle, which is the root without a mount: 1 to 64 bytes.
    Root(Handle),
}

/// The settings of a session.
#[derive(Debug, Drop)]
pub struct Settings {
    /// What the client works on.
    pub export: Export,
    /// The port of MOUNT.
    pub mount_port: u16,
    /// The port of NFS.
    pub nfs_port: u16,
    /// As whom calls are made.
    pub cred: Cred,
    /// The most bytes that a READ asks for.
    pub rsize: u32,
    /// The most bytes that a WRITE takes.
    pub wsize: u32,
    /// The most calls that are made.
    pub calls: u32,
    /// The first xid. If it is None the caller takes one from a clock.
    pub xid: Option<u32>,
    /// For how long attributes are believed.
    pub lives: Lives,
    /// Whether each read asks for its file's attributes again.
    pub noac: bool,
    /// Whether an open may go by attributes that are kept; never with `noac`.
    pub nocto: bool,
    /// Whether a line of counts comes at the end.
    pub count: bool,
}

/// Why words give no settings.
#[derive(Clone, Copy, Debug, PartialEq, Eq)]
pub enum WordsFault {
    /// They aren't of the form.
    Refused,
    /// Out of memory.
    Memory,
}
