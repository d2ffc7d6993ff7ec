//! What a session is set up with.

use attr_cache::Lives;
use nfs_types::Handle;
use page_cache::PageCache;
use rpc_message::Cred;

/// What a session is set up with.
#[derive(Drop)]
pub struct Setup {
    /// The directory that paths begin at.
    pub root: Handle,
    /// The greatest READ.
    pub rsize: u32,
    /// The greatest WRITE.
    pub wsize: u32,
    /// The xid of the first call.
    pub first_xid: u32,
    /// How many calls may be made.
    pub limit: u32,
    /// As whom calls are made.
    pub cred: Cred,
    /// How long attributes are believed.
    pub lives: Lives,
    /// The pages that are kept from the start, each under a stamp of its file.
    pub pages: PageCache,
}
