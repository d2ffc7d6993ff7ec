//! What records ask for.

use world_model::Call;
use xdr_codec::Blob;

/// What a record asks for.
#[derive(Debug, Drop)]
pub enum Asked {
    /// It is no call.
    NoCall,
    /// A call that is refused by RPC (RFC 5531, section 9): `bytes` is the record of the refusal.
    Refuse { xid: u32, bytes: Blob },
    /// A call of NFS or MOUNT that is to be executed.
    Serve { xid: u32, call: Call },
}
