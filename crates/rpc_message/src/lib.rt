//! ONC RPC version 2 (RFC 5531): the heads of calls, replies and refusals.
#![tactic(auto)]

mod call;
mod cred;
mod front;
mod kept_cred;
mod reply;

pub use call::{CallFault, CallHead, read_call, write_call, write_call_by, xid_of};
pub use cred::Cred;
pub use kept_cred::KeptCred;
pub use reply::{Reply, ReplyFault, read_reply, write_accepted, write_denied, write_refused};
