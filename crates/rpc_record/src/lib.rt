//! Records of remote procedure calls on a stream of bytes.
#![tactic(auto)]

mod gather;
mod inbox;
mod line;
mod sending;
mod stream_link;

pub use sending::SendState;
pub use stream_link::StreamLink;
