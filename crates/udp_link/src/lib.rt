//! A link over datagrams: each of them is one record of a remote procedure call (RFC 5531, section 9).
#![tactic(auto)]

mod link;

pub use link::UdpLink;
