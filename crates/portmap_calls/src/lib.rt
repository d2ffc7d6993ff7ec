//! The port mapper, version 2 (RFC 1833, section 3): which port a program is served on. It reads, writes and answers GETPORT.
#![tactic(auto)]

mod answering;
mod call;
mod mapping;

pub use answering::answer;
pub use call::{GETPORT, PORTMAP_PROGRAM, PORTMAP_VERSION, get_port_call, read_port};
pub use mapping::{Mapping, read_mapping, write_mapping};
