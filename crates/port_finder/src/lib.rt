//! Which ports a server's programs are served on, by the word of its port mapper (RFC 1833, section 3).
#![tactic(auto)]

mod exchange;
mod finder;
mod halt;
mod reply;

pub use finder::{PortFault, Ports, find_ports};
