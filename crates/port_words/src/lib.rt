//! Words of a command line that a session begins with in place of the user: where its ports are found, and how much a
//! datagram holds.
#![tactic(auto)]

mod batches;
mod portmap;
mod texts;
mod udp;

pub use batches::batch_words;
pub use portmap::{Portmap, PortmapFault, take_portmap, with_ports};
pub use udp::udp_words;
