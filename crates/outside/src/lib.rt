//! What lies outside the client, as traits:
//! - where a script comes from, and where answers go to;
//! - the clock;
//! - the link to the server;
//! - the wire or the datagrams that carry its bytes.
//!
//! Each trait says what a call adds to what is told, and that a failure comes only if the count of faults rose. Beside
//! them stand forms in memory, for tests and for the simulated world.
#![tactic(auto)]

mod clock;
mod datagrams;
mod hostile;
mod link;
mod mem_datagrams;
mod mem_wire;
mod pair;
mod places;
mod sink;
mod source;
mod wire;

pub use clock::{Clock, TickClock};
pub use datagrams::{Arrived, DatagramEntry, Datagrams};
pub use hostile::HostileLink;
pub use link::{Link, LinkFault, Received};
pub use mem_datagrams::MemDatagrams;
pub use mem_wire::MemWire;
pub use pair::PairLink;
pub use places::{DatagramAdds, WireAdds, WirePlace};
pub use sink::{MemSink, Sink};
pub use source::{Failed, MemSource, Source};
pub use wire::{Wire, WireEntry, WireRead};
