//! The true outside:
//! - TCP as a wire, and UDP as datagrams;
//! - a port at which others connect;
//! - standard input as a source of bytes, standard output and standard error as sinks;
//! - the clock of the system.
//!
//! What they pass on is told nowhere: each keeps a count of its failures, and the clock its last reading. A read or a write
//! that the system interrupts is made again. A standard stream that is closed when the program starts stays so.
#![tactic(auto)]

mod again;
mod datagram;
mod flight;
mod listener;
mod output;
mod paced;
mod rounds;
mod source;
mod stand_ins;
mod system_clock;
mod tcp;
mod udp;

pub use again::{read_again, write_again};
pub use listener::LoopbackListener;
pub use output::{StandardError, StandardOutput, WriterSink};
pub use source::{ReaderSource, StandardInput, file_source};
pub use stand_ins::{StandIns, StandardStream};
pub use system_clock::SystemClock;
pub use tcp::TcpWire;
pub use udp::UdpDatagrams;
