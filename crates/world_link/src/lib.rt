//! A simulated server behind a link. A schedule says which objects there are at the start, what happens to each
//! transmission and what happens at the server beside the client's calls; what is sent is executed in order when the
//! client waits.
#![tactic(auto)]

mod broken;
mod directive;
mod event;
mod fate;
mod happening;
mod held;
mod kept;
mod log;
mod manner;
mod pair_schedule;
mod pair_world;
mod plan;
mod procedures;
mod reading;
mod refused;
mod routed;
mod schedule;
mod server;
mod tally;
mod turning;
mod waiting;
mod world;

pub use broken::Broken;
pub use directive::{Directive, PartialWrite, RequestId};
pub use event::Event;
pub use fate::Fate;
pub use log::WorldLog;
pub use pair_schedule::parse_pair;
pub use pair_world::PairWorld;
pub use plan::Plan;
pub use reading::{Schedule, read_schedule};
pub use routed::Told;
pub use schedule::{ScheduleFault, parse_schedule};
pub use world::World;
