//! What a session does before its first operation: it mounts the export and asks the server for its sizes. A call that isn't answered is
//! sent again under its xid, up to four times.
#![tactic(auto)]

mod connect;
mod exchange;
mod opening;
mod reply;
mod request;
mod sizes;
mod stop;

pub use opening::{SetUp, SetUpFault, set_up};
