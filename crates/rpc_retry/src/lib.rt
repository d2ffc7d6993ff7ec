//! The calls that wait for a reply: each has an xid and a record, which is spelled once and sent again as it is (RFC 5531,
//! sections 5 and 9).
//!
//! An attempt of a call begins where its record is sent and ends where the connection or the wait for a reply fails.
//! After four of them the call is given up. A reply is taken once, while its call waits.
//!
//! What holds at any time is told by `Calls::is_sound`: a call that isn't due was sent (`IsSoundCall`). What became of each
//! xid is told by `Calls::have_stories`, and that between two transmissions of a call the attempts that ran have failed by
//! `Calls::are_sent_apart`.
#![tactic(auto)]

mod answers;
mod calls;
mod table;
mod waiting;

pub use answers::{AfterFailure, PutFault, PutRefusal, Taken};
pub use calls::Calls;
pub use waiting::Waiting;
