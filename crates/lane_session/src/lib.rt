//! A session of sixteen lanes: the lines of a script are begun, their calls are sent, what comes is taken, and each answer is noted and
//! written at once.
#![tactic(auto)]

mod buffer;
mod counts;
mod halt;
mod incoming;
mod lanes;
mod lines;
mod lost_lines;
mod output;
mod running;
mod status;
mod top;

pub use halt::Halt;
pub use lost_lines::lose_lines;
pub use running::Session;
pub use top::session;
