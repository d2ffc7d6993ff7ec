//! The model that every layer speaks of: what an operation is and what it is answered, the calls and replies of the
//! protocol, and what a history is made of. The definitions over histories stand in specs/.
#![tactic(auto)]

mod answer;
mod entry;
mod message;
mod op;
mod tally;

pub use answer::{Answer, Fault, Value};
pub use entry::{Entry, Mark};
pub use message::{Call, Reply};
pub use op::{Op, Path};
pub use tally::Tally;
