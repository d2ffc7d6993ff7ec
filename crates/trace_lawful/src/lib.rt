//! Whether a given history is what an honest server and network make, and the first rule of a server that it breaks.
#![tactic(auto)]

mod earliest;
mod lawful;
mod server;

pub use earliest::First;
pub use lawful::first_unlawful;
pub use server::first_of_server;
