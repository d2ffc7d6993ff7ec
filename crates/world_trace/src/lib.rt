//! The history of a simulated world as data: its entries, and the server after each of them.
#![tactic(auto)]

mod calls;
mod changes;
mod listing;
mod objects;
mod stepping;
mod top;

pub use top::trace_of;
