//! Sixteen lanes, each with one operation under way, over one shelf and one table of calls.
#![tactic(auto)]

mod client;
mod lane;
mod laws;
mod setup;
mod work;

pub use client::Core;
pub use lane::{Lane, Purpose, State};
pub use setup::Setup;
