//! A link as a client finds it that comes after others: what they did is told as if another client had done it.
#![tactic(auto)]

mod anew;

pub use anew::Anew;
