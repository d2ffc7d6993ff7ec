//! Judges one given history.
#![tactic(auto)]

mod judging;

pub use judging::{Verdict, check};
