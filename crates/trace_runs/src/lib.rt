//! Judges the history that a text tells, from a source of bytes to a sink.
#![tactic(auto)]

mod top;
mod verdict_text;

pub use top::run_check;
