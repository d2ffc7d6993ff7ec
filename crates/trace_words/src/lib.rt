//! What the words of a session say of its client, for a trace of what it did.
#![tactic(auto)]

mod words;

pub use words::{TraceWords, trace_words};
