//! The words of the client's command line: which are taken, and the settings that they give.
#![tactic(auto)]

mod command;
mod modes;
mod number;
mod rows;
mod settings;
mod words;

pub use settings::{Export, Settings, WordsFault};
pub use words::read_words;
