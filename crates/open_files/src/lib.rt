//! The files that a client holds open, by lane and slot.
#![tactic(auto)]

mod open_files;
mod opened;

pub use open_files::OpenFiles;
pub use opened::Opened;
