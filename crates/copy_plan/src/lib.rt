//! The lines of scripts that copy files, and folders and links: which operations are asked for, in which lane, under which number.
#![tactic(auto)]

mod file_lines;
mod lines;
mod name_lines;
mod whole;

pub use file_lines::FileLines;
pub use lines::PlanFault;
pub use name_lines::NameLines;
pub use whole::{asks_in_order, files_are_asked};
