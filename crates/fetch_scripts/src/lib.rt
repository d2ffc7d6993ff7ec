//! The scripts that copy a tree of files from a server, or compare it, one after another: each by what was answered to the one before.
#![tactic(auto)]

mod answers;
mod blame;
mod download;
mod file_reads;
mod name_reads;
mod paths;
mod span;
mod taking_files;
mod taking_names;
mod walk;
mod words;

pub use download::{Download, Skips};
