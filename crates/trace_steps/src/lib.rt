//! Whether an entry of a given history is what a server may do.
#![tactic(auto)]

mod dir_service;
mod file_service;
mod lists;
mod moments;
mod name_service;
mod pages;
mod ranges;
mod removal;
mod renaming;
mod service;
mod turning;

pub use service::{is_flush, is_served};
