//! Whether a given history shows what is claimed of bytes: those that were made stable stay, and reads show what they may.
#![tactic(auto)]

mod beginnings;
mod bytes;
mod changes;
mod coming;
mod courses;
mod digest;
mod endings;
mod firm;
mod keeping;
mod objects;
mod operations;
mod paths;
mod pending;
mod pieces;
mod readings;
mod reads;
mod records;
mod settled;
mod slots;
mod touched;

pub use beginnings::{Broken, first_broken};
