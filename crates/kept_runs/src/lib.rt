//! Sessions that begin with the pages of a store on disk, and leave theirs there.
#![tactic(auto)]

mod anew;
mod keeping;
mod top;

pub use top::{run_kept, run_labelled};
