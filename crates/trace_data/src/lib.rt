//! One given history as data: its entries, and the server at each moment by what each entry changes of it.
#![tactic(auto)]

mod objects;
mod trace;

pub use objects::{named, object_at, objects_after, verf_at};
pub use trace::{Contents, DirEntry, Object, Trace, Update, Updated};
