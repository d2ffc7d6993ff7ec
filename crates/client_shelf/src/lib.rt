//! What the client keeps between calls, what a step of an operation is told, and what it comes to.
#![tactic(auto)]

pub mod busy;
mod lane_files;
pub mod learning;
mod repeats;
mod shelf;
mod step;
mod turn;
pub mod unmade;

pub use lane_files::{LaneFile, LaneFiles};
pub use repeats::{Repeat, Repeats};
pub use shelf::Shelf;
pub use step::Step;
pub use turn::{Came, Turn};
