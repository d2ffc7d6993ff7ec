//! A link with two ends, seen from one of them: what a client of one server needs that shares its link with another client.
#![tactic(auto)]

mod end;
mod side;

pub use end::End;
pub use side::Side;
