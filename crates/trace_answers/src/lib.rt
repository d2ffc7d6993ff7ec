//! What the entries of a given history say of each other: where an operation ends, which call a record answers, and what that
//! call was.
#![tactic(auto)]

mod calls;
mod ends;
mod filing;
mod records;

pub use calls::{LastCall, call_before, last_call};
pub use ends::end_of;
pub use filing::{opened_file, put_file};
pub use records::{first_sent, last_record, waits};
