//! The listing of a directory from the pages of READDIRPLUS (RFC 1813, section 3.3.17).
#![tactic(auto)]

mod listing;
mod progress;

pub use listing::Listing;
pub use progress::{ListFault, ListStep};
