//! Pages between a store on disk and a cache in memory: a session begins with those that the store shows, and leaves those that
//! its cache keeps.
#![tactic(auto)]

mod filling;
mod planning;
mod storing;

pub use filling::cache_of;
pub use storing::store_kept;
