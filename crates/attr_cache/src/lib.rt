//! Kept attributes: what a server told of a file's attributes is believed for a while (nfs(5), acregmin to acdirmax).
//! A contract sees a cache as its entries, the file that was learnt last in front, and its lifetimes.
#![tactic(auto)]

mod cache;
mod kept;
mod lives;

pub use cache::AttrCache;
pub use kept::KeptAttr;
pub use lives::Lives;
