//! The machines of operations on names: one step per reply.
#![tactic(auto)]

mod access;
mod changing;
mod dir_change;
mod laws;
mod link;
mod list_dir;
mod looking;
mod make_dir;
mod moving;
mod pair;
mod read_link;
mod remove_dir;
mod remove_file;
mod rename;
mod showing;
mod stat;
mod sym_link;
mod told;
mod visit;
mod walk;

pub use access::Access;
pub use dir_change::{DirChange, DirDeed};
pub use laws::{
    copy_waits_still, pair_waits_still, remove_waits_still, stat_waits_still, visit_waits_still,
    walk_waits_still,
};
pub use link::Link;
pub use list_dir::{ListDir, PageStart};
pub use moving::Moved;
pub use pair::{Pair, PairStep};
pub use read_link::ReadLink;
pub use remove_file::{Deed, RemoveFile};
pub use rename::Rename;
pub use stat::Stat;
pub use sym_link::SymLink;
pub use told::Told;
pub use visit::{Visit, VisitStep};
pub use walk::{Spot, Walk, WalkStep};
