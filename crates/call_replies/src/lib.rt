//! What a record that came under the xid of a call says of that call, once for every procedure of NFS.
#![tactic(auto)]

mod record;
mod reply;
mod results;

pub use record::results_of;
pub use reply::came_of;
