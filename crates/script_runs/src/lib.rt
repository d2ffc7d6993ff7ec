//! A run of a script: what the words and the source give is read, a session is set up, and its lines are run in their lanes. What a
//! run shows of the files is said by the crate above, `nfs_client`.
#![tactic(auto)]

mod input;
mod lanes;
mod mount;
mod output;
mod status;
mod stock;
mod top;

pub use input::{ReadFault, read_script};
pub use lanes::first_xid;
pub use mount::refuse_mount;
pub use output::write_all;
pub use stock::Stock;
pub use top::{run, run_stocked, run_with};
