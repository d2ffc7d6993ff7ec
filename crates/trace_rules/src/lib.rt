//! Judges one given history.
#![tactic(auto)]

mod beginnings;
mod keeping;
mod late;
mod restarts;
mod servers;
mod stamps;

pub use beginnings::{first_late, first_stale};
pub use keeping::{
    changes_nothing, is_file, is_other, keeps, keeps_server, keeps_verf, same_attr, same_bool,
    same_contents, same_object,
};
pub use late::is_once;
pub use restarts::{is_restart, same_verf};
pub use servers::{are_servers, sound_all};
pub use stamps::{is_fresh, is_stamp};
