//! The data types of NFS version 3 (RFC 1813, section 2.5), and how they stand in XDR (RFC 4506).
#![tactic(auto)]

mod attr;
mod compare;
mod handle;
mod held;
mod kept_page;
mod mode;
pub mod mount_proc;
mod name;
mod name_list;
pub mod nfs_proc;
mod program;
mod set_attr;
mod status;
mod time;
mod verf;
mod wcc;

pub use attr::{
    Attr, attr_read_back, opt_attr_read_back, read_attr, read_opt_attr, write_attr, write_opt_attr,
};
pub use handle::{Handle, handle_read_back, read_handle, write_handle};
pub use kept_page::KeptPage;
pub use mode::Mode;
pub use name::{Name, name_read_back, read_name, write_name};
pub use name_list::NameList;
pub use program::{MOUNT_PROGRAM, NFS_PROGRAM, PROGRAM_VERSION};
pub use set_attr::{SetAttr, SetTime, read_set_attr, set_attr_read_back, write_set_attr};
pub use status::Status;
pub use time::{Time, read_time, time_read_back, write_time};
pub use verf::{Verf, read_verf, verf_read_back, write_verf};
pub use wcc::{
    Stamp, Wcc, read_stamp, read_wcc, stamp_read_back, wcc_read_back, write_stamp, write_wcc,
};
