//! Pages of files that outlast the program: slots on a disk, each with a gate. The gate is open over a whole page, and closed
//! while the page is written. So a crash at any moment leaves pages that were stored.
#![tactic(auto)]

mod disk;
mod fault;
mod file_disk;
mod format;
mod label;
mod mem_disk;
mod opening;
mod put;
mod record;
mod round_pages;
mod rounds;
mod slots;
mod store;

pub use disk::Disk;
pub use fault::StoreFault;
pub use file_disk::FileDisk;
pub use mem_disk::{DiskCall, MemDisk};
pub use store::{OpenFault, PageStore};
