//! The machines of operations on files: one step per reply.
#![tactic(auto)]

mod adding;
mod base;
mod close_file;
mod closing;
mod failing;
mod gather;
mod hearing;
mod judging;
mod laws;
mod noting;
mod offer;
mod open_file;
mod open_pages;
mod opening;
mod opens;
mod overlaid;
mod put_file;
mod put_off;
mod quiet;
mod read_file;
mod read_reply;
mod reading;
mod saving;
mod slots;
mod space;
mod sync_file;
mod told;
mod truncate_file;
mod write_file;

pub use close_file::{CloseFile, Closing};
pub use closing::Removal;
pub use laws::{
    close_stays_ready, close_waits_still, open_waits_still, put_stays_ready, put_waits_still,
    read_waits_still, sync_stays_ready, sync_waits_still, truncate_stays_ready,
    truncate_waits_still, write_stays_ready, write_waits_still,
};
pub use open_file::OpenFile;
pub use opening::{Led, Opening, OpeningPhase, OpeningStep};
pub use put_file::{PutFile, Putting};
pub use read_file::ReadFile;
pub use saving::{Phase, Saving};
pub use space::Space;
pub use sync_file::{SyncFile, Syncing};
pub use truncate_file::{TruncateFile, Truncating};
pub use write_file::{Text, WriteFile, Writing};
