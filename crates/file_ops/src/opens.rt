//! Which file an operation on a slot is at.

ghost use Rattle.std.specs.Prelude.{◌≡◌};
ghost use Rattle.file_ops.specs.Opens.{file_to_write};

use nfs_types::{Handle, Mode};
use open_files::OpenFiles;
use world_model::Fault;

/// The file of a slot, if it is open to be written.
pub(crate) fn file_to_write(opens: &OpenFiles, lane: u8, slot: u8) -> Result<Handle, Fault>
    ensures { result ≡ file_to_write lane slot opens.now }
{
    let Some(open) = opens.get(lane, slot) else {
        return Err(Fault::Slot);
    };
    match open.mode {
        Mode::R => Err(Fault::Mode),
        Mode::W | Mode::RW | Mode::C | Mode::X => Ok(open.file),
    }
}
