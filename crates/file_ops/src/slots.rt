//! Which file a lane's slot holds.

ghost use Rattle.std.specs.Prelude.{◌≡◌};
ghost use Rattle.file_ops.specs.SlotFiles.{file_at};

use nfs_types::Handle;
use open_files::OpenFiles;

/// The file that a slot holds open.
pub(crate) fn file_at(opens: &OpenFiles, lane: u8, slot: u8) -> Option<Handle>
    ensures { result ≡ file_at lane slot opens.now }
{
    let Some(open) = opens.get(lane, slot) else {
        return None;
    };
    Some(open.file)
}
