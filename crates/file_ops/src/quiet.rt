//! Whether nothing of a file is in flight.

ghost use Rattle.std.specs.Prelude.{◌≡◌, ◌↔◌, IsTrue};
ghost use Rattle.write_back.specs.Files.{HasNoPiece};
ghost use Rattle.file_ops.specs.Quiet.{is_quiet};

use nfs_types::Handle;
use write_back::WriteBack;

/// Whether nothing of a file is in flight.
pub(crate) fn is_quiet(back: &WriteBack, file: &Handle) -> bool
    ensures told { result ≡ is_quiet file.now back.now }
    ensures none { IsTrue result ↔ HasNoPiece file.now back.now }
{
    back.is_quiet(file)
}
