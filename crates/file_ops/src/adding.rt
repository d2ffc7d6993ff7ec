//! Bytes that are written become pending, under the next number of a write.

ghost use Rattle.std.specs.Prelude.{◌≡◌, ◌↔◌, ◌+◌, ◌-◌, ◌^◌, ◌<◌, ◌≤◌, length, Err, IsTrue, OnOk, OnErr};
ghost use Rattle.write_back.specs.declared.piece.AddFault.TheVariants.{Full};
ghost use Rattle.write_back.specs.Files.{of_file, all_pending, OnFile, with_bytes, IsNewest};
ghost use Rattle.file_ops.specs.Adding.{counted, is_full};

use client_shelf::Shelf;
use nfs_types::Handle;
use write_back::AddFault;
use xdr_codec::Blob;

/// Adds bytes that were written to a file to those that are pending. After Full and Memory nothing is changed.
pub(crate) fn add_written(
    shelf: &mut Shelf,
    file: &Handle,
    offset: u64,
    bytes: &Blob,
) -> Result<(), AddFault>
    requires newest { IsNewest (shelf.old.seq + 1) shelf.old.back }
    requires last { offset + length bytes.now ≤ 2 ^ 63 - 1 }
    requires seq { shelf.old.seq < 2 ^ 63 }
    ensures full { (result ≡ Err Full) ↔ IsTrue (is_full bytes.now shelf.old.back) }
    ensures back { OnOk result (OnFile shelf.old.back shelf.new.back file.now (with_bytes offset bytes.now (shelf.old.seq + 1) (of_file file.now shelf.old.back))) }
    ensures total { OnOk result (all_pending shelf.new.back ≤ all_pending shelf.old.back + length bytes.now) }
    ensures shelf { OnOk result (shelf.new ≡ counted shelf.new.back shelf.old) }
    ensures err { OnErr result (shelf.new ≡ shelf.old) }
{
    shelf.back.add(file, offset, bytes, shelf.seq + 1)?;
    shelf.seq += 1;
    Ok(())
}
