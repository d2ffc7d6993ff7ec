//! Dirty bytes, by `write_back`.

ghost use Rattle.std.specs.Prelude.{◌≡◌, ◌+◌, ◌-◌, ◌^◌, ◌<◌, ◌≤◌, length, true, false, Ok, OnErr};
ghost use Rattle.write_back.specs.Files.{all_pending, of_file, with_bytes, IsNewest, OnFile};
ghost use Rattle.write_back.specs.Sound.{most_pending};

use nfs_types::Handle;
use write_back::{AddFault, WriteBack};
use xdr_codec::{Blob, Memory};

/// Writes bytes to a file under the next number, and answers whether there was room. What the blob shares isn't copied. Without
/// room, or memory, nothing is changed.
pub fn write_if_room(
    back: &mut WriteBack,
    file: &Handle,
    offset: u64,
    bytes: &Blob,
    number: u64,
) -> Result<bool, Memory>
    requires newest { IsNewest number back.old }
    requires last { offset + length bytes.now ≤ 2 ^ 63 - 1 }
    ensures laid { result ≡ Ok true → OnFile back.old back.new file.now (with_bytes offset bytes.now number (of_file file.now back.old)) }
    ensures full { result ≡ Ok false → most_pending < all_pending back.old + length bytes.now }
    ensures same { result ≡ Ok false → back.new ≡ back.old }
    ensures err { OnErr result (back.new ≡ back.old) }
{
    match back.add(file, offset, bytes, number) {
        Ok(()) => Ok(true),
        Err(AddFault::Full) => Ok(false),
        Err(AddFault::Memory) => Err(Memory),
    }
}
