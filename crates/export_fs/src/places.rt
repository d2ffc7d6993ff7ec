//! File handles, and the places of objects in order of making.

ghost use Rattle.std.specs.Prelude.{◌≡◌};
ghost use Rattle.xdr_codec.specs.Bytes.{IsBytes};
ghost use Rattle.export_fs.specs.Parts.{handle_of, place_of};
ghost use Rattle.export_fs.specs.Names.{is_own_name};
ghost use Rattle.export_fs.specs.Refusals.{is_bad};

use byteorder::{BigEndian, ByteOrder};
use nfs_types::{Handle, Name};

/// The place of the root directory.
pub(crate) const ROOT: u32 = 0;

/// The last number that an object can have: each took a number of the counter of changes.
const LAST_NUMBER: u64 = 4_294_967_295;

/// The bytes of a file handle.
const HANDLE_BYTES: usize = 8;

/// Whether it isn't of 8 bytes.
pub(crate) fn is_bad(handle: &Handle) -> bool
    ensures { result ≡ is_bad handle.now }
{
    handle.bytes().len() != HANDLE_BYTES
}

fn are_bytes(bytes: &[u8])
    ensures { IsBytes bytes.now }
{
    let _len = bytes.len();
}

/// That a file handle is of bytes. A fact for proofs: it does nothing.
pub(crate) fn holds_bytes(handle: &Handle)
    ensures { IsBytes handle.now }
{
    are_bytes(handle.bytes());
}

/// The place that a file handle names: its number less 1.
pub(crate) fn place_of(handle: &Handle) -> Option<u32>
    ensures { result ≡ place_of handle.now }
{
    let bytes = handle.bytes();
    if bytes.len() != HANDLE_BYTES {
        return None;
    }
    let number = BigEndian::read_u64(bytes);
    if number == 0 || number > LAST_NUMBER {
        return None;
    }
    Some((number - 1) as u32)
}

/// The file handle of the object at a place in order of making: its number, which is 1 more, as 8 bytes.
#[tactic(auto, unfolding(xdr_codec::specs::Spelling::u64_bytes))]
pub fn handle_of(place: u32) -> Handle
    ensures { result ≡ handle_of place }
{
    let mut bytes = [0; HANDLE_BYTES];
    BigEndian::write_u64(&mut bytes, place as u64 + 1);
    Handle::make(&bytes).unwrap()
}

/// Whether it is `.` or `..`.
pub(crate) fn is_own_name(name: &Name) -> bool
    ensures { result ≡ is_own_name name.now }
{
    let own: &[u8] = b".";
    let parent: &[u8] = b"..";
    name.bytes() == own || name.bytes() == parent
}
