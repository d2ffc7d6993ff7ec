//! Paths and names as bytes of their own.

ghost use Rattle.xdr_codec.specs.Reading.{opaque_at};
ghost use Rattle.mount_calls.specs.Lists.{ReadsOwned};

use std::alloc::Global;
use xdr_codec::{Blob, CodecFault, Reader};

/// The most bytes in the path of an export (RFC 1813, appendix I, MNTPATHLEN).
pub const PATH_MAX: u32 = 1024;

/// The most bytes in the name of a group (RFC 1813, appendix I, MNTNAMLEN).
pub const NAME_MAX: u32 = 255;

/// Reads a string of at most max bytes.
pub fn read_text(alloc: Global, r: &mut Reader<'_>, max: u32) -> Result<Blob, CodecFault>
    ensures { ReadsOwned result r.new (opaque_at max r.old) }
{
    let bytes = r.opaque(max)?;
    Ok(Blob::copy(alloc, bytes)?)
}
