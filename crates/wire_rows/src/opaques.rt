//! Opaques of any length.

ghost use Rattle.std.specs.Prelude.{◌≡◌, IfOk, length};

use std::alloc::{AllocError, Global};
use std::io;
use xdr_codec::{Reader, Writer};

/// Writes an opaque of so many bytes, reads it back, and prints how many bytes were written and whether it is the same.
pub fn opaque(rt: &impl Print, alloc: Global, count: u32) -> io::Result<()> {
    let Ok(bytes) = alike(alloc, count) else {
        return println!(rt; "no memory");
    };
    let mut w = Writer::new(alloc);
    let wrote = w.opaque(bytes.as_slice()).is_ok();
    let written = w.finish();
    let same = match Reader::new(written.bytes()).opaque(count) {
        Ok(read) => read == bytes.as_slice(),
        Err(_) => false,
    };
    println!(rt; "{} bytes wrote {wrote} same {same}", written.bytes().len())
}

/// So many bytes.
fn alike(alloc: Global, count: u32) -> Result<Vec<u8>, AllocError>
    ensures { IfOk result (λ bytes. length bytes.items ≡ count) }
{
    let mut bytes = Vec::new(alloc);
    bytes.resize(count as usize, 7)?;
    Ok(bytes)
}
