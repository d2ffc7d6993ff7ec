//! The end of a row.

use std::io;
use xdr_codec::Writer;

/// Prints whether the bytes were written again, and whether each proper prefix of them is too short.
pub fn end(rt: &impl Print, w: Writer, wrote: bool, bytes: &[u8], short: bool) -> io::Result<()> {
    let written = w.finish();
    let same = wrote && *written.bytes() == *bytes;
    println!(rt; " same {same} short {short}")
}
