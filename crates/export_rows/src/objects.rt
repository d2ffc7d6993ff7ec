//! What is done with an export beside its calls.

use crate::digits::{bytes_of, number_of};
use export_fs::Export;
use nfs_types::Handle;
use script_text::{contents, path};
use std::alloc::Global;
use std::io;

/// Places a file with these bytes, and prints whether it was placed.
pub fn place(rt: &impl Print, alloc: Global, export: &mut Export, rest: &str) -> io::Result<()> {
    let Some((name, digits)) = rest.split_once(' ') else {
        return println!(rt; "  no bytes");
    };
    match contents(alloc, digits.as_bytes()) {
        Ok(Some(bytes)) => place_at(rt, alloc, export, name, Some(bytes.bytes())),
        Ok(None) => println!(rt; "  no hex digits"),
        Err(_) => println!(rt; "  out of memory"),
    }
}

/// Places a directory, and prints whether it was placed.
pub fn place_dir(
    rt: &impl Print,
    alloc: Global,
    export: &mut Export,
    name: &str,
) -> io::Result<()> {
    place_at(rt, alloc, export, name, None)
}

fn place_at(
    rt: &impl Print,
    alloc: Global,
    export: &mut Export,
    name: &str,
    file: Option<&[u8]>,
) -> io::Result<()> {
    match path(alloc, name.as_bytes()) {
        Ok(Some(path)) => match export.place(&path, file) {
            Ok(placed) => println!(rt; "  {placed}"),
            Err(_) => println!(rt; "  out of memory"),
        },
        Ok(None) => println!(rt; "  no path"),
        Err(_) => println!(rt; "  out of memory"),
    }
}

/// Prints the file handle of the object to which a path leads, and the size of a file.
pub fn find(rt: &impl Print, alloc: Global, export: &Export, name: &str) -> io::Result<()> {
    match path(alloc, name.as_bytes()) {
        Ok(Some(path)) => match export.find(path.names()) {
            Some(handle) => println!(rt; "  {handle:?} {:?}", export.file_size(&handle)),
            None => println!(rt; "  none"),
        },
        Ok(None) => println!(rt; "  no path"),
        Err(_) => println!(rt; "  out of memory"),
    }
}

/// Makes bytes of a file stable: its file handle, an offset and a count.
pub fn flush(rt: &impl Print, alloc: Global, export: &mut Export, rest: &str) -> io::Result<()> {
    let mut words = rest.split(' ');
    let (Some(digits), Some(offset), Some(count)) = (words.next(), words.next(), words.next())
    else {
        return println!(rt; "  no range");
    };
    let Some(bytes) = bytes_of(alloc, digits) else {
        return println!(rt; "  no hex digits");
    };
    let Some(file) = Handle::make(bytes.as_slice()) else {
        return println!(rt; "  no file handle");
    };
    let (offset, count) = (number_of(offset), number_of(count));
    match export.flush(&file, u64::from(offset), u64::from(count)) {
        Ok(()) => Ok(()),
        Err(_) => println!(rt; "  out of memory"),
    }
}

/// Restarts the export, and prints whether it could, and the write verifier after it.
pub fn reboot(rt: &impl Print, export: &mut Export) -> io::Result<()> {
    let restarted = export.reboot();
    println!(rt; "  {restarted} {:?}", export.verifier())
}
