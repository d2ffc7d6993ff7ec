//! What the words of a line stand for.

use nfs_types::{Attr, Handle, Name, Stamp, Time};
use std::alloc::Global;
use std::io;

/// The first six numbers of a text; a word that isn't a number counts as 0.
pub fn numbers(text: &str) -> [u64; 6] {
    let mut found = [0; 6];
    for (at, word) in text.split_whitespace().enumerate() {
        if at < 6 {
            found[at] = word.parse::<u64>().unwrap_or(0);
        }
    }
    found
}

/// The last word of a text.
pub fn last(text: &str) -> &str {
    match text.rsplit_once(' ') {
        Some((_, word)) => word,
        None => text,
    }
}

/// A number below 2^32; 0 for a greater one.
pub fn small(number: u64) -> u32 {
    u32::try_from(number).unwrap_or(0)
}

/// A number below 256; 0 for a greater one.
pub fn tiny(number: u64) -> u8 {
    u8::try_from(number).unwrap_or(0)
}

/// The file or directory of a number.
pub fn handle(number: u64) -> Handle {
    Handle::make(&number.to_be_bytes()).unwrap_or(Handle::make(&[]).unwrap())
}

/// A name; `?` if the text is none.
pub fn name(text: &str) -> Name {
    Name::make(text.as_bytes()).unwrap_or(Name::make(b"?").unwrap())
}

/// The stamp of a file of this length that last changed at this second.
pub fn stamp(size: u64, second: u64) -> Stamp {
    attr(1, size, second).stamp()
}

/// Attributes of this kind and length, last changed at this second.
pub fn attr(kind: u64, size: u64, second: u64) -> Attr {
    let time = Time {
        seconds: small(second),
        nanos: 0,
    };
    Attr {
        kind: small(kind),
        mode: 0o644,
        nlink: 1,
        uid: 0,
        gid: 0,
        size,
        used: size,
        rdev_major: 0,
        rdev_minor: 0,
        fsid: 1,
        fileid: 1,
        atime: time,
        mtime: time,
        ctime: time,
    }
}

/// Prints bytes in hex.
pub fn show_bytes(rt: &impl Print, alloc: Global, bytes: &[u8]) -> io::Result<()> {
    match hex::encode(alloc, bytes) {
        Ok(digits) => println!(rt; "= {}", digits.as_str()),
        Err(_) => println!(rt; "= memory"),
    }
}

/// Prints whether a call was done or wanted memory.
pub fn show_done(rt: &impl Print, done: bool) -> io::Result<()> {
    if done {
        println!(rt; "= done")
    } else {
        println!(rt; "= memory")
    }
}
