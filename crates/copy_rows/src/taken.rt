//! What a target took, in lines.

use copy_targets::Took;
use std::io;
use world_model::Path;

/// The bytes of a file that came so far.
#[derive(Clone, Copy)]
struct Count {
    bytes: u64,
    pieces: u64,
    /// The sum of the bytes.
    sum: u64,
}

const NOTHING: Count = Count {
    bytes: 0,
    pieces: 0,
    sum: 0,
};

/// Prints what a target took: a line for each folder, link and file, and one behind each file that came whole.
pub fn show_taken(rt: &impl Print, took: &[Took]) -> io::Result<()> {
    let mut count = NOTHING;
    for one in took {
        match one {
            Took::Folder(path) => show_object(rt, "folder", path)?,
            Took::Link(path, text) => show_link(rt, path, text.bytes())?,
            Took::File(path) => {
                count = NOTHING;
                show_object(rt, "begun", path)?;
            }
            Took::Piece(bytes) => count = with_piece(count, bytes.bytes()),
            Took::End => show_count(rt, count)?,
        }
    }
    Ok(())
}

/// The count with a further piece.
fn with_piece(count: Count, bytes: &[u8]) -> Count {
    Count {
        bytes: count.bytes.saturating_add(bytes.len() as u64),
        pieces: count.pieces.saturating_add(1),
        sum: count.sum.saturating_add(sum_of(bytes)),
    }
}

fn sum_of(bytes: &[u8]) -> u64 {
    let mut sum: u64 = 0;
    for byte in bytes {
        sum = sum.saturating_add(u64::from(*byte));
    }
    sum
}

fn show_count(rt: &impl Print, count: Count) -> io::Result<()> {
    let Count { bytes, pieces, sum } = count;
    println!(rt; "  whole: {bytes} bytes, {pieces} pieces, sum {sum}")
}

fn show_object(rt: &impl Print, what: &str, path: &Path) -> io::Result<()> {
    print!(rt; "  {what} ")?;
    show_path(rt, path)?;
    println!(rt; "")
}

fn show_link(rt: &impl Print, path: &Path, text: &[u8]) -> io::Result<()> {
    print!(rt; "  link ")?;
    show_path(rt, path)?;
    println!(rt; " {}", text_of(text))
}

/// A path, from the root of the target on.
fn show_path(rt: &impl Print, path: &Path) -> io::Result<()> {
    if path.names().is_empty() {
        return print!(rt; "/");
    }
    for name in path.names() {
        print!(rt; "/{}", text_of(name.bytes()))?;
    }
    Ok(())
}

fn text_of(bytes: &[u8]) -> &str {
    std::str::from_utf8(bytes).unwrap_or("no text")
}
