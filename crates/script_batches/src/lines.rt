//! Single lines of an input.

ghost use Rattle.std.specs.Prelude.{◌≡◌, ◌≤◌, ◌++◌, length, position, take, OnOk};
ghost use Rattle.std.specs.Option.{option_map};
ghost use Rattle.script_text.specs.Lines.{is_feed, lines};
ghost use Rattle.script_batches.specs.Batches.{all_skipped, begins_go, is_go, is_idle, kept_bytes, says_go};

use memchr::memchr;
use script_text::{first_line, is_skipped, one_word};
use xdr_codec::Memory;

/// So many bytes are kept of a batch, and of a line: one more than a batch may have.
const KEPT: usize = 1_048_577;

/// The place of the first line feed.
pub(crate) fn feed(text: &[u8]) -> Option<usize>
    ensures { result ≡ position is_feed text.now }
{
    memchr(b'\n', text)
}

/// Adds bytes to a text, as far as they are kept.
pub(crate) fn extend_front(text: &mut Vec<u8>, bytes: &[u8]) -> Result<(), Memory>
    requires { length text.old.items ≤ 1048577 }
    ensures { OnOk result (text.new.items ≡ take kept_bytes (text.old.items ++ bytes.now)) }
{
    let room = KEPT - text.len();
    let (front, _) = bytes.split_at(room.min(bytes.len()));
    text.extend_from_slice(front)?;
    Ok(())
}

/// Whether the only word of a line is `go`. A line that wasn't kept whole isn't so.
pub(crate) fn is_go(line: &[u8]) -> bool
    requires { length line.now ≤ 1048577 }
    ensures { result ≡ is_go line.now }
{
    line.len() < KEPT && begins_go(line)
}

/// Whether the only word of the first line of a text is `go`.
fn begins_go(text: &[u8]) -> bool
    ensures { result ≡ begins_go (lines text.now) }
{
    if text.is_empty() {
        return false;
    }
    let (line, _) = first_line(text);
    says_go(one_word(line))
}

/// Whether a word is `go`.
fn says_go(word: Option<&[u8]>) -> bool
    ensures { result ≡ says_go (option_map (λ word. word.now) word.entry) }
{
    match word {
        Some(word) => word == b"go".as_slice(),
        None => false,
    }
}

/// Whether a text asks for nothing: it was kept whole, and each of its lines is passed over.
pub(crate) fn is_idle(text: &[u8]) -> bool
    requires { length text.now ≤ 1048577 }
    ensures { result ≡ is_idle text.now }
{
    text.len() < KEPT && all_skipped(text)
}

/// Whether each line of a text is passed over.
fn all_skipped(text: &[u8]) -> bool
    ensures { result ≡ all_skipped (lines text.now) }
{
    let mut rest = text;
    while !rest.is_empty() {
        let (line, after) = first_line(rest);
        if !is_skipped(line) {
            return false;
        }
        rest = after;
    }
    true
}
