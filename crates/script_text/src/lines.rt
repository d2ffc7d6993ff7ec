//! Text as lines, and lines as words.

ghost use Rattle.std.specs.Prelude.{◌≡◌, ◌<◌, ◌≤◌, [], ◌∷◌, length, take, position, MatchOption, if◌then◌else◌};
ghost use Rattle.std.specs.Option.{option_map};
ghost use Rattle.std.specs.Simd.Lanes.{Each1};
ghost use Rattle.std.specs.Str.{is_utf8};
ghost use Rattle.script_text.specs.Lines.{is_feed, is_blank, is_skipped, lines, words, is_empty, without_return, one, two, three, four};
ghost use Rattle.script_text.specs.Plain.{IsPlain};

use crate::plain::plain_front;
use memchr::{memchr, memchr2};
use simdutf8::basic::from_utf8;

/// The first line of a text, and what follows it. A line ends in a line feed, the last one may lack it; a carriage
/// return before the line feed isn't part of the line.
pub fn first_line<'a>(text: &'a [u8]) -> (&'a [u8], &'a [u8])
    ensures first { 0 < length text.entry.now → lines text.entry.now ≡ result.0.now ∷ lines result.1.now }
    ensures shorter { 0 < length text.entry.now → length result.1.now < length text.entry.now }
{
    match feed(text) {
        None => (text, &text[text.len()..]),
        Some(at) => (without_return(&text[..at]), &text[at + 1..]),
    }
}

/// The first line of a text and what follows it, as `first_line` gives them, and whether the line is UTF-8. The bytes of a
/// front that is ASCII are looked at once.
pub fn first_text<'a>(text: &'a [u8]) -> (&'a [u8], &'a [u8], bool)
    ensures first { 0 < length text.entry.now → lines text.entry.now ≡ result.0.now ∷ lines result.1.now }
    ensures shorter { 0 < length text.entry.now → length result.1.now < length text.entry.now }
    ensures text { result.2 ≡ is_utf8 result.0.now }
{
    let plain = plain_front(text);
    match feed_behind(text, plain) {
        None => (text, &text[text.len()..], is_utf8_behind(text, plain)),
        Some(at) => {
            let line = without_return(&text[..at]);
            (line, &text[at + 1..], is_utf8_behind(line, plain))
        }
    }
}

/// The place of the first line feed of a text with that many plain bytes at its front.
fn feed_behind(text: &[u8], plain: usize) -> Option<usize>
    requires within { plain ≤ length text.now }
    requires plain { Each1 IsPlain (take plain text.now) }
    ensures { result ≡ position is_feed text.now }
{
    let (_, rest) = text.split_at(plain);
    match feed(rest) {
        None => None,
        Some(at) => Some(plain + at),
    }
}

/// Whether a line is UTF-8 text, if as many bytes at its front are plain, or all of them.
fn is_utf8_behind(line: &[u8], plain: usize) -> bool
    requires { Each1 IsPlain (take plain line.now) }
    ensures { result ≡ is_utf8 line.now }
{
    let (_, rest) = line.split_at(plain.min(line.len()));
    is_utf8(rest)
}

/// The place of the first line feed.
fn feed(text: &[u8]) -> Option<usize>
    ensures { result ≡ position is_feed text.now }
{
    memchr(b'\n', text)
}

/// The line without a carriage return at its end.
fn without_return<'a>(line: &'a [u8]) -> &'a [u8]
    ensures { result.now ≡ without_return line.entry.now }
{
    match line.last() {
        Some(b'\r') => &line[..line.len() - 1],
        _ => line,
    }
}

/// The first of the words that a line has left, and what follows it. Words are parted by spaces or tabs.
pub fn next_word<'a>(line: &'a [u8]) -> Option<(&'a [u8], &'a [u8])>
    ensures { MatchOption result (words line.entry.now ≡ []) (λ p. words line.entry.now ≡ p.0.now ∷ words p.1.now) }
{
    let mut rest = line;
    while !rest.is_empty() {
        let (word, after) = first_word(rest);
        if !word.is_empty() {
            return Some((word, after));
        }
        rest = after;
    }
    None
}

/// What stands before the first space or tab, and what stands after it.
fn first_word<'a>(line: &'a [u8]) -> (&'a [u8], &'a [u8])
    ensures first { words line.entry.now ≡ (if is_empty result.0.now then words result.1.now else result.0.now ∷ words result.1.now) }
    ensures shorter { 0 < length line.entry.now → length result.1.now < length line.entry.now }
{
    match blank(line) {
        None => (line, &line[line.len()..]),
        Some(at) => (&line[..at], &line[at + 1..]),
    }
}

/// The place of the first space or tab.
fn blank(line: &[u8]) -> Option<usize>
    ensures { result ≡ position is_blank line.now }
{
    memchr2(b' ', b'\t', line)
}

/// The word of a line that has one.
pub fn one_word<'a>(line: &'a [u8]) -> Option<&'a [u8]>
    ensures { option_map (λ word. word.now) result ≡ one (words line.entry.now) }
{
    let (word, rest) = next_word(line)?;
    match next_word(rest) {
        None => Some(word),
        Some(_) => None,
    }
}

/// The words of a line that has two.
pub fn two_words<'a>(line: &'a [u8]) -> Option<(&'a [u8], &'a [u8])>
    ensures { option_map (λ p. (p.0.now, p.1.now)) result ≡ two (words line.entry.now) }
{
    let (first, rest) = next_word(line)?;
    let second = one_word(rest)?;
    Some((first, second))
}

/// The words of a line that has three.
pub fn three_words<'a>(line: &'a [u8]) -> Option<(&'a [u8], &'a [u8], &'a [u8])>
    ensures { option_map (λ p. (p.0.now, p.1.now, p.2.now)) result ≡ three (words line.entry.now) }
{
    let (first, rest) = next_word(line)?;
    let (second, third) = two_words(rest)?;
    Some((first, second, third))
}

/// The words of a line that has four.
pub fn four_words<'a>(line: &'a [u8]) -> Option<(&'a [u8], &'a [u8], &'a [u8], &'a [u8])>
    ensures { option_map (λ p. (p.0.now, p.1.now, p.2.now, p.3.now)) result ≡ four (words line.entry.now) }
{
    let (first, rest) = next_word(line)?;
    let (second, third, fourth) = three_words(rest)?;
    Some((first, second, third, fourth))
}

/// Whether a line is UTF-8 text.
pub fn is_utf8(line: &[u8]) -> bool
    ensures { result ≡ is_utf8 line.now }
{
    from_utf8(line).is_ok()
}

/// Whether a line is passed over: it is empty or begins with `#`.
pub fn is_skipped(line: &[u8]) -> bool
    ensures { result ≡ is_skipped line.now }
{
    match line.first() {
        Some(b) => *b == b'#',
        None => true,
    }
}
