//! The answers to the lines of a script, each found by the number of its line.

ghost use Rattle.std.specs.Prelude.{◌≡◌, ◌∷◌, Contains, IfOk, IfSome, Some, true};
ghost use Rattle.script_text.specs.Lines.{lines, words as text_words};
ghost use Rattle.script_text.specs.Numbers.{number_of};
ghost use Rattle.fetch_scripts.specs.Answering.{BeginsLine, Numbered, Says};

use script_text::{first_line, next_word, number};
use std::alloc::Global;
use xdr_codec::Memory;

/// The greatest number of a line.
const LAST_LINE: u32 = 268_435_455;

/// The place of an answer that didn't come.
const NOWHERE: usize = usize::MAX;

/// The answers to a script, as they were written.
#[derive(Drop)]
pub(crate) struct Answers<'a> {
    text: &'a [u8],
    /// The number of its first line.
    first: u32,
    /// Where the answers begin, line after line.
    places: Vec<usize>,
}

impl<'a> Answers<'a> {
    /// The answers to a script of so many lines.
    pub(crate) fn read(
        alloc: Global,
        text: &'a [u8],
        first: u32,
        count: usize,
    ) -> Result<Answers<'a>, Memory>
        ensures { IfOk result (λ answers. answers.text.now ≡ text.entry.now) }
    {
        let mut places = Vec::new(alloc);
        places.resize(count, NOWHERE)?;
        find(text, first, places.as_mut_slice());
        Ok(Answers {
            text,
            first,
            places,
        })
    }

    /// The number of the first line.
    pub(crate) fn first(&self) -> u32 {
        self.first
    }

    /// The words of the answer to a line, behind lane and number; none if it didn't come.
    pub(crate) fn words(&self, number: u32) -> Option<&'a [u8]>
        ensures { IfSome result (λ words. Says self.now.text.now number (text_words words.now)) }
    {
        let index = number.checked_sub(self.first)?;
        let place = *self.places.as_slice().get(index as usize)?;
        words_at(self.text, place, number)
    }
}

/// Finds where each answer stands.
fn find(text: &[u8], first: u32, places: &mut [usize]) {
    let mut rest = text;
    for _ in 0..text.len() {
        if rest.is_empty() {
            return;
        }
        let (line, after) = first_line(rest);
        place(line, text.len().saturating_sub(rest.len()), first, places);
        rest = after;
    }
}

/// An answer stands at this place.
fn place(line: &[u8], at: usize, first: u32, places: &mut [usize]) {
    let Some((number, _)) = numbered(line) else {
        return;
    };
    let Some(index) = number.checked_sub(first) else {
        return;
    };
    if let Some(place) = places.get_mut(index as usize) {
        *place = at;
    }
}

/// The words of the answer that stands at a place, if it is that to the line.
fn words_at<'a>(text: &'a [u8], place: usize, number: u32) -> Option<&'a [u8]>
    ensures { IfSome result (λ words. Says text.entry.now number (text_words words.now)) }
{
    let line = line_at(text, place)?;
    let (found, words) = numbered(line)?;
    if found == number { Some(words) } else { None }
}

/// The line that begins at a place, if one does.
fn line_at<'a>(text: &'a [u8], place: usize) -> Option<&'a [u8]>
    ensures { IfSome result (λ line. Contains (lines text.entry.now) line.now) }
{
    if !begins(text, place) {
        return None;
    }
    let (_, rest) = text.split_at(place);
    let (line, _) = first_line(rest);
    Some(line)
}

/// Whether a line begins at a place of a text.
fn begins(text: &[u8], place: usize) -> bool
    ensures { result ≡ true → BeginsLine text.now place }
{
    if place >= text.len() {
        return false;
    }
    place == 0 || text[place - 1] == b'\n'
}

/// The number of an answer's line, and its words behind it.
fn numbered<'a>(line: &'a [u8]) -> Option<(u32, &'a [u8])>
    ensures { IfSome result (λ p. Numbered line.entry.now p.0 (text_words p.1.now)) }
{
    let (_, rest) = next_word(line)?;
    let (digits, words) = next_word(rest)?;
    let number = number(digits, 1, LAST_LINE)?;
    Some((number, words))
}
