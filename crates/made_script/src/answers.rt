//! What comes of a run's answers, in one line.

ghost use Rattle.std.specs.Prelude.{◌≡◌, ◌++◌, codes, decimal, OnOk, OnErr};
ghost use Rattle.std.specs.Option.{option_map};
ghost use Rattle.xdr_codec.specs.Spelling.{BeginsWith};
ghost use Rattle.script_text.specs.Lines.{lines, words};
ghost use Rattle.made_script.specs.Summaries.{after_ok, first_length, oks_of, digits_of, summary_text};

use crate::numbers::write_number;
use script_text::{first_line, next_word};
use xdr_codec::{Memory, Writer};

/// Appends how many lines a text of answers has, in how many of them the operation succeeded, and how many bytes these lines
/// show. When out of memory the writer begins with what it held.
#[tactic(auto, using(crate::proofs::Counting::digits_within, crate::proofs::Counting::no_lines), unfolding(crate::specs::Summaries::summary_text))]
pub fn summary(text: &[u8], out: &mut Writer) -> Result<(), Memory>
    ensures ok { OnOk result (out.new ≡ out.old ++ summary_text text.now) }
    ensures err { OnErr result (BeginsWith out.old out.new) }
{
    let mut lines = 0usize;
    let mut oks = 0usize;
    let mut digits = 0usize;
    let mut rest = text;
    while !rest.is_empty() {
        let (line, after) = first_line(rest);
        lines += 1;
        if let Some(words) = after_ok(line) {
            oks += 1;
            digits += first_length(words);
        }
        rest = after;
    }
    write_counts(out, lines, oks, digits / 2)
}

/// What follows the word `ok` in a line, if that is the third word.
fn after_ok<'a>(line: &'a [u8]) -> Option<&'a [u8]>
    ensures { option_map (λ rest. words rest.now) result ≡ after_ok (words line.entry.now) }
{
    let (_, rest) = next_word(line)?;
    let (_, rest) = next_word(rest)?;
    let (word, rest) = next_word(rest)?;
    if word == b"ok".as_slice() {
        Some(rest)
    } else {
        None
    }
}

/// How long the first word of a line is, 0 if it has none.
fn first_length(line: &[u8]) -> usize
    ensures { result ≡ first_length (words line.now) }
{
    match next_word(line) {
        Some((word, _)) => word.len(),
        None => 0,
    }
}

#[tactic(auto, using(xdr_codec::proofs::Begins::begins_then, std::proofs::Common::append_assoc))]
fn write_counts(out: &mut Writer, lines: usize, oks: usize, bytes: usize) -> Result<(), Memory>
    ensures ok { OnOk result (out.new ≡ out.old ++ (codes "lines " ++ decimal lines ++ codes " ok " ++ decimal oks ++ codes " bytes "
        ++ decimal bytes ++ codes "\n")) }
    ensures err { OnErr result (BeginsWith out.old out.new) }
{
    out.raw(b"lines ")?;
    write_number(out, lines as u64)?;
    out.raw(b" ok ")?;
    write_number(out, oks as u64)?;
    out.raw(b" bytes ")?;
    write_number(out, bytes as u64)?;
    out.raw(b"\n")?;
    Ok(())
}
