//! What is made of the answers to a script that reads files.

ghost use Rattle.std.specs.Prelude.{◌≡◌, ◌<◌, ◌+◌, IfOk, IfSome, false, true};
ghost use Rattle.script_text.specs.Lines.{words as text_words};
ghost use Rattle.fetch_scripts.specs.Answering.{Says};
ghost use Rattle.fetch_scripts.specs.Fetches.{BeginsTook, EndTook, EndsTook, Gave, IsExpected, LeftTook, ReadTook, ReadsTook, RestTook, SpanTook, SpansTook, first_read};

use crate::answers::Answers;
use crate::blame::{Blame, said};
use crate::span::{PIECE, Span};
use crate::words::{after_ok, bytes_shown};
use copy_scripts::Teller;
use copy_targets::Target;
use outside::{Clock, Sink};
use std::alloc::Global;
use xdr_codec::{Blob, Memory};

/// The bytes of files go to the target. It is told whether that took what came of the file so far, and answers the same of the last one.
pub(crate) fn take_files<T: Target, K: Sink, C: Clock>(
    alloc: Global,
    target: &mut T,
    teller: &mut Teller<'_, K, C>,
    blame: &mut Blame,
    spans: &[Span],
    answers: &Answers<'_>,
    was_taken: bool,
) -> Result<bool, Memory>
    ensures took { IfOk result (λ taken. Gave (T.took target.old) (T.took target.new) (SpansTook answers.now.text.now spans.now was_taken taken)) }
    ensures from { blame.new.from ≡ blame.old.from }
{
    let mut is_taken = was_taken;
    for span in spans {
        is_taken = take_span(alloc, target, teller, blame, span, answers, is_taken)?;
    }
    Ok(is_taken)
}

/// The bytes of a file go to the target: whether it took all of them, and more are to come.
fn take_span<T: Target, K: Sink, C: Clock>(
    alloc: Global,
    target: &mut T,
    teller: &mut Teller<'_, K, C>,
    blame: &mut Blame,
    span: &Span,
    answers: &Answers<'_>,
    was_taken: bool,
) -> Result<bool, Memory>
    ensures took { IfOk result (λ taken. Gave (T.took target.old) (T.took target.new) (SpanTook answers.now.text.now span.now was_taken taken)) }
    ensures from { blame.new.from ≡ blame.old.from }
{
    let is_begun = take_beginning(alloc, target, teller, blame, span, answers, was_taken)?;
    if is_begun {
        take_rest(alloc, target, teller, blame, span, answers)
    } else {
        Ok(false)
    }
}

/// The bytes of a file that is begun go to the target: whether it took all of them, and more are to come.
fn take_rest<T: Target, K: Sink, C: Clock>(
    alloc: Global,
    target: &mut T,
    teller: &mut Teller<'_, K, C>,
    blame: &mut Blame,
    span: &Span,
    answers: &Answers<'_>,
) -> Result<bool, Memory>
    ensures took { IfOk result (λ taken. Gave (T.took target.old) (T.took target.new) (RestTook answers.now.text.now span.now taken)) }
    ensures from { blame.new.from ≡ blame.old.from }
{
    let is_taken = take_reads(alloc, target, teller, blame, span, answers)?;
    if is_taken {
        take_end(alloc, target, teller, blame, span)
    } else {
        Ok(false)
    }
}

/// A file that was opened is begun: whether its bytes are to be taken.
fn take_beginning<T: Target, K: Sink, C: Clock>(
    alloc: Global,
    target: &mut T,
    teller: &mut Teller<'_, K, C>,
    blame: &mut Blame,
    span: &Span,
    answers: &Answers<'_>,
    was_taken: bool,
) -> Result<bool, Memory>
    ensures took { IfOk result (λ taken. Gave (T.took target.old) (T.took target.new) (BeginsTook answers.now.text.now span.now was_taken taken)) }
    ensures from { blame.new.from ≡ blame.old.from }
{
    if !span.opens {
        return Ok(was_taken);
    }
    let Some(words) = answers.words(span.first) else {
        return complain(alloc, teller, blame, span, b"lost");
    };
    if after_ok(words).is_none() {
        return complain(alloc, teller, blame, span, words);
    }
    match target.begin(alloc, &span.path)? {
        None => Ok(true),
        Some(why) => complain(alloc, teller, blame, span, said(why)),
    }
}

/// The bytes that were read go to the target: whether it took all of them.
fn take_reads<T: Target, K: Sink, C: Clock>(
    alloc: Global,
    target: &mut T,
    teller: &mut Teller<'_, K, C>,
    blame: &mut Blame,
    span: &Span,
    answers: &Answers<'_>,
) -> Result<bool, Memory>
    ensures took { IfOk result (λ taken. Gave (T.took target.old) (T.took target.new) (ReadsTook answers.now.text.now span.now span.now.reads taken)) }
    ensures from { blame.new.from ≡ blame.old.from }
{
    for at in 0..span.reads {
        let is_taken = take_read(alloc, target, teller, blame, span, answers, at)?;
        if !is_taken {
            return Ok(false);
        }
    }
    Ok(true)
}

/// The bytes of a read go to the target: whether it took them.
fn take_read<T: Target, K: Sink, C: Clock>(
    alloc: Global,
    target: &mut T,
    teller: &mut Teller<'_, K, C>,
    blame: &mut Blame,
    span: &Span,
    answers: &Answers<'_>,
    at: u32,
) -> Result<bool, Memory>
    requires { at < span.now.reads }
    ensures took { IfOk result (λ taken. Gave (T.took target.old) (T.took target.new) (ReadTook answers.now.text.now span.now at taken)) }
    ensures from { blame.new.from ≡ blame.old.from }
{
    let Some(words) = read_words(span, answers, at) else {
        return leave(alloc, target, teller, blame, span, b"lost");
    };
    let Some(rest) = after_ok(words) else {
        return leave(alloc, target, teller, blame, span, words);
    };
    let Some(bytes) = bytes_shown(alloc, rest)? else {
        return leave(
            alloc,
            target,
            teller,
            blame,
            span,
            b"its bytes can't be read",
        );
    };
    if !is_expected(span, at, &bytes) {
        return leave(
            alloc,
            target,
            teller,
            blame,
            span,
            b"changed while it was read",
        );
    }
    teller.add_bytes(bytes.bytes().len());
    match target.write(alloc, bytes.bytes())? {
        None => Ok(true),
        Some(why) => leave(alloc, target, teller, blame, span, said(why)),
    }
}

/// The words of the answer to a read of a file, counted from 0 on.
fn read_words<'a>(span: &Span, answers: &Answers<'a>, at: u32) -> Option<&'a [u8]>
    ensures { IfSome result (λ words. Says answers.now.text.now (first_read span.now + at) (text_words words.now)) }
{
    let first = span.first.checked_add(u32::from(span.opens))?;
    let number = first.checked_add(at)?;
    answers.words(number)
}

/// Whether the bytes of a read are as many as they are to be: each read but the last one of the file is full.
fn is_expected(span: &Span, at: u32, bytes: &Blob) -> bool
    requires { at < span.now.reads }
    ensures { result ≡ true → IsExpected span.now at bytes.now }
{
    let is_last = span.ends && span.reads == at + 1;
    let is_full = bytes.bytes().len() == PIECE as usize;
    is_full != is_last
}

/// The file is at its end, or more of it is to come: whether it is.
fn take_end<T: Target, K: Sink, C: Clock>(
    alloc: Global,
    target: &mut T,
    teller: &mut Teller<'_, K, C>,
    blame: &mut Blame,
    span: &Span,
) -> Result<bool, Memory>
    ensures took { IfOk result (λ taken. Gave (T.took target.old) (T.took target.new) (EndTook span.now taken)) }
    ensures from { blame.new.from ≡ blame.old.from }
{
    if !span.ends {
        return Ok(true);
    }
    if span.reads == 0 {
        return leave(alloc, target, teller, blame, span, b"its end wasn't read");
    }
    end_file(alloc, target, teller, blame, span)
}

/// All bytes of a file came.
fn end_file<T: Target, K: Sink, C: Clock>(
    alloc: Global,
    target: &mut T,
    teller: &mut Teller<'_, K, C>,
    blame: &mut Blame,
    span: &Span,
) -> Result<bool, Memory>
    ensures took { IfOk result (λ taken. Gave (T.took target.old) (T.took target.new) (EndsTook taken)) }
    ensures from { blame.new.from ≡ blame.old.from }
{
    match target.end(alloc)? {
        None => {
            teller.add_file();
            Ok(false)
        }
        Some(why) => complain(alloc, teller, blame, span, said(why)),
    }
}

/// The target takes no more of the file.
fn leave<T: Target, K: Sink, C: Clock>(
    alloc: Global,
    target: &mut T,
    teller: &mut Teller<'_, K, C>,
    blame: &mut Blame,
    span: &Span,
    why: &[u8],
) -> Result<bool, Memory>
    ensures took { IfOk result (λ taken. Gave (T.took target.old) (T.took target.new) (LeftTook taken)) }
    ensures from { blame.new.from ≡ blame.old.from }
{
    target.leave();
    complain(alloc, teller, blame, span, why)
}

/// The file isn't copied.
fn complain<K: Sink, C: Clock>(
    alloc: Global,
    teller: &mut Teller<'_, K, C>,
    blame: &mut Blame,
    span: &Span,
    why: &[u8],
) -> Result<bool, Memory>
    ensures not { IfOk result (λ taken. taken ≡ false) }
    ensures from { blame.new.from ≡ blame.old.from }
{
    blame.complain(alloc, teller, &span.path, why)?;
    Ok(false)
}
