//! Answers, read by the operation that they answer.

ghost use Rattle.std.specs.Prelude.{◌≡◌, ◌≤◌, ◌++◌, ◌∷◌, [], IfOk, OnOk};
ghost use Rattle.script_text.specs.Lines.{words};
ghost use Rattle.script_text.specs.Paths.{decoded};
ghost use Rattle.trace_text.specs.Answers.{answer_by, answer_of, attrs_of, bad_fault_of, bits_of, fault_of, four_digits_of, link_text_of, lone_fault_of, nfs_fault_of, octal_digit_of, octal_of, plain_fault_of, read_bytes_of, rpc_fault_of, shape_in, shown_name_of, shown_names_of, some_bytes_of, value_of};
ghost use Rattle.trace_text.specs.Words.{Gives};

use crate::fault::LineFault;
use crate::words::{bytes, first, long, none, one, ranged};
use nfs_types::{Attr, Name, NameList, Time};
use script_text::{decoded, next_word};
use std::alloc::Global;
use world_model::{Answer, Fault, Op, Value};
use xdr_codec::{Blob, Memory};

/// What an answer shows if the operation succeeded.
#[derive(Clone, Copy)]
pub(crate) enum Shape {
    Nothing,
    Bytes,
    Text,
    Attrs,
    Bits,
    Names,
}

/// What the answer to an operation shows.
pub(crate) fn shape_in(op: &Op) -> Shape
    ensures { result ≡ shape_in op.now }
{
    match op {
        Op::Read { .. } => Shape::Bytes,
        Op::ReadLink { .. } => Shape::Text,
        Op::Stat { .. } => Shape::Attrs,
        Op::Access { .. } => Shape::Bits,
        Op::List { .. } => Shape::Names,
        _ => Shape::Nothing,
    }
}

/// The answer that a text stands for. `ok` alone is nothing, no bytes, an empty text or no names, by the operation.
pub(crate) fn answer(alloc: Global, shape: Shape, text: &[u8]) -> Result<Answer, LineFault>
    ensures { Gives (λ a. a) result (answer_of shape (words text.now)) }
{
    let (word, rest) = first(text)?;
    answer_by(alloc, shape, word, rest)
}

fn answer_by(alloc: Global, shape: Shape, word: &[u8], rest: &[u8]) -> Result<Answer, LineFault>
    ensures { Gives (λ a. a) result (answer_by shape word.now (words rest.now)) }
{
    if word == b"ok".as_slice() {
        let value = value(alloc, shape, rest)?;
        return Ok(Answer::Done(value));
    }
    let fault = fault(word, rest)?;
    Ok(Answer::Refused(fault))
}

/// A refusal.
fn fault(word: &[u8], rest: &[u8]) -> Result<Fault, LineFault>
    ensures { Gives (λ f. f) result (fault_of word.now (words rest.now)) }
{
    if word == b"nfs".as_slice() {
        return nfs_fault(rest);
    }
    if word == b"rpc".as_slice() {
        return rpc_fault(rest);
    }
    if word == b"bad".as_slice() {
        return bad_fault(rest);
    }
    none(rest)?;
    plain_fault(word)
}

/// A status other than 0 (RFC 1813, section 2.6).
#[tactic(auto, unfolding(crate::specs::Answers::nfs_fault_of))]
fn nfs_fault(rest: &[u8]) -> Result<Fault, LineFault>
    ensures { Gives (λ f. f) result (nfs_fault_of (words rest.now)) }
{
    let status = ranged(one(rest)?, 1, u32::MAX)?;
    Ok(Fault::Nfs(status))
}

/// What RPC refused (RFC 5531, section 9).
#[tactic(auto, unfolding(crate::specs::Answers::rpc_fault_of))]
fn rpc_fault(rest: &[u8]) -> Result<Fault, LineFault>
    ensures { Gives (λ f. f) result (rpc_fault_of (words rest.now)) }
{
    let status = long(one(rest)?)?;
    Ok(Fault::Rpc(status))
}

/// A rule that a record broke.
#[tactic(auto, unfolding(crate::specs::Answers::bad_fault_of))]
fn bad_fault(rest: &[u8]) -> Result<Fault, LineFault>
    ensures { Gives (λ f. f) result (bad_fault_of (words rest.now)) }
{
    let rule = ranged(one(rest)?, 1, 7)?;
    Ok(Fault::Bad(rule))
}

/// A refusal that is one word.
fn plain_fault(word: &[u8]) -> Result<Fault, LineFault>
    ensures { Gives (λ f. f) result (plain_fault_of word.now) }
{
    if word == b"lost".as_slice() {
        return Ok(Fault::Lost);
    }
    if word == b"spent".as_slice() {
        return Ok(Fault::Spent);
    }
    if word == b"slot".as_slice() {
        return Ok(Fault::Slot);
    }
    if word == b"mode".as_slice() {
        return Ok(Fault::Mode);
    }
    if word == b"type".as_slice() {
        return Ok(Fault::Kind);
    }
    if word == b"many".as_slice() {
        return Ok(Fault::Many);
    }
    if word == b"memory".as_slice() {
        return Ok(Fault::Memory);
    }
    Err(LineFault::Form)
}

/// What follows `ok`.
fn value(alloc: Global, shape: Shape, text: &[u8]) -> Result<Value, LineFault>
    ensures { Gives (λ v. v) result (value_of shape (words text.now)) }
{
    match shape {
        Shape::Bytes => Ok(Value::Bytes(Blob::of(read_bytes(alloc, text)?))),
        Shape::Text => Ok(Value::Text(Blob::of(link_text(alloc, text)?))),
        Shape::Attrs => Ok(Value::Attrs(attrs(text)?)),
        Shape::Bits => Ok(Value::Bits(bits(text)?)),
        Shape::Names => Ok(Value::Names(NameList::of(names(alloc, text)?))),
        Shape::Nothing => {
            none(text)?;
            Ok(Value::Nothing)
        }
    }
}

/// The bits of ACCESS (RFC 1813, section 3.3.4).
#[tactic(auto, unfolding(crate::specs::Answers::bits_of))]
fn bits(text: &[u8]) -> Result<u32, LineFault>
    ensures { Gives (λ n. n) result (bits_of (words text.now)) }
{
    ranged(one(text)?, 0, u32::MAX)
}

/// The bytes that a read gave.
fn read_bytes(alloc: Global, text: &[u8]) -> Result<Vec<u8>, LineFault>
    ensures { Gives (λ b. b.items) result (read_bytes_of (words text.now)) }
{
    match next_word(text) {
        Some(_) => some_bytes(alloc, one(text)?),
        None => Ok(Vec::new(alloc)),
    }
}

/// Bytes, of which there is one at least.
fn some_bytes(alloc: Global, word: &[u8]) -> Result<Vec<u8>, LineFault>
    ensures { Gives (λ b. b.items) result (some_bytes_of word.now) }
{
    if word == b"-".as_slice() {
        return Err(LineFault::Form);
    }
    bytes(alloc, word)
}

/// The text that a readlink gave.
fn link_text(alloc: Global, text: &[u8]) -> Result<Vec<u8>, LineFault>
    ensures { Gives (λ b. b.items) result (link_text_of (words text.now)) }
{
    match next_word(text) {
        Some(_) => unshown(alloc, one(text)?),
        None => Ok(Vec::new(alloc)),
    }
}

/// The bytes of a shown word, in which `%` and two hex digits stand for one.
fn unshown(alloc: Global, word: &[u8]) -> Result<Vec<u8>, LineFault>
    ensures { Gives (λ b. b.items) result (decoded word.now) }
{
    match decoded(alloc, word)? {
        Some(bytes) => Ok(bytes),
        None => Err(LineFault::Form),
    }
}

/// The names that a list gave.
fn names(alloc: Global, text: &[u8]) -> Result<Vec<Name>, LineFault>
    ensures { Gives (λ l. l.items) result (shown_names_of (words text.now)) }
{
    let mut names = Vec::new(alloc);
    let mut left = text;
    while let Some((word, rest)) = next_word(left) {
        let name = shown_name(alloc, word)?;
        add(&mut names, name)?;
        left = rest;
    }
    Ok(names)
}

/// Appends a name.
fn add(names: &mut Vec<Name>, name: Name) -> Result<(), Memory>
    ensures { OnOk result (names.new.items ≡ names.old.items ++ name ∷ []) }
{
    names.push(name)?;
    Ok(())
}

/// A name as answers show it.
fn shown_name(alloc: Global, word: &[u8]) -> Result<Name, LineFault>
    ensures { Gives (λ n. n) result (shown_name_of word.now) }
{
    let bytes = unshown(alloc, word)?;
    crate::words::as_name(bytes.as_slice())
}

/// The attributes that a stat shows: kind, mode, count of names, owner, group, size, number, and the second when the
/// bytes last changed. The others are 0.
#[tactic(auto, unfolding(crate::specs::Answers::attrs_of))]
fn attrs(text: &[u8]) -> Result<Attr, LineFault>
    ensures { Gives (λ a. a) result (attrs_of (words text.now)) }
{
    let (kind, rest) = first(text)?;
    let (mode, rest) = first(rest)?;
    let (nlink, rest) = first(rest)?;
    let (uid, rest) = first(rest)?;
    let (gid, rest) = first(rest)?;
    let (size, rest) = first(rest)?;
    let (fileid, rest) = first(rest)?;
    let seconds = one(rest)?;
    let never = Time {
        seconds: 0,
        nanos: 0,
    };
    Ok(Attr {
        kind: ranged(kind, 0, u32::MAX)?,
        mode: octal(mode)?,
        nlink: ranged(nlink, 0, u32::MAX)?,
        uid: ranged(uid, 0, u32::MAX)?,
        gid: ranged(gid, 0, u32::MAX)?,
        size: long(size)?,
        used: 0,
        rdev_major: 0,
        rdev_minor: 0,
        fsid: 0,
        fileid: long(fileid)?,
        atime: never,
        mtime: Time {
            seconds: ranged(seconds, 0, u32::MAX)?,
            nanos: 0,
        },
        ctime: never,
    })
}

/// A mode as four octal digits.
fn octal(word: &[u8]) -> Result<u32, LineFault>
    ensures { Gives (λ n. n) result (octal_of word.now) }
{
    match word {
        [a, b, c, d] => four_digits(*a, *b, *c, *d),
        _ => Err(LineFault::Form),
    }
}

/// The number of four octal digits, the highest first.
#[tactic(auto, unfolding(crate::specs::Answers::four_digits_of))]
fn four_digits(a: u8, b: u8, c: u8, d: u8) -> Result<u32, LineFault>
    ensures { Gives (λ n. n) result (four_digits_of a b c d) }
{
    let first = octal_digit(a)?;
    let second = octal_digit(b)?;
    let third = octal_digit(c)?;
    let fourth = octal_digit(d)?;
    Ok(first * 512 + second * 64 + third * 8 + fourth)
}

/// The number of an octal digit.
fn octal_digit(digit: u8) -> Result<u32, LineFault>
    ensures value { Gives (λ n. n) result (octal_digit_of digit) }
    ensures within { IfOk result (λ n. n ≤ 7) }
{
    if b'0' <= digit && digit <= b'7' {
        Ok(u32::from(digit - b'0'))
    } else {
        Err(LineFault::Form)
    }
}
