//! Makes the line that answers an operation.

ghost use Rattle.std.specs.Prelude.{◌≡◌, ◌+◌, ◌*◌, ◌++◌, ◌<◌, ◌≤◌, codes, length, IfOk, IfSome};
ghost use Rattle.std.specs.Vec.{vec_capacity};
ghost use Rattle.hex.specs.Hex.{encode_lower};
ghost use Rattle.world_model.specs.Transcript.{line_text};
ghost use Rattle.world_model.specs.declared.answer.Answer.TheVariants.{Done};
ghost use Rattle.world_model.specs.declared.answer.Value.TheVariants.{Bytes};

use crate::answer_line::{line, write_head};
use crate::hex_text::encode;
use std::alloc::Global;
use std::marker::Model;
use world_model::{Answer, Value};
use xdr_codec::{Blob, Memory, Writer};

/// The bytes of a line for which there is room from the beginning: those of a line that shows no bytes and no names are fewer, mostly.
const ROOM: usize = 128;

/// The line that answers an operation, and memory for a line that is made later.
#[derive(Drop)]
pub struct MadeLine {
    /// That memory. A line that shows bytes stands there.
    room: Vec<u8>,
    /// The line, if it shows no bytes.
    written: Option<Blob>,
}

impl Model for MadeLine {
    ghost use Rattle.std.specs.Prelude.{List, ℕ};
    ghost use Rattle.xdr_codec.specs.Blobs.{shared_or};

    ghost Value = { List ℕ };

    ghost view = { λ l. shared_or l.written l.room.items };
}

impl MadeLine {
    /// The line.
    pub fn bytes(&self) -> &[u8]
        ensures { result.now ≡ self.now }
    {
        match &self.written {
            Some(text) => text.bytes(),
            None => self.room.as_slice(),
        }
    }

    /// The memory. What it holds counts for nothing.
    pub fn into_room(self) -> Vec<u8> {
        self.room
    }
}

/// The line that answers an operation, as `line` appends it. One that shows bytes takes the memory of a line before, whatever it
/// holds, if that has room for it; else it takes its memory at once.
pub fn whole_line(
    alloc: Global,
    room: Vec<u8>,
    lane: u8,
    number: u32,
    answer: &Answer,
) -> Result<MadeLine, Memory>
    ensures { IfOk result (λ text. text ≡ line_text lane number answer.now) }
{
    match shown_bytes(answer) {
        Some(bytes) => bytes_line(alloc, room, lane, number, bytes),
        None => written_line(alloc, room, lane, number, answer),
    }
}

/// The bytes that an answer shows, if it shows any.
fn shown_bytes(answer: &Answer) -> Option<&[u8]>
    ensures is { IfSome result (λ bytes. answer.now ≡ Done (Bytes bytes.now)) }
    ensures some { IfSome result (λ bytes. 0 < length bytes.now) }
{
    match answer {
        Answer::Done(value) => bytes_of(value),
        Answer::Refused(_) => None,
    }
}

/// The bytes of a value, if it has any.
fn bytes_of(value: &Value) -> Option<&[u8]>
    ensures is { IfSome result (λ bytes. value.now ≡ Bytes bytes.now) }
    ensures some { IfSome result (λ bytes. 0 < length bytes.now) }
{
    match value {
        Value::Bytes(bytes) if !bytes.bytes().is_empty() => Some(bytes.bytes()),
        _ => None,
    }
}

/// The line as it is appended to nothing.
fn written_line(
    alloc: Global,
    room: Vec<u8>,
    lane: u8,
    number: u32,
    answer: &Answer,
) -> Result<MadeLine, Memory>
    ensures { IfOk result (λ text. text ≡ line_text lane number answer.now) }
{
    let mut out = Writer::with_room(alloc, ROOM)?;
    line(&mut out, lane, number, answer)?;
    Ok(MadeLine {
        room,
        written: Some(out.finish()),
    })
}

/// The line that shows these bytes.
#[tactic(auto, using(std::proofs::Common::append_assoc, crate::proofs::Hexed::spaced_hex), unfolding(world_model::specs::Transcript::line_text))]
fn bytes_line(
    alloc: Global,
    room: Vec<u8>,
    lane: u8,
    number: u32,
    bytes: &[u8],
) -> Result<MadeLine, Memory>
    requires { 0 < length bytes.now }
    ensures { IfOk result (λ text. text ≡ line_text lane number (Done (Bytes bytes.now))) }
{
    let mut head = Writer::with_room(alloc, ROOM)?;
    write_head(&mut head, lane, number)?;
    head.raw(b"ok ")?;
    let room = with_digits(alloc, room, head.finish().bytes(), bytes)?;
    Ok(MadeLine {
        room,
        written: None,
    })
}

/// What comes before the digits, the digits of bytes, and a line feed. The memory that is there isn't filled with zeros again.
fn with_digits(alloc: Global, room: Vec<u8>, head: &[u8], bytes: &[u8]) -> Result<Vec<u8>, Memory>
    ensures { IfOk result (λ text. text.items ≡ head.now ++ (encode_lower bytes.now ++ codes "\n")) }
{
    let end = digits_end(head.len(), bytes.len())?;
    let mut text = room_for(alloc, room, end.saturating_add(1))?;
    text.resize(end, 0)?;
    fill(text.as_mut_slice(), head, bytes);
    text.push(b'\n')?;
    Ok(text)
}

/// Memory for so many bytes: that which is there, if it is enough.
fn room_for(alloc: Global, room: Vec<u8>, size: usize) -> Result<Vec<u8>, Memory>
    ensures { IfOk result (λ text. size ≤ vec_capacity text) }
{
    if size <= room.capacity() {
        return Ok(room);
    }
    Ok(Vec::with_capacity(alloc, size)?)
}

/// Fills room with what comes before the digits and with the digits of bytes.
fn fill(text: &mut [u8], head: &[u8], bytes: &[u8])
    requires { length text.old ≡ length head.now + 2 * length bytes.now }
    ensures { text.new ≡ head.now ++ encode_lower bytes.now }
{
    text[..head.len()].copy_from_slice(head);
    encode(bytes, &mut text[head.len()..]);
}

/// Where the digits of so many bytes end that begin at a place.
fn digits_end(start: usize, count: usize) -> Result<usize, Memory>
    ensures { IfOk result (λ end. end ≡ start + 2 * count) }
{
    let Some(digits) = count.checked_mul(2) else {
        return Err(Memory);
    };
    match start.checked_add(digits) {
        Some(end) => Ok(end),
        None => Err(Memory),
    }
}
