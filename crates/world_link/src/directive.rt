//! What a line of a schedule asks for.

ghost use Rattle.std.specs.Prelude.{◌≡◌, IfOk};
ghost use Rattle.script_text.specs.Lines.{words};
ghost use Rattle.world_link.specs.Directives.{count_of, sending_of, tick_of, dir_of, file_of, mount_of, no_dial_of, start_of, lose_of, mute_of, hold_of, late_of, answer_of, partial_of, limit_of, before_of, after_of, turn_of, directive_of};

use crate::event::{Event, read_event};
use crate::procedures::proc_named;
use script_text::{
    contents, four_words, next_word, number, one_word, path, three_words, two_words,
};
use std::alloc::Global;
use world_model::Path;
use xdr_codec::{Blob, Memory};

/// A sending of a procedure of NFS.
#[derive(Clone, Copy, Debug, PartialEq, Eq, PartialOrd, Ord)]
pub struct RequestId {
    /// The number of the procedure (RFC 1813, section 3).
    pub proc: u32,
    /// Which sending of it, counted from 1, with those that repeat a call.
    pub k: u32,
}

/// What a line of a schedule asks for. Transmissions, dials, statuses and bounds are 1 or above.
#[derive(Debug, Drop)]
pub enum Directive {
    /// So many milliseconds go by from one reading of the clock to the next.
    Tick(u32),
    /// A directory is there from the start, or a file with these bytes, which are stable.
    Place {
        path: Path,
        file: Option<Blob>,
    },
    /// MNT is answered with this status.
    Mount(u32),
    /// That dial fails, counted from 1.
    NoDial(u32),
    /// The event happens just before the transmission's turn.
    Before(RequestId, Event),
    /// The event happens just after the transmission is executed.
    After(RequestId, Event),
    /// The transmission isn't executed.
    Lose(RequestId),
    /// The transmission is executed, and its reply never comes.
    Mute(RequestId),
    /// The reply of the transmission isn't ready before that turn.
    Hold {
        sending: RequestId,
        turn: RequestId,
    },
    /// A further copy of the transmission is executed just before that turn.
    Late {
        sending: RequestId,
        turn: RequestId,
    },
    /// The transmission is answered with this status and changes nothing. It isn't one of NULL.
    Answer {
        sending: RequestId,
        status: u32,
    },
    /// The transmission, a WRITE, breaks off.
    Partial {
        sending: RequestId,
        part: PartialWrite,
    },
    /// The transmission, a READ or WRITE, handles at most so many bytes.
    Limit {
        sending: RequestId,
        most: u32,
    },
}

/// How a WRITE breaks off: so many of its first bytes are written, at most, and it fails with the status, which is 1 or
/// above.
#[derive(Clone, Copy, Debug, PartialEq, Eq)]
pub struct PartialWrite {
    /// How many bytes are written.
    pub bytes: u32,
    /// The status of the reply (RFC 1813, section 2.6, nfsstat3).
    pub status: u32,
}

/// The number of WRITE (RFC 1813, section 3.3.7).
const WRITE: u32 = 7;

/// The most bytes that a line may let a WRITE write before it fails.
const MOST_PARTIAL: u32 = 65_536;

/// What a line's words ask for. None exactly if they are of no form.
pub(crate) fn read_directive(alloc: Global, line: &[u8]) -> Result<Option<Directive>, Memory>
    ensures { IfOk result (λ d. d ≡ directive_of (words line.now)) }
{
    let Some((command, rest)) = next_word(line) else {
        return Ok(None);
    };
    match start(alloc, command, rest)? {
        Some(directive) => Ok(Some(directive)),
        None => turn(alloc, command, rest),
    }
}

/// What holds from the start.
fn start(alloc: Global, command: &[u8], line: &[u8]) -> Result<Option<Directive>, Memory>
    ensures { IfOk result (λ d. d ≡ start_of command.now (words line.now)) }
{
    if command == b"tick".as_slice() {
        return Ok(tick(line));
    }
    if command == b"dir".as_slice() {
        return dir(alloc, line);
    }
    if command == b"file".as_slice() {
        return file(alloc, line);
    }
    if command == b"mnt".as_slice() {
        return Ok(mount(line));
    }
    if command == b"nodial".as_slice() {
        return Ok(no_dial(line));
    }
    Ok(None)
}

/// What becomes of a transmission.
fn turn(alloc: Global, command: &[u8], line: &[u8]) -> Result<Option<Directive>, Memory>
    ensures { IfOk result (λ d. d ≡ turn_of command.now (words line.now)) }
{
    if command == b"before".as_slice() {
        return before(alloc, line);
    }
    if command == b"after".as_slice() {
        return after(alloc, line);
    }
    if command == b"lose".as_slice() {
        return Ok(lose(line));
    }
    if command == b"mute".as_slice() {
        return Ok(mute(line));
    }
    if command == b"hold".as_slice() {
        return Ok(hold(line));
    }
    if command == b"late".as_slice() {
        return Ok(late(line));
    }
    if command == b"answer".as_slice() {
        return Ok(answer(line));
    }
    if command == b"partial".as_slice() {
        return Ok(partial(line));
    }
    if command == b"limit".as_slice() {
        return Ok(limit(line));
    }
    Ok(None)
}

fn tick(line: &[u8]) -> Option<Directive>
    ensures { result ≡ tick_of (words line.now) }
{
    let digits = one_word(line)?;
    let tick = number(digits, 0, u32::MAX)?;
    Some(Directive::Tick(tick))
}

fn dir(alloc: Global, line: &[u8]) -> Result<Option<Directive>, Memory>
    ensures { IfOk result (λ d. d ≡ dir_of (words line.now)) }
{
    let Some(word) = one_word(line) else {
        return Ok(None);
    };
    match path(alloc, word)? {
        Some(path) => Ok(Some(Directive::Place { path, file: None })),
        None => Ok(None),
    }
}

fn file(alloc: Global, line: &[u8]) -> Result<Option<Directive>, Memory>
    ensures { IfOk result (λ d. d ≡ file_of (words line.now)) }
{
    let Some((word, hex)) = two_words(line) else {
        return Ok(None);
    };
    let Some(path) = path(alloc, word)? else {
        return Ok(None);
    };
    match contents(alloc, hex)? {
        Some(bytes) => Ok(Some(Directive::Place {
            path,
            file: Some(bytes),
        })),
        None => Ok(None),
    }
}

fn mount(line: &[u8]) -> Option<Directive>
    ensures { result ≡ mount_of (words line.now) }
{
    let digits = one_word(line)?;
    let status = count(digits)?;
    Some(Directive::Mount(status))
}

fn no_dial(line: &[u8]) -> Option<Directive>
    ensures { result ≡ no_dial_of (words line.now) }
{
    let digits = one_word(line)?;
    let dial = count(digits)?;
    Some(Directive::NoDial(dial))
}

fn lose(line: &[u8]) -> Option<Directive>
    ensures { result ≡ lose_of (words line.now) }
{
    let (proc, k) = two_words(line)?;
    let sending = sending_named(proc, k)?;
    Some(Directive::Lose(sending))
}

fn mute(line: &[u8]) -> Option<Directive>
    ensures { result ≡ mute_of (words line.now) }
{
    let (proc, k) = two_words(line)?;
    let sending = sending_named(proc, k)?;
    Some(Directive::Mute(sending))
}

fn hold(line: &[u8]) -> Option<Directive>
    ensures { result ≡ hold_of (words line.now) }
{
    let (proc, k, turn_proc, turn_k) = four_words(line)?;
    let sending = sending_named(proc, k)?;
    let turn = sending_named(turn_proc, turn_k)?;
    Some(Directive::Hold { sending, turn })
}

fn late(line: &[u8]) -> Option<Directive>
    ensures { result ≡ late_of (words line.now) }
{
    let (proc, k, turn_proc, turn_k) = four_words(line)?;
    let sending = sending_named(proc, k)?;
    let turn = sending_named(turn_proc, turn_k)?;
    Some(Directive::Late { sending, turn })
}

fn answer(line: &[u8]) -> Option<Directive>
    ensures { result ≡ answer_of (words line.now) }
{
    let (proc, k, digits) = three_words(line)?;
    let sending = sending_named(proc, k)?;
    let status = count(digits)?;
    if sending.proc == 0 {
        None
    } else {
        Some(Directive::Answer { sending, status })
    }
}

fn partial(line: &[u8]) -> Option<Directive>
    ensures { result ≡ partial_of (words line.now) }
{
    let (proc, k, bytes, status) = four_words(line)?;
    let sending = sending_named(proc, k)?;
    let bytes = number(bytes, 0, MOST_PARTIAL)?;
    let status = count(status)?;
    if sending.proc == WRITE {
        Some(Directive::Partial {
            sending,
            part: PartialWrite { bytes, status },
        })
    } else {
        None
    }
}

fn limit(line: &[u8]) -> Option<Directive>
    ensures { result ≡ limit_of (words line.now) }
{
    let (proc, k, digits) = three_words(line)?;
    let sending = sending_named(proc, k)?;
    let most = count(digits)?;
    Some(Directive::Limit { sending, most })
}

fn before(alloc: Global, line: &[u8]) -> Result<Option<Directive>, Memory>
    ensures { IfOk result (λ d. d ≡ before_of (words line.now)) }
{
    let Some((proc, rest)) = next_word(line) else {
        return Ok(None);
    };
    let Some((k, rest)) = next_word(rest) else {
        return Ok(None);
    };
    let Some(sending) = sending_named(proc, k) else {
        return Ok(None);
    };
    match read_event(alloc, rest)? {
        Some(event) => Ok(Some(Directive::Before(sending, event))),
        None => Ok(None),
    }
}

fn after(alloc: Global, line: &[u8]) -> Result<Option<Directive>, Memory>
    ensures { IfOk result (λ d. d ≡ after_of (words line.now)) }
{
    let Some((proc, rest)) = next_word(line) else {
        return Ok(None);
    };
    let Some((k, rest)) = next_word(rest) else {
        return Ok(None);
    };
    let Some(sending) = sending_named(proc, k) else {
        return Ok(None);
    };
    match read_event(alloc, rest)? {
        Some(event) => Ok(Some(Directive::After(sending, event))),
        None => Ok(None),
    }
}

/// The transmission that a procedure's name and a count name.
fn sending_named(proc: &[u8], k: &[u8]) -> Option<RequestId>
    ensures { result ≡ sending_of proc.now k.now }
{
    let proc = proc_named(proc)?;
    let k = count(k)?;
    Some(RequestId { proc, k })
}

/// A number of 32 bits that isn't 0.
fn count(digits: &[u8]) -> Option<u32>
    ensures { result ≡ count_of digits.now }
{
    number(digits, 1, u32::MAX)
}
