//! What operations do, and how they went.

ghost use Rattle.std.specs.Prelude.{◌≡◌, ◌<◌, ◌+◌, ◌++◌, length, IfOk, MatchOption};
ghost use Rattle.trace_claims.specs.Courses.{work_of, within, range, covers, slot_of_work, opens, closes, is_open, is_close, is_put, is_write};
ghost use Rattle.trace_claims.specs.Courses.{is_read, cut_size};
ghost use Rattle.trace_claims.specs.Courses.{ended_before, is_done, is_refused, IsCourseAt, NoneBegins, HasCourses, list_of};

use crate::endings::{Ending, Outcome, end_of};
use std::alloc::Global;
use world_model::{Entry, Op};
use xdr_codec::Memory;

/// What an operation does to a file's bytes.
#[derive(Clone, Copy, Debug, PartialEq, Eq)]
pub(crate) enum Work {
    Open {
        slot: u8,
    },
    Read {
        slot: u8,
        offset: u64,
        count: u32,
    },
    Write {
        slot: u8,
        offset: u64,
        length: usize,
    },
    Put {
        offset: u64,
        length: usize,
    },
    Sync {
        slot: u8,
    },
    Close {
        slot: u8,
    },
    Truncate {
        slot: u8,
        size: u64,
    },
    Other,
}

/// How an operation went.
#[derive(Clone, Copy, Debug)]
pub(crate) struct Course {
    /// The place of its Began.
    pub(crate) place: usize,
    pub(crate) lane: u8,
    pub(crate) ending: Ending,
    pub(crate) work: Work,
}

/// All operations, in order.
pub(crate) fn all_courses(alloc: Global, entries: &[Entry]) -> Result<Vec<Course>, Memory>
    ensures { IfOk result (λ all. HasCourses entries.now (length entries.now) all.items) }
{
    let mut all = Vec::new(alloc);
    let mut place = 0;
    while place < entries.len() {
        add(&mut all, course_at(entries, place))?;
        place += 1;
    }
    Ok(all)
}

fn add(all: &mut Vec<Course>, found: Option<Course>) -> Result<(), Memory>
    ensures { IfOk result (λ done. all.new.items ≡ all.old.items ++ list_of found) }
{
    if let Some(course) = found {
        all.push(course)?;
    }
    Ok(())
}

/// The operation that begins at a place.
fn course_at(entries: &[Entry], place: usize) -> Option<Course>
    requires { place < length entries.now }
    ensures { MatchOption result (NoneBegins entries.now place) (IsCourseAt entries.now place) }
{
    match &entries[place] {
        Entry::Began { lane, op, .. } => Some(Course {
            place,
            lane: *lane,
            ending: end_of(entries, place),
            work: work_of(op),
        }),
        _ => None,
    }
}

fn work_of(op: &Op) -> Work
    ensures { result ≡ work_of op.now }
{
    match op {
        Op::OpenFile { slot, .. } => Work::Open { slot: *slot },
        Op::Read {
            slot,
            offset,
            count,
        } => Work::Read {
            slot: *slot,
            offset: *offset,
            count: *count,
        },
        Op::Write {
            slot,
            offset,
            bytes,
        } => Work::Write {
            slot: *slot,
            offset: *offset,
            length: bytes.bytes().len(),
        },
        Op::Fill {
            slot,
            offset,
            count,
            ..
        } => Work::Write {
            slot: *slot,
            offset: *offset,
            length: *count as usize,
        },
        Op::Put { offset, bytes, .. } => Work::Put {
            offset: *offset,
            length: bytes.bytes().len(),
        },
        Op::Sync { slot } => Work::Sync { slot: *slot },
        Op::Close { slot } => Work::Close { slot: *slot },
        Op::Truncate { slot, size } => Work::Truncate {
            slot: *slot,
            size: *size,
        },
        _ => Work::Other,
    }
}

impl Course {
    /// The slot that it works on.
    pub(crate) fn slot(&self) -> Option<u8>
        ensures { result ≡ slot_of_work self.now.work }
    {
        match self.work {
            Work::Read { slot, .. } => Some(slot),
            Work::Write { slot, .. } => Some(slot),
            Work::Sync { slot } => Some(slot),
            Work::Close { slot } => Some(slot),
            Work::Truncate { slot, .. } => Some(slot),
            _ => None,
        }
    }

    /// Whether it was answered before a place.
    pub(crate) fn ended_before(&self, place: usize) -> bool
        ensures { result ≡ ended_before self.now place }
    {
        self.ending.end < place
    }

    /// Whether it succeeded in a beginning of so many entries.
    pub(crate) fn is_done(&self, length: usize) -> bool
        ensures { result ≡ is_done self.now length }
    {
        match self.ending.outcome {
            Outcome::Done => self.ending.end < length,
            _ => false,
        }
    }

    /// Whether it was refused in a beginning of so many entries.
    pub(crate) fn is_refused(&self, length: usize) -> bool
        ensures { result ≡ is_refused self.now length }
    {
        match self.ending.outcome {
            Outcome::Refused => self.ending.end < length,
            _ => false,
        }
    }

    /// Whether it opens a slot.
    pub(crate) fn opens(&self, slot: u8) -> bool
        ensures { result ≡ opens self.now.work slot }
    {
        match self.work {
            Work::Open { slot: its } => its == slot,
            _ => false,
        }
    }

    /// Whether it is an open.
    pub(crate) fn is_open(&self) -> bool
        ensures { result ≡ is_open self.now.work }
    {
        matches!(self.work, Work::Open { .. })
    }

    /// Whether it closes a slot.
    pub(crate) fn closes(&self, slot: u8) -> bool
        ensures { result ≡ closes self.now.work slot }
    {
        match self.work {
            Work::Close { slot: its } => its == slot,
            _ => false,
        }
    }

    /// Whether it is a close.
    pub(crate) fn is_close(&self) -> bool
        ensures { result ≡ is_close self.now.work }
    {
        matches!(self.work, Work::Close { .. })
    }

    /// Whether it is a put.
    pub(crate) fn is_put(&self) -> bool
        ensures { result ≡ is_put self.now.work }
    {
        matches!(self.work, Work::Put { .. })
    }

    /// Whether it is a write or fill.
    pub(crate) fn is_write(&self) -> bool
        ensures { result ≡ is_write self.now.work }
    {
        matches!(self.work, Work::Write { .. })
    }

    /// Whether it is a read.
    pub(crate) fn is_read(&self) -> bool
        ensures { result ≡ is_read self.now.work }
    {
        matches!(self.work, Work::Read { .. })
    }

    /// The size that it cuts a file to.
    pub(crate) fn cut_size(&self) -> Option<u128>
        ensures { result ≡ cut_size self.now.work }
    {
        match self.work {
            Work::Truncate { size, .. } => Some(u128::from(size)),
            _ => None,
        }
    }

    /// The places that it writes, from the first to past the last.
    pub(crate) fn range(&self) -> Option<(u128, u128)>
        ensures { result ≡ range self.now.work }
    {
        match self.work {
            Work::Write { offset, length, .. } => Some(places(offset, length)),
            Work::Put { offset, length } => Some(places(offset, length)),
            _ => None,
        }
    }

    /// Whether it writes a place.
    pub(crate) fn covers(&self, place: u128) -> bool
        ensures { result ≡ covers self.now.work place }
    {
        match self.work {
            Work::Write { offset, length, .. } => within(offset, length, place),
            Work::Put { offset, length } => within(offset, length, place),
            _ => false,
        }
    }
}

/// So many places from an offset on: the first, and past the last.
fn places(offset: u64, length: usize) -> (u128, u128)
    ensures { result ≡ (offset, offset + length) }
{
    let from = u128::from(offset);
    (from, from + length as u128)
}

/// Whether a place is one of so many from an offset on.
fn within(offset: u64, length: usize, place: u128) -> bool
    ensures { result ≡ within offset length place }
{
    let from = u128::from(offset);
    from <= place && place < from + length as u128
}
