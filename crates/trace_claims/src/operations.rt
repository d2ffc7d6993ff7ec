//! Operations and the files that they are of.

ghost use Rattle.std.specs.Prelude.{◌≡◌};
ghost use Rattle.trace_claims.specs.Operations.{is_of, leads_to, named_is, writes_to, wrote_to, made_stable, cuts, writes_or_cuts, ends_pending};

use crate::courses::{Course, Work};
use nfs_types::Handle;

/// A file that a slot holds, and the place of the open by which it does.
#[derive(Clone, Copy, Debug)]
pub(crate) struct Hold {
    pub(crate) opened_at: usize,
    pub(crate) file: Handle,
}

/// A file to which a path leads from a moment on.
#[derive(Clone, Copy, Debug)]
pub(crate) struct Lead {
    pub(crate) file: Handle,
    pub(crate) since: usize,
}

/// An operation with its files.
#[derive(Debug, Drop)]
pub(crate) struct Operation {
    pub(crate) course: Course,
    /// The file that an open which succeeded found, or a put which succeeded wrote.
    pub(crate) named: Option<Handle>,
    /// The files that its slot holds as it begins.
    pub(crate) holds: Vec<Hold>,
    /// The files to which a put's path leads, up to its end.
    pub(crate) leads: Vec<Lead>,
}

impl Operation {
    /// Whether its slot holds the file.
    pub(crate) fn is_of(&self, file: &Handle) -> bool
        ensures { result ≡ is_of self.now file.now }
    {
        self.holds.iter().any(|hold| hold.file == *file)
    }

    /// Whether its path leads to the file in a beginning of so many entries.
    fn leads_to(&self, length: usize, file: &Handle) -> bool
        ensures { result ≡ leads_to self.now length file.now }
    {
        let end = self.course.ending.end.min(length);
        self.leads
            .iter()
            .any(|lead| lead.file == *file && lead.since <= end)
    }

    /// Whether it is an open or put that succeeded, of the file.
    pub(crate) fn is_named(&self, file: &Handle) -> bool
        ensures { result ≡ named_is file.now self.now.named }
    {
        match &self.named {
            Some(named) => *named == *file,
            None => false,
        }
    }

    /// Whether it writes to the file in a beginning of so many entries, whatever becomes of it.
    pub(crate) fn writes_to(&self, length: usize, file: &Handle) -> bool
        ensures { result ≡ writes_to self.now length file.now }
    {
        match self.course.work {
            Work::Write { .. } => self.is_of(file),
            Work::Put { .. } => self.leads_to(length, file),
            _ => false,
        }
    }

    /// Whether it is a write, fill or put of the file that succeeded in a beginning of so many entries.
    pub(crate) fn wrote_to(&self, length: usize, file: &Handle) -> bool
        ensures { result ≡ wrote_to self.now length file.now }
    {
        if !self.course.is_done(length) {
            return false;
        }
        match self.course.work {
            Work::Write { .. } => self.is_of(file),
            Work::Put { .. } => self.is_named(file),
            _ => false,
        }
    }

    /// Whether it is a sync, close or put of the file that succeeded in a beginning of so many entries.
    pub(crate) fn made_stable(&self, length: usize, file: &Handle) -> bool
        ensures { result ≡ made_stable self.now length file.now }
    {
        if !self.course.is_done(length) {
            return false;
        }
        match self.course.work {
            Work::Sync { .. } => self.is_of(file),
            Work::Close { .. } => self.is_of(file),
            Work::Put { .. } => self.is_named(file),
            _ => false,
        }
    }

    /// Whether it is a truncate of the file that cuts off a place.
    pub(crate) fn cuts(&self, file: &Handle, place: u128) -> bool
        ensures { result ≡ cuts self.now file.now place }
    {
        match self.course.work {
            Work::Truncate { size, .. } => u128::from(size) <= place && self.is_of(file),
            _ => false,
        }
    }

    /// Whether it writes a place of the file, unless that was refused, or cuts it off, in a beginning of so many entries.
    pub(crate) fn writes_or_cuts(&self, length: usize, file: &Handle, place: u128) -> bool
        ensures { result ≡ writes_or_cuts self.now length file.now place }
    {
        self.course.covers(place)
            && self.writes_to(length, file)
            && !(self.course.is_write() && self.course.is_refused(length))
            || self.cuts(file, place)
    }

    /// Whether it succeeded before a place, and covers, cuts off or settles a place of the file.
    pub(crate) fn ends_pending(&self, before: usize, file: &Handle, place: u128) -> bool
        ensures { result ≡ ends_pending self.now before file.now place }
    {
        self.course.is_done(before)
            && (self.made_stable(before, file)
                || self.course.covers(place) && self.wrote_to(before, file)
                || self.cuts(file, place))
    }
}
