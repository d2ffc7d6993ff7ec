//! A truncate: the SETATTR of the size of a file.

ghost use Rattle.std.specs.Prelude.{◌≡◌, ◌≤◌, ◌-◌, [], if◌then◌else◌};
ghost use Rattle.page_cache.specs.Pages.{wrote};
ghost use Rattle.file_ops.specs.Saves.{untold};
ghost use Rattle.client_shelf.specs.Coming.{reply_of};
ghost use Rattle.file_ops.specs.declared.truncate_file.Truncating.TheVariants.{Idle};
ghost use Rattle.client_shelf.specs.Busy.{fails_busy};
ghost use Rattle.client_shelf.specs.Learning.{Learns};
ghost use Rattle.write_back.specs.Files.{all_pending};
ghost use Rattle.file_ops.specs.Quiet.{is_quiet};
ghost use Rattle.file_ops.specs.TruncateFile.{size_call, queued_next, queued_state, started_next, started_state, started_shelf, resumed_next, resumed_state, size_told, attr_told, leaves_pages, told_pages, CutsQuiet, CutsBack, ended_shelf, ended_next, ended_state, size_again, took_next, took_state, took_shelf, TookAttrs, TookBack};

use crate::failing::drop_pages;
use crate::opens::file_to_write;
use crate::quiet::is_quiet;
use client_shelf::busy::{again, is_busy};
use client_shelf::learning::learn;
use client_shelf::unmade::is_unmade;
use client_shelf::{Came, Shelf, Step, Turn};
use nfs_file_calls::{FileCall, FileReply};
use nfs_types::{Attr, Handle, SetAttr, SetTime, Wcc};
use page_cache::PageCache;
use world_model::{Answer, Call, Fault, Value};
use write_back::WriteBack;

/// How far a truncate has come.
#[derive(Clone, Copy, Debug)]
pub enum Truncating {
    /// It holds no place in the order of its file.
    Idle,
    /// It waits for its turn. `upto` was the last number of a write when it began.
    Queued {
        /// Its file.
        file: Handle,
        /// The last number of a write when it began.
        upto: u64,
    },
    /// It waits for the reply to its SETATTR.
    Asked {
        /// Its file.
        file: Handle,
        /// The last number of a write when it began.
        upto: u64,
    },
}

/// Gives the file of a slot a size.
#[derive(Clone, Copy, Debug)]
pub struct TruncateFile {
    /// The lane that does it.
    pub lane: u8,
    /// The slot of that lane.
    pub slot: u8,
    /// The size in bytes.
    pub size: u64,
    /// How far it has come.
    pub state: Truncating,
}

impl TruncateFile {
    /// A truncate that hasn't started.
    pub fn new(lane: u8, slot: u8, size: u64) -> TruncateFile
        ensures { result ≡ record { lane = lane; slot = slot; size = size; state = Idle } }
    {
        TruncateFile {
            lane,
            slot,
            size,
            state: Truncating::Idle,
        }
    }

    /// The first step: it takes its place in the order of its file.
    pub fn start(&mut self, turn: Turn, shelf: &mut Shelf) -> Step
        ensures next { result ≡ started_next self.old turn shelf.old }
        ensures machine { self.new ≡ record self.old { state = started_state self.old turn shelf.old } }
        ensures shelf { shelf.new ≡ started_shelf self.old shelf.old }
    {
        match file_to_write(&shelf.opens, self.lane, self.slot) {
            Ok(file) => {
                shelf.order.join(self.lane, &file);
                self.queue(file, shelf.seq, turn, shelf)
            }
            Err(fault) => {
                self.state = Truncating::Idle;
                Step::Done(Answer::Refused(fault))
            }
        }
    }

    /// A step that no reply made possible.
    pub fn resume(&mut self, turn: Turn, shelf: &mut Shelf) -> Step
        ensures next { result ≡ resumed_next self.old.state self.old turn shelf.old }
        ensures machine { self.new ≡ record self.old { state = resumed_state self.old.state self.old turn shelf.old } }
        ensures shelf { shelf.new ≡ shelf.old }
    {
        let state = self.state;
        match state {
            Truncating::Queued { file, upto } => self.queue(file, upto, turn, shelf),
            Truncating::Idle | Truncating::Asked { .. } => Step::Wait,
        }
    }

    /// The step at the reply to its call.
    pub fn took(&mut self, sent: Turn, came: &Came<'_>, turn: Turn, shelf: &mut Shelf) -> Step
        requires moment { 1 ≤ turn.moment }
        ensures next { result ≡ took_next self.old.state self.old (reply_of came.now) sent turn shelf.old.repeats }
        ensures machine { self.new ≡ record self.old { state = took_state self.old.state (reply_of came.now) sent turn shelf.old.repeats } }
        ensures back { TookBack self.old.state self.old (reply_of came.now) shelf.old.back shelf.new.back }
        ensures total { all_pending shelf.new.back ≤ all_pending shelf.old.back }
        ensures attrs { TookAttrs self.old.state (reply_of came.now) sent.now shelf.old.attrs shelf.new.attrs }
        ensures shelf { shelf.new ≡ took_shelf self.old.state self.old (reply_of came.now) sent turn shelf.new.attrs shelf.new.back shelf.old }
    {
        let state = self.state;
        match state {
            Truncating::Asked { file, upto } => self.end(&file, upto, sent, came, turn, shelf),
            Truncating::Idle | Truncating::Queued { .. } => Step::Wait,
        }
    }

    /// In the order of its file: it asks when its turn has come.
    fn queue(&mut self, file: Handle, upto: u64, turn: Turn, shelf: &Shelf) -> Step
        ensures next { result ≡ queued_next self.old file turn shelf.now }
        ensures machine { self.new ≡ record self.old { state = queued_state self.old file upto turn shelf.now } }
    {
        if turn.room && shelf.order.is_first(self.lane) && is_quiet(&shelf.back, &file) {
            self.state = Truncating::Asked { file, upto };
            Step::Send(size_call(file, self.size))
        } else {
            self.state = Truncating::Queued { file, upto };
            Step::Wait
        }
    }

    /// At the reply to its SETATTR; it is made again if the server is busy.
    fn end(
        &mut self,
        file: &Handle,
        upto: u64,
        sent: Turn,
        came: &Came<'_>,
        turn: Turn,
        shelf: &mut Shelf,
    ) -> Step
        requires moment { 1 ≤ turn.moment }
        ensures next { result ≡ ended_next (size_again (reply_of came.now) sent turn shelf.old.repeats) self.old file.now (reply_of came.now) }
        ensures machine { self.new ≡ record self.old { state = ended_state (size_again (reply_of came.now) sent turn shelf.old.repeats) self.old.state } }
        ensures back { CutsBack (size_told (reply_of came.now)) file.now self.old.size upto shelf.old.back shelf.new.back }
        ensures total { all_pending shelf.new.back ≤ all_pending shelf.old.back }
        ensures attrs { Learns file.now (attr_told (reply_of came.now)) sent.now shelf.old.attrs shelf.new.attrs }
        ensures shelf { shelf.new ≡ ended_shelf self.old file.now (reply_of came.now) sent turn shelf.new.attrs shelf.new.back shelf.old }
    {
        let told = size_told(came);
        learn(&mut shelf.attrs, file, &attr_told(came), sent.now);
        show_size(&mut shelf.pages, file, &told, self.size, turn.moment - 1);
        cut_pending(&mut shelf.back, file, &told, self.size, upto);
        if again(size_busy(&told), sent, turn, &mut shelf.repeats) {
            return Step::Send(size_call(*file, self.size));
        }
        shelf.order.leave(self.lane);
        self.state = Truncating::Idle;
        match told {
            Ok(_) => Step::Done(Answer::Done(Value::Nothing)),
            Err(fault) => Step::Done(Answer::Refused(fault)),
        }
    }
}

/// The call that gives a file this size and sets nothing else.
fn size_call(file: Handle, size: u64) -> Call
    ensures { result ≡ size_call file size }
{
    let set = SetAttr {
        mode: None,
        uid: None,
        gid: None,
        size: Some(size),
        atime: SetTime::Keep,
        mtime: SetTime::Keep,
    };
    Call::File(FileCall::SetAttr {
        file,
        set,
        guard: None,
    })
}

/// What came of the SETATTR.
fn size_told(came: &Came<'_>) -> Result<Wcc, Fault>
    ensures { result ≡ size_told (reply_of came.now) }
{
    match came {
        Came::File(FileReply::SetAttr { wcc }) => Ok(*wcc),
        Came::File(FileReply::SetAttrFail { status, .. }) => Err(Fault::Nfs(status.0)),
        Came::File(_) | Came::Dir(_) => Err(Fault::Bad(2)),
        Came::Refused(fault) => Err(*fault),
    }
}

/// Whether it was refused because the server is busy.
fn size_busy(told: &Result<Wcc, Fault>) -> bool
    ensures { result ≡ fails_busy told.now }
{
    match told {
        Ok(_) => false,
        Err(fault) => is_busy(fault),
    }
}

/// The attributes in a reply.
fn attr_told(came: &Came<'_>) -> Option<Attr>
    ensures { result ≡ attr_told (reply_of came.now) }
{
    match came {
        Came::File(FileReply::SetAttr { wcc }) => wcc.after,
        Came::File(FileReply::SetAttrFail { wcc, .. }) => wcc.after,
        Came::File(_) | Came::Dir(_) | Came::Refused(_) => None,
    }
}

/// Kept pages follow the new size, and may be dropped if it wasn't set.
fn show_size(
    pages: &mut PageCache,
    file: &Handle,
    told: &Result<Wcc, Fault>,
    size: u64,
    moment: u64,
)
    ensures { pages.new ≡ told_pages told.now file.now size moment pages.old }
{
    match told {
        Ok(wcc) => pages.cut(file, wcc, size, moment),
        Err(fault) => note_unset(file, fault, moment, pages),
    }
}

/// The size wasn't set. If it isn't known whether the call was executed the pages are dropped.
fn note_unset(file: &Handle, fault: &Fault, moment: u64, pages: &mut PageCache)
    ensures { pages.new ≡ (if leaves_pages fault.now then pages.old else wrote file.now untold 0 [] moment pages.old) }
{
    if leaves_pages(fault) {
        return;
    }
    drop_pages(file, moment, pages);
}

/// Whether a SETATTR that failed leaves the kept pages: the server refused it, or it couldn't be made.
fn leaves_pages(fault: &Fault) -> bool
    ensures { result ≡ leaves_pages fault.now }
{
    match *fault {
        Fault::Nfs(_) => true,
        _ => is_unmade(fault),
    }
}

/// Pending bytes from the new end on go, if it was set.
fn cut_pending(back: &mut WriteBack, file: &Handle, told: &Result<Wcc, Fault>, size: u64, upto: u64)
    ensures back { CutsBack told.now file.now size upto back.old back.new }
    ensures total { all_pending back.new ≤ all_pending back.old }
{
    if told.is_ok() {
        cut_quiet(back, file, size, upto);
    }
}

/// The same, if nothing of the file is in flight.
fn cut_quiet(back: &mut WriteBack, file: &Handle, size: u64, upto: u64)
    ensures back { CutsQuiet (is_quiet file.now back.old) file.now size upto back.old back.new }
    ensures total { all_pending back.new ≤ all_pending back.old }
{
    if is_quiet(back, file) {
        back.cut(file, size, upto);
    }
}
