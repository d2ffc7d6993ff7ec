//! The names of a directory are listed, page by page.

ghost use Rattle.std.specs.Prelude.{◌≡◌, []};
ghost use Rattle.client_shelf.specs.Busy.{fails_busy};
ghost use Rattle.client_shelf.specs.Coming.{reply_of};
ghost use Rattle.name_ops.specs.ListDir.{first_page, list_of, page_call, page_attr, page_heard, refusal_of, more_next, more_after, Ends, GoesOn, TakesPage, refused_next, Follows, ListsPage, TakesList};
ghost use Rattle.name_ops.specs.Visiting.{next_by, visit_next, visit_after, visit_shelf};

use crate::visit::{Visit, VisitStep};
use client_shelf::busy::{again, is_busy};
use client_shelf::learning::learn;
use client_shelf::{Came, Shelf, Step, Turn};
use dir_list::{ListFault, ListStep, Listing};
use nfs_dir_calls::{DirCall, DirReply, PlusPage};
use nfs_types::{Attr, Handle, Verf};
use std::alloc::Global;
use world_model::{Answer, Call, Fault, Path, Value};

/// The most bytes of names and cookies that a page is to have.
const NAME_BYTES: u32 = 8192;

/// The most bytes that the reply with a page is to have.
const PAGE_BYTES: u32 = 32_768;

/// Where a page begins (RFC 1813, section 3.3.17, cookie and cookieverf).
#[derive(Clone, Copy, Debug, PartialEq, Eq)]
pub struct PageStart {
    /// The cookie of the entry before it; 0 for the first page.
    pub cookie: u64,
    /// The verifier of the page before it; zeros for the first one.
    pub verf: Verf,
}

/// A page that came.
#[derive(Drop)]
pub(crate) struct PageHeard<'a> {
    /// Its entries.
    page: PlusPage<'a>,
    /// The verifier for the next page.
    verf: Verf,
    /// Whether it is the last one.
    eof: bool,
}

/// Lists the names of a directory.
#[derive(Drop)]
pub struct ListDir {
    /// Finds the directory. After its end it tells whether a page was asked for.
    pub visit: Visit,
    /// The names of the pages so far.
    pub listing: Listing,
    /// Where the page begins that was asked for, or is to be.
    pub place: PageStart,
}

impl ListDir {
    /// It is to list the directory to which the path leads. It takes no memory.
    pub fn new(alloc: Global, root: &Handle, path: Path) -> ListDir
        ensures { result ≡ list_of root.now path }
    {
        ListDir {
            visit: Visit::new(root, path),
            listing: Listing::new(alloc),
            place: PageStart {
                cookie: 0,
                verf: Verf([0; 8]),
            },
        }
    }

    /// The first step.
    pub fn start(&mut self, turn: Turn, shelf: &mut Shelf) -> Step
        ensures next { result ≡ next_by (page_call self.old.place) (visit_next self.old.visit turn shelf.old) }
        ensures machine { self.new ≡ record self.old { visit = visit_after self.old.visit turn shelf.old } }
        ensures shelf { shelf.new ≡ visit_shelf self.old.visit turn shelf.old }
    {
        self.resume(turn, shelf)
    }

    /// A step that no reply made possible.
    pub fn resume(&mut self, turn: Turn, shelf: &mut Shelf) -> Step
        ensures next { result ≡ next_by (page_call self.old.place) (visit_next self.old.visit turn shelf.old) }
        ensures machine { self.new ≡ record self.old { visit = visit_after self.old.visit turn shelf.old } }
        ensures shelf { shelf.new ≡ visit_shelf self.old.visit turn shelf.old }
    {
        let step = self.visit.go(turn, shelf);
        self.next_of(step)
    }

    /// The step at what came of its call, which the step with the turn `sent` made.
    pub fn took(
        &mut self,
        alloc: Global,
        sent: Turn,
        came: &Came<'_>,
        turn: Turn,
        shelf: &mut Shelf,
    ) -> Step
        ensures { TakesList self.old.visit.asked self.old sent turn (reply_of came.now) shelf.old result self.new shelf.new }
    {
        if self.visit.asked {
            return self.take(alloc, sent, came, turn, shelf);
        }
        let step = self.visit.took(sent, came, turn, shelf);
        self.next_of(step)
    }

    /// Takes the reply to its READDIRPLUS.
    fn take(
        &mut self,
        alloc: Global,
        sent: Turn,
        came: &Came<'_>,
        turn: Turn,
        shelf: &mut Shelf,
    ) -> Step
        ensures { ListsPage self.old sent turn (reply_of came.now) shelf.old result self.new shelf.new }
    {
        let dir = self.visit.walk.spot.dir;
        learn(&mut shelf.attrs, &dir, &page_attr(came), sent.now);
        let heard = page_heard(came);
        let is_again = again(page_busy(&heard), sent, turn, &mut shelf.repeats);
        self.follow(alloc, heard, is_again, turn.room)
    }

    /// Goes to where the reply leads.
    fn follow(
        &mut self,
        alloc: Global,
        heard: Result<PageHeard<'_>, Fault>,
        is_again: bool,
        room: bool,
    ) -> Step
        ensures { Follows heard.entry is_again room self.old result self.new }
    {
        match heard {
            Ok(heard) => self.take_page(alloc, heard, room),
            Err(fault) => self.refuse(is_again, fault),
        }
    }

    /// The same call again, or the refusal.
    fn refuse(&self, is_again: bool, fault: Fault) -> Step
        ensures { result ≡ refused_next is_again fault self.now }
    {
        if is_again {
            Step::Send(ask_page(self.place, self.visit.walk.spot.dir))
        } else {
            Step::Done(Answer::Refused(fault))
        }
    }

    /// The names of a page join those of the pages before it.
    fn take_page(&mut self, alloc: Global, heard: PageHeard<'_>, room: bool) -> Step
        ensures { TakesPage heard.entry room self.old result self.new }
    {
        match self.listing.page(heard.page, heard.verf, heard.eof) {
            Ok(step) => self.go_on(alloc, step, room),
            Err(fault) => Step::Done(Answer::Refused(refusal_of(fault))),
        }
    }

    /// Asks for the next page, or ends.
    fn go_on(&mut self, alloc: Global, step: ListStep, room: bool) -> Step
        ensures { GoesOn step room self.old result self.new }
    {
        match step {
            ListStep::More { cookie, verf } => self.ask_more(PageStart { cookie, verf }, room),
            ListStep::End => self.end(alloc),
        }
    }

    /// Asks for the page that begins there, as soon as there is room.
    fn ask_more(&mut self, place: PageStart, room: bool) -> Step
        ensures next { result ≡ more_next place room self.old }
        ensures machine { self.new ≡ more_after place room self.old }
    {
        self.place = place;
        self.visit.asked = room;
        if room {
            Step::Send(ask_page(place, self.visit.walk.spot.dir))
        } else {
            Step::Wait
        }
    }

    /// The names are the answer.
    fn end(&mut self, alloc: Global) -> Step
        ensures { Ends self.old result self.new }
    {
        let listing = std::mem::replace(&mut self.listing, Listing::new(alloc));
        Step::Done(Answer::Done(Value::Names(listing.finish())))
    }

    /// A step of the visit as one of the operation.
    fn next_of(&self, step: VisitStep) -> Step
        ensures { result ≡ next_by (page_call self.now.place) step }
    {
        match step {
            VisitStep::Look(call) => Step::Send(call),
            VisitStep::Wait => Step::Wait,
            VisitStep::Ask(dir) => Step::Send(ask_page(self.place, dir)),
            VisitStep::Refused(fault) => Step::Done(Answer::Refused(fault)),
        }
    }
}

/// The call.
fn ask_page(place: PageStart, dir: Handle) -> Call
    ensures { result ≡ page_call place dir }
{
    Call::Dir(DirCall::ReadDirPlus {
        dir,
        cookie: place.cookie,
        verf: place.verf,
        dircount: NAME_BYTES,
        maxcount: PAGE_BYTES,
    })
}

/// The attributes of the directory in the reply.
fn page_attr(came: &Came<'_>) -> Option<Attr>
    ensures { result ≡ page_attr (reply_of came.now) }
{
    match came {
        Came::Dir(reply) => match reply {
            DirReply::ReadDirPlus { attr, .. } => *attr,
            DirReply::ReadDirPlusFail { attr, .. } => *attr,
            _ => None,
        },
        Came::File(_) => None,
        Came::Refused(_) => None,
    }
}

/// The page in the reply.
fn page_heard<'a>(came: &Came<'a>) -> Result<PageHeard<'a>, Fault>
    ensures { result ≡ page_heard (reply_of came.now) }
{
    match came {
        Came::Dir(reply) => match reply {
            DirReply::ReadDirPlus {
                verf,
                page,
                eof,
                ..
            } => Ok(PageHeard {
                page: page.again(),
                verf: *verf,
                eof: *eof,
            }),
            DirReply::ReadDirPlusFail { status, .. } => Err(Fault::Nfs(status.0)),
            _ => Err(Fault::Bad(2)),
        },
        Came::File(_) => Err(Fault::Bad(2)),
        Came::Refused(fault) => Err(*fault),
    }
}

/// Whether the call was refused because the server is busy.
fn page_busy(heard: &Result<PageHeard<'_>, Fault>) -> bool
    ensures { result ≡ fails_busy heard.now }
{
    match heard {
        Ok(_) => false,
        Err(fault) => is_busy(fault),
    }
}

/// Why a listing can't go on.
fn refusal_of(fault: ListFault) -> Fault
    ensures { result ≡ refusal_of fault }
{
    match fault {
        ListFault::Many => Fault::Many,
        ListFault::Stuck => Fault::Bad(6),
        ListFault::Memory => Fault::Memory,
    }
}
