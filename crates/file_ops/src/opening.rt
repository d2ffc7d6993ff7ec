//! How a file is found, or made, and opened.

ghost use Rattle.std.specs.Prelude.{◌≡◌, ◌≤◌, ◌<◌, Some, true, false, OnOk, OnErr};
ghost use Rattle.client_shelf.specs.Coming.{reply_of};
ghost use Rattle.file_ops.specs.Opening.{first_step, usual_set, making_of, call_of, waits, go_next, go_after, makes, is_missing, led_to, made, found, got, LookedAttrs, LookedNames, MadeAttrs, GotAttrs, NotesAttrs, NotesNames, FileOpened, at_step, led_after, LedTo, ends_busy, looks, may_again, counted, told_led, opening_again, opening_after, led_on, LedIf, known_by, known_led, known_step, known_at};
ghost use Rattle.client_shelf.specs.Busy.{repeats_after};
ghost use Rattle.file_ops.specs.PagesOpened.{opened_pages};
ghost use Rattle.page_cache.specs.Pages.{opened};
ghost use Rattle.file_ops.specs.Told.{got_by};
ghost use Rattle.file_ops.specs.declared.opening.OpeningPhase.TheVariants.{Look};

use crate::noting::{note_attr, note_create, note_look_up};
use crate::open_pages::open_pages;
use crate::put_off::MOST_TIMES;
use crate::told::{found_by, got_by, made_by};
use attr_cache::AttrCache;
use client_shelf::busy::{again, is_busy};
use client_shelf::{Came, Shelf, Turn};
use name_cache::NameCache;
use nfs_dir_calls::{DirCall, DirReply, Making};
use nfs_file_calls::FileCall;
use nfs_types::{Attr, Handle, Mode, Name, SetAttr, SetTime, Stamp};
use page_cache::PageCache;
use world_model::{Call, Fault};
use xdr_codec::Memory;

/// The call that an opening makes, or waits for.
#[derive(Clone, Copy, Debug, PartialEq, Eq)]
pub enum OpeningPhase {
    /// LOOKUP, before any CREATE.
    Look,
    /// CREATE.
    Make,
    /// LOOKUP, after a CREATE that gave no file handle.
    Find,
    /// GETATTR of the file.
    Ask(Handle),
}

/// What a step of an opening comes to.
#[derive(Debug, Drop)]
pub enum OpeningStep {
    /// It asks for this call.
    Send(Call),
    /// It waits for a reply or for room.
    Wait,
    /// It has its file, or was refused.
    Ended(Result<Handle, Fault>),
}

/// What a reply leads to.
#[derive(Clone, Copy, Debug)]
pub enum Led {
    /// To another call.
    Goes(OpeningPhase),
    /// The file is there, with these attributes.
    Opens(Handle, Attr),
    /// The file is there, in its known state, and isn't asked for its attributes.
    Knows(Handle, Stamp),
    /// To a refusal.
    Ends(Fault),
}

/// A file is found, or made, and its attributes are got.
#[derive(Clone, Copy, Debug)]
pub struct Opening {
    /// The directory.
    pub dir: Handle,
    /// The name in it.
    pub name: Name,
    /// What it is opened for.
    pub mode: Mode,
    /// Whether a file whose state is known isn't asked for its attributes.
    pub nocto: bool,
    /// The operation's own moment.
    pub moment: u64,
    /// The call that it makes next, or waits for.
    pub step: OpeningPhase,
    /// Whether it asked for that call.
    pub asked: bool,
    /// How often a LOOKUP of the name was put off (RFC 1813, NFS3ERR_JUKEBOX), before a CREATE and after it.
    pub put_off: u8,
}

impl Opening {
    /// It made no call yet.
    pub fn new(dir: &Handle, name: &Name, mode: Mode, nocto: bool, moment: u64) -> Opening
        ensures { result ≡ record { dir = dir.now; name = name.now; mode = mode; nocto = nocto; moment = moment; step = first_step mode; asked = false; put_off = 0 } }
    {
        Opening {
            dir: *dir,
            name: *name,
            mode,
            nocto,
            moment,
            step: match mode {
                Mode::X => OpeningPhase::Make,
                _ => OpeningPhase::Look,
            },
            asked: false,
            put_off: 0,
        }
    }

    /// Asks for its next call, if there is room.
    pub(crate) fn go(&mut self, turn: Turn) -> OpeningStep
        ensures next { result ≡ go_next self.old turn }
        ensures machine { self.new ≡ go_after self.old turn }
    {
        if self.asked || !turn.room {
            return OpeningStep::Wait;
        }
        self.asked = true;
        OpeningStep::Send(self.call())
    }

    /// Takes the reply to its call, which the step with the turn `sent` made. A call that is refused because the server is
    /// busy is made again.
    pub(crate) fn took(
        &mut self,
        sent: Turn,
        came: &Came<'_>,
        turn: Turn,
        shelf: &mut Shelf,
    ) -> OpeningStep
        requires { 1 ≤ turn.moment }
        ensures machine { self.new ≡ opening_after (opening_again self.old sent turn (reply_of came.now) shelf.old.repeats) self.old turn (led_on self.old turn.now (reply_of came.now) shelf.new.attrs shelf.old.pages) }
        ensures next { LedIf (opening_again self.old sent turn (reply_of came.now) shelf.old.repeats) self.old sent turn (led_on self.old turn.now (reply_of came.now) shelf.new.attrs shelf.old.pages) result shelf.old.pages shelf.new.pages }
        ensures attrs { NotesAttrs self.old sent.now (reply_of came.now) self.old.step shelf.old.attrs shelf.new.attrs }
        ensures names { NotesNames self.old (reply_of came.now) self.old.step shelf.old.names shelf.new.names }
        ensures repeats { shelf.new.repeats ≡ repeats_after (may_again self.old (told_led self.old (reply_of came.now))) sent turn shelf.old.repeats }
        ensures frame { shelf.new ≡ record shelf.old { pages = shelf.new.pages; attrs = shelf.new.attrs; names = shelf.new.names; repeats = shelf.new.repeats } }
    {
        let told = self.led(came);
        self.note(came, sent.now, &mut shelf.attrs, &mut shelf.names);
        if again(self.may_again(&told), sent, turn, &mut shelf.repeats) {
            let call = self.call();
            self.count();
            return OpeningStep::Send(call);
        }
        let led = self.known(told, turn.now, &shelf.attrs, &shelf.pages);
        self.lead(led, sent, turn, &mut shelf.pages)
    }

    /// Whether its call may be made again: the server is busy, and a LOOKUP of the name was put off fewer than three times.
    fn may_again(&self, told: &Led) -> bool
        ensures { result ≡ may_again self.now told.now }
    {
        ends_busy(told) && (!looks(&self.step) || self.put_off < MOST_TIMES)
    }

    /// A LOOKUP of the name was put off once more.
    fn count(&mut self)
        requires few { looks self.old.step ≡ true → self.old.put_off < 3 }
        ensures { self.new ≡ counted self.old }
    {
        if looks(&self.step) {
            self.put_off += 1;
        }
    }

    /// Goes to where the reply leads.
    fn lead(&mut self, led: Led, sent: Turn, turn: Turn, pages: &mut PageCache) -> OpeningStep
        requires { 1 ≤ turn.moment }
        ensures machine { self.new ≡ led_after self.old turn led }
        ensures next { LedTo self.old sent turn led result pages.old pages.new }
    {
        match led {
            Led::Goes(step) => self.go_to(step, turn),
            Led::Opens(file, attr) => {
                OpeningStep::Ended(self.open_pages(file, attr, sent, turn, pages))
            }
            Led::Knows(file, stamp) => OpeningStep::Ended(self.open_known(file, stamp, pages)),
            Led::Ends(fault) => OpeningStep::Ended(Err(fault)),
        }
    }

    /// Goes to another call.
    fn go_to(&mut self, step: OpeningPhase, turn: Turn) -> OpeningStep
        ensures machine { self.new ≡ go_after (at_step self.old step) turn }
        ensures next { result ≡ go_next (at_step self.old step) turn }
    {
        self.step = step;
        self.asked = false;
        self.go(turn)
    }

    /// The pages of the file follow what GETATTR showed.
    fn open_pages(
        &self,
        file: Handle,
        attr: Attr,
        sent: Turn,
        turn: Turn,
        pages: &mut PageCache,
    ) -> Result<Handle, Fault>
        requires { 1 ≤ turn.moment }
        ensures { FileOpened file (opened_pages file attr self.now.moment sent turn pages.old) result pages.old pages.new }
    {
        match open_pages(&file, &attr, self.moment, sent, turn, pages) {
            Ok(()) => Ok(file),
            Err(Memory) => Err(Fault::Memory),
        }
    }

    /// The pages of the file stay as they are known.
    fn open_known(&self, file: Handle, stamp: Stamp, pages: &mut PageCache) -> Result<Handle, Fault>
        ensures { FileOpened file (opened file stamp self.now.moment pages.old) result pages.old pages.new }
    {
        match pages.opened(&file, &stamp, self.moment) {
            Ok(()) => Ok(file),
            Err(Memory) => Err(Fault::Memory),
        }
    }

    /// What a reply leads to if a file that is known needs no GETATTR.
    fn known(&self, led: Led, now: u64, attrs: &AttrCache, pages: &PageCache) -> Led
        ensures { result ≡ known_by self.now.nocto led now attrs.now pages.now }
    {
        if self.nocto {
            known_led(led, now, attrs, pages)
        } else {
            led
        }
    }

    /// What the reply to its call leads to.
    fn led(&self, came: &Came<'_>) -> Led
        ensures { result ≡ led_to self.now.mode self.now.step (reply_of came.now) }
    {
        match self.step {
            OpeningPhase::Look => looked(self.mode, came),
            OpeningPhase::Make => made(made_by(came)),
            OpeningPhase::Find => found(found_by(came)),
            OpeningPhase::Ask(file) => got(file, got_by(came)),
        }
    }

    /// Learns of the reply to its call.
    fn note(&self, came: &Came<'_>, now: u64, attrs: &mut AttrCache, names: &mut NameCache)
        ensures attrs { NotesAttrs self.now now (reply_of came.now) self.now.step attrs.old attrs.new }
        ensures names { NotesNames self.now (reply_of came.now) self.now.step names.old names.new }
    {
        match self.step {
            OpeningPhase::Look => note_look_up(&self.dir, &self.name, came, now, attrs, names),
            OpeningPhase::Make => note_create(&self.dir, came, now, attrs, names),
            OpeningPhase::Find => note_look_up(&self.dir, &self.name, came, now, attrs, names),
            OpeningPhase::Ask(file) => note_attr(&file, got_by(came), now, attrs),
        }
    }

    /// The call of its step.
    fn call(&self) -> Call
        ensures { result ≡ call_of self.now self.now.step }
    {
        match self.step {
            OpeningPhase::Look => self.look_up(),
            OpeningPhase::Make => Call::Dir(DirCall::Create {
                dir: self.dir,
                name: self.name,
                making: making(self.mode),
            }),
            OpeningPhase::Find => self.look_up(),
            OpeningPhase::Ask(file) => Call::File(FileCall::GetAttr { file }),
        }
    }

    fn look_up(&self) -> Call
        ensures { result ≡ call_of self.now Look }
    {
        Call::Dir(DirCall::Lookup {
            dir: self.dir,
            name: self.name,
        })
    }
}

/// X makes a file that may not be there, C one that may. The mode is 0644, and nothing else is set.
fn making(mode: Mode) -> Making
    ensures { result ≡ making_of mode }
{
    let set = SetAttr {
        mode: Some(0o644),
        uid: None,
        gid: None,
        size: None,
        atime: SetTime::Keep,
        mtime: SetTime::Keep,
    };
    match mode {
        Mode::X => Making::Guarded(set),
        _ => Making::Unchecked(set),
    }
}

/// After the LOOKUP before any CREATE.
fn looked(mode: Mode, came: &Came<'_>) -> Led
    ensures { result ≡ led_to mode Look (reply_of came.now) }
{
    if makes(mode, came) {
        Led::Goes(OpeningPhase::Make)
    } else {
        found(found_by(came))
    }
}

/// Mode C makes a file that isn't there.
fn makes(mode: Mode, came: &Came<'_>) -> bool
    ensures { result ≡ makes mode (reply_of came.now) }
{
    match mode {
        Mode::C => is_missing(came),
        _ => false,
    }
}

/// Whether LOOKUP found nothing of that name.
fn is_missing(came: &Came<'_>) -> bool
    ensures { result ≡ is_missing (reply_of came.now) }
{
    match came {
        Came::Dir(reply) => match reply {
            DirReply::LookupFail { status, .. } => status.0 == 2,
            _ => false,
        },
        Came::File(_) => false,
        Came::Refused(_) => false,
    }
}

/// After CREATE.
fn made(reply: Result<Option<Handle>, Fault>) -> Led
    ensures { result ≡ made reply }
{
    match reply {
        Ok(Some(found)) => Led::Goes(OpeningPhase::Ask(found)),
        Ok(None) => Led::Goes(OpeningPhase::Find),
        Err(fault) => Led::Ends(fault),
    }
}

/// After LOOKUP.
fn found(reply: Result<Handle, Fault>) -> Led
    ensures { result ≡ found reply }
{
    match reply {
        Ok(file) => Led::Goes(OpeningPhase::Ask(file)),
        Err(fault) => Led::Ends(fault),
    }
}

/// After GETATTR.
fn got(file: Handle, reply: Result<Attr, Fault>) -> Led
    ensures { result ≡ got file reply }
{
    match reply {
        Ok(attr) => {
            if attr.kind == 1 {
                Led::Opens(file, attr)
            } else {
                Led::Ends(Fault::Kind)
            }
        }
        Err(fault) => Led::Ends(fault),
    }
}

/// Whether the name is looked up.
fn looks(step: &OpeningPhase) -> bool
    ensures { result ≡ looks step.now }
{
    match step {
        OpeningPhase::Look => true,
        OpeningPhase::Find => true,
        OpeningPhase::Make => false,
        OpeningPhase::Ask(_) => false,
    }
}

/// Whether a reply leads to a refusal because the server is busy.
fn ends_busy(led: &Led) -> bool
    ensures { result ≡ ends_busy led.now }
{
    match led {
        Led::Goes(_) => false,
        Led::Opens(_, _) => false,
        Led::Knows(_, _) => false,
        Led::Ends(fault) => is_busy(fault),
    }
}

/// What a reply leads to if a file whose attributes are believed, and show the state in which its pages are kept, needs no
/// GETATTR.
fn known_led(led: Led, now: u64, attrs: &AttrCache, pages: &PageCache) -> Led
    ensures { result ≡ known_led led now attrs.now pages.now }
{
    match led {
        Led::Goes(step) => known_step(step, now, attrs, pages),
        Led::Opens(_, _) => led,
        Led::Knows(_, _) => led,
        Led::Ends(_) => led,
    }
}

/// The same if it leads to another call.
fn known_step(step: OpeningPhase, now: u64, attrs: &AttrCache, pages: &PageCache) -> Led
    ensures { result ≡ known_step step now attrs.now pages.now }
{
    match step {
        OpeningPhase::Ask(file) => known_at(file, attrs.look(&file, now), pages.stamp(&file)),
        OpeningPhase::Look => Led::Goes(OpeningPhase::Look),
        OpeningPhase::Make => Led::Goes(OpeningPhase::Make),
        OpeningPhase::Find => Led::Goes(OpeningPhase::Find),
    }
}

/// The same of a file with these attributes and this known state.
fn known_at(file: Handle, attr: Option<Attr>, known: Option<Stamp>) -> Led
    ensures { result ≡ known_at file attr known }
{
    let (Some(attr), Some(stamp)) = (attr, known) else {
        return Led::Goes(OpeningPhase::Ask(file));
    };
    if attr.kind == 1 && attr.stamp() == stamp {
        Led::Knows(file, stamp)
    } else {
        Led::Goes(OpeningPhase::Ask(file))
    }
}
