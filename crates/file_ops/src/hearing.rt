//! What a read makes of a reply.

ghost use Rattle.std.specs.Prelude.{◌≡◌, ◌≤◌, ◌+◌, ◌%◌, ◌==◌, option_map, Some};
ghost use Rattle.client_shelf.specs.Coming.{reply_of};
ghost use Rattle.client_shelf.specs.Busy.{is_busy, fails_busy, goes_again, repeats_after};
ghost use Rattle.file_ops.specs.Told.{got_by};
ghost use Rattle.client_shelf.specs.Learning.{Learns};
ghost use Rattle.file_ops.specs.ReadReply.{said_of, says_busy};
ghost use Rattle.file_ops.specs.Reading.{noted, phase_then, added, heard, waits_attrs, part_call, count_of, attr_in, attr_of, attr_got, told, refused_next, Tells, TakesAttr, TakesAttrs, repeats_taken, Takes};

use crate::base::{Base, PAGE};
use crate::offer::offer_all;
use crate::open_pages::open_pages;
use crate::read_reply::{ReadSaid, read_reply};
use crate::reading::{Phase, Reading};
use crate::told::got_by;
use attr_cache::AttrCache;
use client_shelf::busy::{again, is_busy};
use client_shelf::learning::learn;
use client_shelf::{Came, Repeats, Step, Turn};
use nfs_file_calls::FileCall;
use nfs_types::{Attr, Handle};
use page_cache::PageCache;
use std::alloc::Global;
use world_model::{Answer, Call, Fault};
use write_back::WriteBack;
use xdr_codec::{Lent, Memory};

impl Reading {
    /// The reply to its call came, which the step with the turn `sent` made.
    pub(crate) fn took(
        &mut self,
        alloc: Global,
        sent: Turn,
        came: &Came<'_>,
        turn: Turn,
        attrs: &mut AttrCache,
        pages: &mut PageCache,
        repeats: &mut Repeats,
        back: &WriteBack,
    ) -> Step
        requires { 1 ≤ turn.moment }
        ensures step { Takes sent turn (reply_of came.now) repeats.old self.old pages.old back.now result (record { reading = self.new; pages = pages.new }) }
        ensures attrs { Learns self.old.file (attr_of self.old.phase (reply_of came.now)) sent.now attrs.old attrs.new }
        ensures repeats { repeats.new ≡ repeats_taken self.old.phase sent turn (reply_of came.now) repeats.old }
    {
        if self.waits_attrs() {
            return self.take_attrs(alloc, sent, got_by(came), turn, attrs, pages, repeats, back);
        }
        match self.heard(came) {
            Some(said) => self.tell(alloc, sent, said, turn, attrs, pages, repeats, back),
            None => Step::Wait,
        }
    }

    /// Whether it waits for attributes.
    fn waits_attrs(&self) -> bool
        ensures { result ≡ waits_attrs self.now.phase }
    {
        match self.phase {
            Phase::Attrs => false,
            Phase::AskedAttrs => true,
            Phase::Pages => false,
            Phase::Rest => false,
            Phase::Asked(_) => false,
            Phase::Ended => false,
        }
    }

    /// What it hears of a part, if it has asked for one.
    fn heard<'a>(&self, came: &Came<'a>) -> Option<ReadSaid<'a>>
        ensures { option_map said_of result ≡ heard self.now.phase (reply_of came.now) }
    {
        match self.phase {
            Phase::Attrs => None,
            Phase::AskedAttrs => None,
            Phase::Pages => None,
            Phase::Rest => None,
            Phase::Asked(count) => Some(read_reply(came, count)),
            Phase::Ended => None,
        }
    }

    /// The attributes came, or were refused.
    fn take_attrs(
        &mut self,
        alloc: Global,
        sent: Turn,
        reply: Result<Attr, Fault>,
        turn: Turn,
        attrs: &mut AttrCache,
        pages: &mut PageCache,
        repeats: &mut Repeats,
        back: &WriteBack,
    ) -> Step
        requires { 1 ≤ turn.moment }
        ensures step { TakesAttrs (goes_again (fails_busy reply) sent turn repeats.old) reply sent turn self.old pages.old back.now result (record { reading = self.new; pages = pages.new }) }
        ensures attrs { Learns self.old.file (attr_got reply) sent.now attrs.old attrs.new }
        ensures repeats { repeats.new ≡ repeats_after (fails_busy reply) sent turn repeats.old }
    {
        match reply {
            Ok(attr) => {
                again(false, sent, turn, repeats);
                learn(attrs, &self.file, &Some(attr), sent.now);
                self.take_attr(alloc, sent, &attr, turn, pages, back)
            }
            Err(fault) => {
                if again(is_busy(&fault), sent, turn, repeats) {
                    return Step::Send(self.attrs_call());
                }
                Step::Done(Answer::Refused(fault))
            }
        }
    }

    /// The file's pages follow the attributes, and it goes on to take them.
    fn take_attr(
        &mut self,
        alloc: Global,
        sent: Turn,
        attr: &Attr,
        turn: Turn,
        pages: &mut PageCache,
        back: &WriteBack,
    ) -> Step
        requires { 1 ≤ turn.moment }
        ensures { TakesAttr attr.now sent turn self.old pages.old back.now result (record { reading = self.new; pages = pages.new }) }
    {
        match open_pages(&self.file, attr, self.moment, sent, turn, pages) {
            Ok(()) => {
                self.phase = Phase::Pages;
                self.go(alloc, turn.room, pages, back)
            }
            Err(Memory) => Step::Done(Answer::Refused(Fault::Memory)),
        }
    }

    /// It goes on after what was said.
    fn tell(
        &mut self,
        alloc: Global,
        sent: Turn,
        said: ReadSaid<'_>,
        turn: Turn,
        attrs: &mut AttrCache,
        pages: &mut PageCache,
        repeats: &mut Repeats,
        back: &WriteBack,
    ) -> Step
        ensures next { Tells (goes_again (says_busy (said_of said.entry)) sent turn repeats.old) sent turn (said_of said.entry) self.old pages.old back.now result }
        ensures state { record { reading = self.new; pages = pages.new } ≡ told sent turn (said_of said.entry) self.old pages.old }
        ensures attrs { Learns self.old.file (attr_in (said_of said.entry)) sent.now attrs.old attrs.new }
        ensures repeats { repeats.new ≡ repeats_after (says_busy (said_of said.entry)) sent turn repeats.old }
    {
        match said {
            ReadSaid::Part { attr, eof, bytes } => {
                again(false, sent, turn, repeats);
                learn(attrs, &self.file, &attr, sent.now);
                note(
                    pages,
                    &attr,
                    &self.file,
                    sent.moment,
                    self.base.end(),
                    &bytes,
                    eof,
                );
                self.add(alloc, eof, &bytes);
                self.go(alloc, turn.room, pages, back)
            }
            ReadSaid::Refusal { attr, fault } => {
                learn(attrs, &self.file, &attr, sent.now);
                self.refused(fault, sent, turn, repeats)
            }
        }
    }

    /// A part was refused: it is asked for again if the server is busy.
    fn refused(&self, fault: Fault, sent: Turn, turn: Turn, repeats: &mut Repeats) -> Step
        ensures next { result ≡ refused_next (goes_again (is_busy fault) sent turn repeats.old) fault self.now }
        ensures repeats { repeats.new ≡ repeats_after (is_busy fault) sent turn repeats.old }
    {
        if again(is_busy(&fault), sent, turn, repeats) {
            return Step::Send(self.part_call());
        }
        Step::Done(Answer::Refused(fault))
    }

    /// The call for the part that it has asked for.
    fn part_call(&self) -> Call
        ensures { result ≡ part_call self.now }
    {
        Call::File(FileCall::Read {
            file: self.file,
            offset: self.base.end(),
            count: self.asked_for(),
        })
    }

    /// A part of the file comes after its bytes.
    fn add(&mut self, alloc: Global, eof: bool, bytes: &Lent<'_>)
        ensures { self.new ≡ added (count_of self.old.phase) eof bytes.now self.old }
    {
        let count = self.asked_for();
        self.base.put_lent(alloc, bytes);
        self.phase = phase_then(count, eof, bytes, &self.base);
    }

    /// How many bytes it has asked for.
    fn asked_for(&self) -> u32
        ensures { result ≡ count_of self.now.phase }
    {
        match self.phase {
            Phase::Attrs => 0,
            Phase::AskedAttrs => 0,
            Phase::Pages => 0,
            Phase::Rest => 0,
            Phase::Asked(count) => count,
            Phase::Ended => 0,
        }
    }
}

/// After a part that it asked for: the bytes end, or those after it are asked for, or pages are taken again.
fn phase_then(count: u32, eof: bool, bytes: &Lent<'_>, base: &Base) -> Phase
    ensures { result ≡ phase_then count eof bytes.now base.now }
{
    if eof {
        return Phase::Ended;
    }
    if bytes.bytes().len() < count as usize || base.end() % PAGE != 0 {
        return Phase::Rest;
    }
    Phase::Pages
}

/// What a reply tells of the pages: its attributes are seen, and then its pages are offered.
fn note(
    pages: &mut PageCache,
    attr: &Option<Attr>,
    file: &Handle,
    sent: u64,
    place: u64,
    bytes: &Lent<'_>,
    eof: bool,
)
    ensures { pages.new ≡ noted attr.now file.now sent place bytes.now eof pages.old }
{
    if let Some(attr) = attr {
        note_attr(pages, attr, file, sent, place, bytes.bytes(), eof);
    }
}

/// The same if there are attributes.
fn note_attr(
    pages: &mut PageCache,
    attr: &Attr,
    file: &Handle,
    sent: u64,
    place: u64,
    bytes: &[u8],
    eof: bool,
)
    ensures { pages.new ≡ noted (Some attr.now) file.now sent place bytes.now eof pages.old }
{
    let stamp = attr.stamp();
    let ends = eof && u128::from(place) + bytes.len() as u128 == u128::from(attr.size);
    pages.saw(file, &stamp, sent);
    offer_all(pages, file, &stamp, sent, place, bytes, ends);
}
