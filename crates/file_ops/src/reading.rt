//! A read that has begun.

ghost use Rattle.std.specs.Prelude.{◌≡◌, ◌&&◌, take, IfSome};
ghost use Rattle.file_ops.specs.Reading.{settled, wants, has_asked, asks_attrs, attrs_call, asked_call, asked, read_call, asked_part, answer_of, answered, shown_next, Stays, gone, Goes, phase_of};
ghost use Rattle.file_ops.specs.Overlaid.{bytes_from};

use crate::base::Base;
use crate::gather::{Found, gather, plan};
use crate::overlaid::{WasPending, bytes_from};
use crate::space::Space;
use client_shelf::Step;
use nfs_file_calls::FileCall;
use nfs_types::Handle;
use page_cache::PageCache;
use std::alloc::Global;
use world_model::{Answer, Call, Value};
use write_back::WriteBack;
use xdr_codec::Blob;

/// How far a read is.
#[derive(Clone, Copy, Debug, PartialEq, Eq)]
pub enum Phase {
    /// It asks for the file's attributes before it takes a page.
    Attrs,
    /// It has asked for them.
    AskedAttrs,
    /// It takes kept pages, and asks for one that isn't kept.
    Pages,
    /// It asks for the bytes after those that a short reply gave, or one that ended inside a page.
    Rest,
    /// It has asked for so many bytes.
    Asked(u32),
    /// It has all bytes of the server.
    Ended,
}

/// A read that has begun.
#[derive(Drop)]
pub struct Reading {
    /// The file.
    pub file: Handle,
    /// Where the range begins.
    pub offset: u64,
    /// Room for its answer: for as many bytes as the range has.
    pub space: Space,
    /// How many bytes a READ may ask for.
    pub rsize: u32,
    /// The operation's own moment.
    pub moment: u64,
    /// The server's bytes, from the start of the range's first page on.
    pub base: Base,
    /// What was pending when it began.
    pub was: WasPending,
    /// How far it is.
    pub phase: Phase,
}

impl Reading {
    /// It goes on as far as it can.
    pub(crate) fn go(
        &mut self,
        alloc: Global,
        room: bool,
        pages: &mut PageCache,
        back: &WriteBack,
    ) -> Step
        ensures next { Goes room back.now (settled self.old pages.old) result }
        ensures state { record { reading = self.new; pages = pages.new } ≡ gone room (settled self.old pages.old) }
    {
        self.settle(pages);
        self.step(alloc, room, pages, back)
    }

    /// It takes pages that are kept, if it hasn't asked for a part and doesn't have to.
    fn settle(&mut self, pages: &mut PageCache)
        ensures { record { reading = self.new; pages = pages.new } ≡ settled self.old pages.old }
    {
        match self.phase {
            Phase::Pages => {
                let most = self.base.page_count() + 1;
                let found = gather(&mut self.base, pages, &self.file, most);
                self.phase = phase_of(found);
            }
            Phase::Attrs => {}
            Phase::AskedAttrs => {}
            Phase::Rest => {}
            Phase::Asked(_) => {}
            Phase::Ended => {}
        }
    }

    /// It makes its next call if it is to and there is room; if it has ended it answers.
    fn step(&mut self, alloc: Global, room: bool, pages: &mut PageCache, back: &WriteBack) -> Step
        ensures next { Goes room back.now (record { reading = self.old; pages = pages.old }) result }
        ensures state { record { reading = self.new; pages = pages.new } ≡ gone room (record { reading = self.old; pages = pages.old }) }
    {
        if self.asks(room) {
            return Step::Send(self.ask(pages));
        }
        self.stay(alloc, back)
    }

    /// Whether it makes a call now.
    fn asks(&self, room: bool) -> bool
        ensures { result ≡ (room && wants self.now.phase) }
    {
        room && self.wants()
    }

    /// Whether it is to make a call.
    fn wants(&self) -> bool
        ensures { result ≡ wants self.now.phase }
    {
        match self.phase {
            Phase::Attrs => true,
            Phase::AskedAttrs => false,
            Phase::Pages => true,
            Phase::Rest => true,
            Phase::Asked(_) => false,
            Phase::Ended => false,
        }
    }

    /// Whether it waits for the reply to its call.
    pub(crate) fn has_asked(&self) -> bool
        ensures { result ≡ has_asked self.now.phase }
    {
        match self.phase {
            Phase::Attrs => false,
            Phase::AskedAttrs => true,
            Phase::Pages => false,
            Phase::Rest => false,
            Phase::Asked(_) => true,
            Phase::Ended => false,
        }
    }

    /// It makes its next call.
    fn ask(&mut self, pages: &mut PageCache) -> Call
        ensures call { result ≡ asked_call (record { reading = self.old; pages = pages.old }) }
        ensures state { record { reading = self.new; pages = pages.new } ≡ asked (record { reading = self.old; pages = pages.old }) }
    {
        if self.asks_attrs() {
            self.phase = Phase::AskedAttrs;
            return self.attrs_call();
        }
        self.ask_part(pages)
    }

    /// Whether that is for attributes.
    fn asks_attrs(&self) -> bool
        ensures { result ≡ asks_attrs self.now.phase }
    {
        match self.phase {
            Phase::Attrs => true,
            Phase::AskedAttrs => false,
            Phase::Pages => false,
            Phase::Rest => false,
            Phase::Asked(_) => false,
            Phase::Ended => false,
        }
    }

    /// The call for attributes.
    pub(crate) fn attrs_call(&self) -> Call
        ensures { result ≡ attrs_call self.now.file }
    {
        Call::File(FileCall::GetAttr { file: self.file })
    }

    /// It asks for a part.
    fn ask_part(&mut self, pages: &mut PageCache) -> Call
        ensures call { result ≡ read_call (record { reading = self.old; pages = pages.old }) }
        ensures state { record { reading = self.new; pages = pages.new } ≡ asked_part (record { reading = self.old; pages = pages.old }) }
    {
        let count = plan(&self.base, pages, &self.file, self.rsize);
        self.phase = Phase::Asked(count);
        Call::File(FileCall::Read {
            file: self.file,
            offset: self.base.end(),
            count,
        })
    }

    /// What it comes to if it has ended, or else waits.
    fn stay(&mut self, alloc: Global, back: &WriteBack) -> Step
        ensures next { Stays self.old.phase self.old back.now result }
        ensures state { self.new ≡ answered self.old.phase self.old }
    {
        match self.phase {
            Phase::Attrs => Step::Wait,
            Phase::AskedAttrs => Step::Wait,
            Phase::Pages => Step::Wait,
            Phase::Rest => Step::Wait,
            Phase::Asked(_) => Step::Wait,
            Phase::Ended => self.show(alloc, back),
        }
    }

    /// The answer, whose memory was taken when it began.
    fn show(&mut self, alloc: Global, back: &WriteBack) -> Step
        ensures next { result ≡ shown_next (answer_of self.old back.now) }
        ensures state { self.new ≡ record self.old { space = 0 } }
    {
        Step::Done(Answer::Done(Value::Bytes(self.shown(alloc, back))))
    }

    /// The bytes that it answers with. Its space is used up.
    fn shown(&mut self, alloc: Global, back: &WriteBack) -> Blob
        ensures bytes { result ≡ answer_of self.old back.now }
        ensures state { self.new ≡ record self.old { space = 0 } }
    {
        match self.share(alloc, back) {
            Some(shared) => {
                let _room = self.space.give(alloc);
                shared
            }
            None => self.lay(alloc, back),
        }
    }

    /// The server's bytes if these are its answer, without a copy. None if others are shown, or there is no memory.
    fn share(&mut self, alloc: Global, back: &WriteBack) -> Option<Blob>
        ensures bytes { IfSome result (λ b. b ≡ answer_of self.old back.now) }
        ensures state { self.new ≡ self.old }
    {
        match self.bare(back) {
            Some(size) => self.base.share(alloc, self.offset, size),
            None => None,
        }
    }

    /// How many of the server's bytes it shows as they are.
    fn bare(&self, back: &WriteBack) -> Option<usize>
        ensures { IfSome result (λ size. answer_of self.now back.now ≡ take size (bytes_from self.now.offset self.now.base)) }
    {
        let base = bytes_from(&self.base, self.offset);
        self.was
            .bare(back, &self.file, self.offset, self.space.size(), base)
    }

    /// The server's bytes with what was and is pending over them, in its space.
    fn lay(&mut self, alloc: Global, back: &WriteBack) -> Blob
        ensures bytes { result ≡ answer_of self.old back.now }
        ensures state { self.new ≡ record self.old { space = 0 } }
    {
        let base = bytes_from(&self.base, self.offset);
        self.was.shown_over(alloc, back, &self.file, self.offset, &mut self.space, base)
    }
}

/// The bytes end, unless a page is wanted.
fn phase_of(found: Found) -> Phase
    ensures { result ≡ phase_of found }
{
    match found {
        Found::Page => Phase::Ended,
        Found::Ended => Phase::Ended,
        Found::Wanted => Phase::Pages,
    }
}
