//! The pages of files.

ghost use Rattle.std.specs.Bool.{OnFalse};
ghost use Rattle.std.specs.Prelude.{◌≡◌, ◌<◌, ◌≤◌, ◌/◌, length, IfOk, IfSome, OnOk, OnErr, None, Some, List, ℕ, [], option_map};
ghost use Rattle.std.specs.Borrow.{sem};
ghost use Rattle.page_cache.specs.Bytes.{resized, put_at, page_at, put_page, cut_page};
ghost use Rattle.page_cache.specs.Pages.{nothing_kept, nothing_with, state_of, known_of, mark_of, page_of, shows_page, nth_handed, opened, keep_answer, after_keep, saw, wrote, cut};
ghost use Rattle.page_cache.specs.Sound.{IsSound};

use crate::files::Files;
use crate::page::Page;
use crate::place::PagePlace;
use crate::slots::Slots;
use crate::state::{FileState, Keep, is_stamp};
use nfs_types::{Handle, KeptPage, Stamp, Wcc};
use std::alloc::Global;
use std::marker::Model;
use xdr_codec::Memory;

/// At most so many pages of files as there is room for. A new page takes the memory of one that was dropped, or else of the one
/// that wasn't used for the longest time.
///
/// A file is known from its first `opened` on; for another one `stamp` and `mark` are None, `keep` answers Stale, and
/// nothing else changes anything.
///
/// `new` and `with_room` take all memory but that of the table of files. Kept pages stand in the order of their files and
/// numbers. A page is found there by halving, in ten to sixteen comparisons. Two are enough if it is the same page as before or
/// the next one. To keep a new page moves the slot numbers of the pages behind it, of two bytes each.
/// To drop a file's pages looks at these alone. `wrote` and `cut` look at the pages that may change, as they say.
/// `stamp`, `mark` and `closed` look at no page.
#[derive(Drop)]
pub struct PageCache {
    files: Files,
    slots: Slots,
}

impl Model for PageCache {
    ghost use Rattle.page_cache.specs.Pages.{Pages};

    ghost Value = { Pages };

    ghost use Rattle.page_cache.specs.Full.{states_of, full_below_of, AreFull};
    ghost use Rattle.page_cache.specs.Sound.{AreKnown};

    ghost view = { λ c. record { room = c.slots.room; files = states_of c.files; pages = c.slots.pages } };

    ghost invariant = { λ c. AreFull (full_below_of c.files) c.slots.pages
        × AreKnown (record { room = c.slots.room; files = states_of c.files; pages = c.slots.pages }) };
}

impl PageCache {
    ghost use Rattle.page_cache.specs.Ends.{ends_with};
    ghost use Rattle.page_cache.specs.Pages.{after_page};

    /// For how many pages there is room if no other number is given.
    const ROOM: usize = 1024;

    /// Knows no file, and has room for 1,024 pages. It takes the memory of all pages at once, about 4 MiB; later only `opened`
    /// takes some.
    pub fn new(alloc: Global) -> Result<PageCache, Memory>
        ensures { IfOk result (λ c. c ≡ nothing_kept) }
    {
        PageCache::with_room(alloc, PageCache::ROOM)
    }

    /// The same with room for so many pages, from 1 to 65,536, of about 4 KiB each.
    pub fn with_room(alloc: Global, room: usize) -> Result<PageCache, Memory>
        requires least { 1 ≤ room }
        requires most { room ≤ 65536 }
        ensures { IfOk result (λ c. c ≡ nothing_with room) }
    {
        Ok(PageCache {
            files: Files::new(alloc),
            slots: Slots::new(alloc, room)?,
        })
    }

    /// For how many pages there is room. It stays the same.
    pub fn room(&self) -> usize
        ensures { result ≡ self.now.room }
    {
        self.slots.room()
    }

    /// What holds of it at any time: a fact for proofs.
    /// - No page has more than 4,096 bytes or is kept twice.
    /// - There are at most so many as there is room for.
    /// - Each is of a file whose state is known.
    pub fn is_sound(&self)
        ensures { IsSound self.now }
    {
        let _files = &self.files;
        self.slots.are_apart();
    }

    /// A file was opened in the state of `stamp`, in an operation that began at the moment `mark`. Its pages are
    /// dropped exactly if another stamp is known, or none. Then the stamp is known and the mark is kept, unless it
    /// is below the file's. When out of memory, which comes at a file that wasn't known alone, nothing is changed.
    pub fn opened(&mut self, file: &Handle, stamp: &Stamp, mark: u64) -> Result<(), Memory>
        ensures ok { OnOk result (self.new ≡ opened file.now stamp.now mark self.old) }
        ensures err { OnErr result (self.new ≡ self.old) }
        ensures unknown { OnErr result (state_of file.now self.old ≡ None) }
    {
        let (same, mark) = match self.files.state(file) {
            Some(state) => (is_stamp(stamp, state.known), state.mark.max(mark)),
            None => (false, mark),
        };
        let state = FileState {
            known: Some(*stamp),
            mark,
        };
        if same {
            let full_below = self.files.full_below(file);
            self.files.put(file, state, full_below)?;
        } else {
            self.files.put(file, state, u64::MAX)?;
            self.slots.drop_file(file);
        }
        Ok(())
    }

    /// The state of a file under which its pages are believed; None exactly if the file was never opened, or its
    /// state isn't known.
    pub fn stamp(&self, file: &Handle) -> Option<Stamp>
        ensures { result ≡ known_of file.now self.now }
    {
        self.files.state(file)?.known
    }

    /// The file's mark: a reply to a call that was made at this moment or before tells nothing of the file. None
    /// exactly if the file was never opened.
    pub fn mark(&self, file: &Handle) -> Option<u64>
        ensures { result ≡ mark_of file.now self.now }
    {
        Some(self.files.state(file)?.mark)
    }

    /// Shows a page of a file, and moves it to the front; None exactly if it isn't kept. The page begins at 4,096
    /// times `index` in the file.
    pub fn page(&mut self, file: &Handle, index: u64) -> Option<&[u8]>
        ensures* ends { sem 𝓛 (ends_with self.entry (after_page file.now index self.old)) }
        ensures gives { option_map (λ bytes. bytes.now) result ≡ page_of file.now index self.old }
    {
        self.slots.show(file, index)
    }

    /// Whether a page of a file with this number or a higher one is kept. No page moves. It takes about as long as to show one page. So a
    /// reader which goes on where nothing is kept needn't ask for each page.
    pub fn keeps_from(&mut self, file: &Handle, index: u64) -> bool
        ensures none { OnFalse result ((i : ℕ) → index ≤ i → page_of file.now i self.old ≡ None) }
        ensures same { self.new ≡ self.old }
    {
        self.slots.keeps_from(file, index)
    }

    /// The n-th kept page whose file's stamp is known, from 0 on and from the front; None exactly if there are at
    /// most n such pages. The order stays. It takes as many steps as n says.
    pub fn nth(&self, n: usize) -> Option<KeptPage<'_>>
        ensures { option_map shows_page result ≡ nth_handed n self.now }
    {
        match self.slots.nth(n) {
            Some((place, bytes)) => match self.stamp(&place.file) {
                Some(stamp) => Some(KeptPage {
                    file: place.file,
                    stamp,
                    index: place.index,
                    bytes,
                }),
                None => None,
            },
            None => None,
        }
    }

    /// The page in a slot, whose number is from 0 on and below `room`; None if the slot is free. So all pages are found in as
    /// many steps as there are slots, in no order. It is a page that `nth` gives, too.
    pub fn slot_page(&self, slot: usize) -> Option<KeptPage<'_>>
        ensures { IfSome result (λ page. (n : ℕ) × (nth_handed n self.now ≡ Some (shows_page page))) }
    {
        match self.slots.in_slot(slot) {
            Some((place, bytes)) => match self.stamp(&place.file) {
                Some(stamp) => Some(KeptPage {
                    file: place.file,
                    stamp,
                    index: place.index,
                    bytes,
                }),
                None => None,
            },
            None => None,
        }
    }

    /// Offers a page that a reply told, with the state of the file in it; `sent` is the moment at which the call was
    /// made. The bytes are the whole page, or end where the file does.
    pub fn keep(
        &mut self,
        file: &Handle,
        stamp: &Stamp,
        index: u64,
        bytes: &[u8],
        sent: u64,
    ) -> Keep
        requires { length bytes.now ≤ 4096 }
        ensures answer { result ≡ keep_answer file.now stamp.now sent self.old }
        ensures after { self.new ≡ after_keep result stamp.now (record { file = file.now; index = index }) bytes.now self.old }
    {
        let kept = match self.files.look_up(file) {
            Some(kept) => kept,
            None => return Keep::Stale,
        };
        if sent <= kept.state.mark {
            return Keep::Stale;
        }
        if !kept.state.takes(stamp) {
            return Keep::Differs;
        }
        let full_below = full_with(kept.full_below, index, bytes);
        self.files.learn(file, &kept, stamp, full_below);
        let place = PagePlace { file: *file, index };
        self.slots.put_in_front(place, bytes);
        Keep::Kept
    }

    /// A reply showed the state of a file; `sent` is the moment at which the call was made. Nothing changes if that
    /// is at or below the mark, or the stamp is the known one. Else the file's pages are dropped, and the stamp is
    /// known.
    pub fn saw(&mut self, file: &Handle, stamp: &Stamp, sent: u64)
        ensures { self.new ≡ saw file.now stamp.now sent self.old }
    {
        let state = match self.files.state(file) {
            Some(state) => state,
            None => return,
        };
        if sent <= state.mark || is_stamp(stamp, state.known) {
            return;
        }
        self.slots.drop_file(file);
        let known = FileState {
            known: Some(*stamp),
            mark: state.mark,
        };
        self.files.change(file, known, u64::MAX);
    }

    /// The client's own WRITE put these bytes at this offset; `wcc` tells the file's state before and after it. If the first is
    /// the known one and the second is there, each kept page becomes that page of the file so written. The second is known then.
    /// Else the file's pages are dropped, and no state is known. The mark is `moment` then.
    ///
    /// These pages are looked at:
    /// - from the first one written to the last;
    /// - before it, from the first one on that may be short of 4,096 bytes. In a file that is read and written in order there is
    ///   none.
    pub fn wrote(&mut self, file: &Handle, wcc: &Wcc, offset: u64, bytes: &[u8], moment: u64)
        ensures after { self.new ≡ wrote file.now wcc.now offset bytes.now moment self.old }
        ensures of_the_file { (index : ℕ) (old : List ℕ) → put_page index offset bytes.now (page_at index old) ≡ page_at index (put_at offset bytes.now old) }
    {
        let state = match self.files.state(file) {
            Some(state) => state,
            None => return,
        };
        match state.after(wcc) {
            Some(known) => {
                let full_below = self.files.full_below(file);
                self.slots.write_file(file, full_below, offset, bytes);
                let known = FileState {
                    known: Some(known),
                    mark: moment,
                };
                let full_below = full_after(full_below, offset, bytes);
                self.files.change(file, known, full_below);
            }
            None => {
                self.slots.drop_file(file);
                let unknown = FileState {
                    known: None,
                    mark: moment,
                };
                self.files.change(file, unknown, u64::MAX);
            }
        }
    }

    /// The client's own SETATTR gave the file this size. Else as `wrote`. These pages are looked at:
    /// - from the one in which the file ends then;
    /// - before it, from the first one on that may be short of 4,096 bytes.
    pub fn cut(&mut self, file: &Handle, wcc: &Wcc, size: u64, moment: u64)
        ensures after { self.new ≡ cut file.now wcc.now size moment self.old }
        ensures of_the_file { (index : ℕ) (old : List ℕ) → cut_page index size (page_at index old) ≡ page_at index (resized size old) }
    {
        let state = match self.files.state(file) {
            Some(state) => state,
            None => return,
        };
        match state.after(wcc) {
            Some(known) => {
                let full_below = self.files.full_below(file);
                self.slots.cut_file(file, full_below, size);
                let known = FileState {
                    known: Some(known),
                    mark: moment,
                };
                self.files.change(file, known, Page::holding(size));
            }
            None => {
                self.slots.drop_file(file);
                let unknown = FileState {
                    known: None,
                    mark: moment,
                };
                self.files.change(file, unknown, u64::MAX);
            }
        }
    }

    /// The last open of a file ended. Its pages, its stamp and its mark stay for a later open.
    pub fn closed(&mut self, _file: &Handle)
        ensures { self.new ≡ self.old }
    {}
}

/// Below which number a file's pages are whole once these bytes are kept as its page of this number.
fn full_with(full_below: u64, index: u64, bytes: &[u8]) -> u64
    requires { length bytes.now ≤ 4096 }
    ensures bound { result ≤ full_below }
    ensures page { index < result → length bytes.now ≡ 4096 }
    ensures whole { length bytes.now ≡ 4096 → full_below ≤ result }
    ensures least { index ≤ full_below → index ≤ result }
{
    if bytes.len() < Page::SIZE {
        full_below.min(index)
    } else {
        full_below
    }
}

/// The same once these bytes were written at an offset: if there are any, the pages before them are whole then.
fn full_after(full_below: u64, offset: u64, bytes: &[u8]) -> u64
    ensures below { (i : ℕ) → i < result → full_below ≤ i → (0 < length bytes.now) × (i < offset / 4096) }
    ensures least { (full_below ≤ result) × (0 < length bytes.now → offset / 4096 ≤ result) }
{
    if bytes.is_empty() {
        full_below
    } else {
        full_below.max(Page::holding(offset))
    }
}
