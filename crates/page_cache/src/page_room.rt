//! The memory of the pages.

ghost use Rattle.std.specs.Prelude.{◌≡◌, ◌≤◌, ◌<◌, ℕ, [], length, get_or, set, replicate, IfOk};
ghost use Rattle.std.specs.Option.{option_map_or};
ghost use Rattle.std.specs.Vec.{vec_capacity};
ghost use Rattle.page_cache.specs.Bytes.{put_page, cut_page};
ghost use Rattle.page_cache.specs.Unmade.{with_empty};

use crate::page::Page;
use std::alloc::Global;
use std::marker::Model;
use xdr_codec::Memory;

/// Room for so many pages, which have numbers from 0 on. Its memory is taken at once, but a page is first written when it
/// is put, so that a short session touches little of it.
#[derive(Drop)]
pub(crate) struct PageRoom {
    made: Vec<Page>,
    count: usize,
}

impl Model for PageRoom {
    ghost use Rattle.std.specs.Prelude.{List, ℕ, ◌≤◌, length};
    ghost use Rattle.std.specs.Vec.{vec_capacity};
    ghost use Rattle.page_cache.specs.Unmade.{with_empty};

    ghost Value = { List (List ℕ) };

    ghost view = { λ r. with_empty r.count r.made.items };

    ghost invariant = { λ r. (length r.made.items ≤ r.count) × (r.count ≤ vec_capacity r.made) };
}

impl PageRoom {
    /// Room for so many pages, each empty.
    pub(crate) fn for_pages(alloc: Global, count: usize) -> Result<PageRoom, Memory>
        ensures { IfOk result (λ r. r ≡ replicate count []) }
    {
        Ok(PageRoom {
            made: Vec::with_capacity(alloc, count)?,
            count,
        })
    }

    /// How many pages there is room for.
    pub(crate) fn len(&self) -> usize
        ensures { result ≡ length self.now }
    {
        self.count
    }

    /// The bytes of a page. There are none past the last one.
    pub(crate) fn bytes(&self, number: usize) -> &[u8]
        ensures { result.now ≡ get_or self.now number [] }
    {
        if number < self.made.len() {
            self.made[number].bytes()
        } else {
            &[]
        }
    }

    /// Puts these bytes in place of a page's own.
    pub(crate) fn put(&mut self, number: usize, bytes: &[u8])
        requires there { number < length self.old }
        requires few { length bytes.now ≤ 4096 }
        ensures { self.new ≡ set self.old number bytes.now }
    {
        make_up_to(&mut self.made, number);
        self.made[number].put(bytes);
    }

    /// Changes a page as a WRITE of these bytes at this offset changes the page of its file that has this index.
    pub(crate) fn write_at(&mut self, number: usize, index: Option<u64>, offset: u64, bytes: &[u8])
        requires { number < length self.old }
        ensures { self.new ≡ set self.old number (option_map_or (λ i. put_page i offset bytes.now (get_or self.old number [])) index (get_or self.old number [])) }
    {
        make_up_to(&mut self.made, number);
        self.made[number].write_at(index, offset, bytes);
    }

    /// Changes a page as a new size of its file changes the page that has this index.
    pub(crate) fn cut_at(&mut self, number: usize, index: Option<u64>, size: u64)
        requires { number < length self.old }
        ensures { self.new ≡ set self.old number (option_map_or (λ i. cut_page i size (get_or self.old number [])) index (get_or self.old number [])) }
    {
        make_up_to(&mut self.made, number);
        self.made[number].cut_at(index, size);
    }
}

/// Makes empty pages until the one of this number is there, for which there is memory.
fn make_up_to(made: &mut Vec<Page>, number: usize)
    requires { number < vec_capacity made.old }
    ensures same { (count : ℕ) → number < count → length made.old.items ≤ count → with_empty count made.new.items ≡ with_empty count made.old.items }
    ensures few { (count : ℕ) → number < count → length made.old.items ≤ count → length made.new.items ≤ count }
    ensures there { number < length made.new.items }
    ensures room { vec_capacity made.old ≤ vec_capacity made.new }
{
    while made.len() <= number {
        let Ok(()) = made.push(Page::empty()) else {
            unreachable!();
        };
    }
}
