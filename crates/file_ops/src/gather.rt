//! How a read takes kept pages, and which part of the file it asks for next.

ghost use Rattle.std.specs.Prelude.{◌≡◌, ◌+◌, ◌^◌, ◌<◌, option_map, is_some};
ghost use Rattle.file_ops.specs.Base.{with_more};
ghost use Rattle.file_ops.specs.Gather.{is_past, next_page, found_of, base_with, taken, then_taken, gathered, stopped, planned, next_plan, next_count};
ghost use Rattle.page_cache.specs.Pages.{page_of, after_page, known_of};

use crate::base::{Base, PAGE};
use nfs_types::{Handle, Stamp};
use page_cache::PageCache;

/// What the next page is to a read.
#[derive(Clone, Copy, Debug, PartialEq, Eq)]
pub enum Found {
    /// It was kept, and all its bytes were taken.
    Page,
    /// The file's bytes end.
    Ended,
    /// It isn't kept.
    Wanted,
}

/// Takes the next page if it is kept. The bytes end if all pages are there, or the file is known to end.
pub(crate) fn take_page(base: &mut Base, pages: &mut PageCache, file: &Handle) -> Found
    ensures { record { found = result; base = base.new; pages = pages.new } ≡ taken file.now base.old pages.old }
{
    if base.is_whole() || is_past(pages.stamp(file), base.end()) {
        return Found::Ended;
    }
    let index = base.end() / PAGE;
    take_kept(base, pages, file, index)
}

/// Whether a file of a known size ends at a place or before it.
fn is_past(known: Option<Stamp>, place: u64) -> bool
    ensures { result ≡ is_past known place }
{
    match known {
        Some(stamp) => stamp.size <= place,
        None => false,
    }
}

/// Takes a page if it is kept.
fn take_kept(base: &mut Base, pages: &mut PageCache, file: &Handle, index: u64) -> Found
    ensures found { result ≡ found_of (page_of file.now index pages.old) }
    ensures base { base.new ≡ base_with (page_of file.now index pages.old) base.old }
    ensures pages { pages.new ≡ after_page file.now index pages.old }
{
    put_page(base, pages.page(file, index))
}

/// Puts a page, if there is one, after the bytes.
fn put_page(base: &mut Base, page: Option<&[u8]>) -> Found
    ensures found { result ≡ found_of (option_map (λ bytes. bytes.now) page.entry) }
    ensures base { base.new ≡ base_with (option_map (λ bytes. bytes.now) page.entry) base.old }
{
    let Some(bytes) = page else {
        return Found::Wanted;
    };
    base.put(bytes);
    if (bytes.len() as u64) < PAGE {
        Found::Ended
    } else {
        Found::Page
    }
}

/// Takes kept pages, one after the other, at most so many.
pub(crate) fn gather(base: &mut Base, pages: &mut PageCache, file: &Handle, most: u64) -> Found
    ensures { record { found = result; base = base.new; pages = pages.new } ≡ gathered file.now most base.old pages.old }
{
    let mut found = Found::Page;
    for _ in 0..most {
        found = take_next(base, pages, file, found);
    }
    found
}

/// Takes the next page if the last one was whole.
fn take_next(base: &mut Base, pages: &mut PageCache, file: &Handle, last: Found) -> Found
    ensures { record { found = result; base = base.new; pages = pages.new } ≡ then_taken file.now (record { found = last; base = base.old; pages = pages.old }) last }
{
    match last {
        Found::Page => take_page(base, pages, file),
        Found::Ended => Found::Ended,
        Found::Wanted => Found::Wanted,
    }
}

/// Where a READ that may go up to a place ends, if it stops before a kept page: so many pages from one on are looked at, if the file
/// has any there.
fn stop_at_kept(pages: &mut PageCache, file: &Handle, first: u64, count: u64, end: u64) -> u64
    requires { first + count < 2 ^ 64 }
    ensures { record { end = result; pages = pages.new } ≡ planned file.now first count (record { end = end; pages = pages.old }) }
{
    if !pages.keeps_from(file, first) {
        return end;
    }
    stop_at_each(pages, file, first, count, end)
}

/// The same, with a look at each page.
fn stop_at_each(pages: &mut PageCache, file: &Handle, first: u64, count: u64, end: u64) -> u64
    requires { first + count < 2 ^ 64 }
    ensures { record { end = result; pages = pages.new } ≡ planned file.now first count (record { end = end; pages = pages.old }) }
{
    let mut end = end;
    for next in 0..count {
        end = stop_before(pages, file, first + next, end);
    }
    end
}

/// The same of one page.
fn stop_before(pages: &mut PageCache, file: &Handle, index: u64, end: u64) -> u64
    ensures { record { end = result; pages = pages.new } ≡ stopped file.now index (record { end = end; pages = pages.old }) }
{
    let Some(start) = index.checked_mul(PAGE) else {
        return end;
    };
    if end <= start {
        return end;
    }
    if is_kept(pages, file, index) {
        start
    } else {
        end
    }
}

/// Whether a page is kept. It moves to the front.
fn is_kept(pages: &mut PageCache, file: &Handle, index: u64) -> bool
    ensures kept { result ≡ is_some (page_of file.now index pages.old) }
    ensures pages { pages.new ≡ after_page file.now index pages.old }
{
    pages.page(file, index).is_some()
}

/// How many bytes the next READ asks for, which begins where the bytes end: at most so many, not past the last page, and
/// not into a page after its first one that is kept.
pub(crate) fn plan(base: &Base, pages: &mut PageCache, file: &Handle, rsize: u32) -> u32
    ensures count { result ≡ next_count file.now rsize base.now pages.old }
    ensures pages { pages.new ≡ (next_plan file.now rsize base.now pages.old).pages }
{
    let place = base.end();
    let most = base.most_asked(rsize);
    let end = stop_at_kept(
        pages,
        file,
        place / PAGE + 1,
        base.page_count(),
        base.end_of(rsize),
    );
    end.saturating_sub(place).min(u64::from(most)) as u32
}
