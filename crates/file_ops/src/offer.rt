//! Which pages a read offers to the cache out of a reply.

ghost use Rattle.std.specs.Prelude.{◌≡◌, ◌≤◌, length, take, option_map};
ghost use Rattle.file_ops.specs.Kept.{told_of, is_given, kept_page, offered_told, offered, all_offered};

use crate::base::PAGE;
use nfs_types::{Handle, Stamp};
use page_cache::PageCache;

/// Offers each page that a reply gave whole, or up to the file's end if its bytes end there. It told bytes from a place
/// on, and the file's state.
pub(crate) fn offer_all(
    pages: &mut PageCache,
    file: &Handle,
    stamp: &Stamp,
    sent: u64,
    place: u64,
    bytes: &[u8],
    ends: bool,
)
    ensures { pages.new ≡ all_offered file.now stamp.now sent place bytes.now ends pages.old }
{
    let first = place / PAGE;
    for next in 0..bytes.len() as u64 / PAGE + 2 {
        offer(pages, file, stamp, sent, place, bytes, ends, first + next);
    }
}

/// Offers a page if the reply gave it.
#[tactic(auto, unfolding(crate::specs::Kept::offered))]
fn offer(
    pages: &mut PageCache,
    file: &Handle,
    stamp: &Stamp,
    sent: u64,
    place: u64,
    bytes: &[u8],
    ends: bool,
    index: u64,
)
    ensures { pages.new ≡ offered file.now stamp.now sent place bytes.now ends index pages.old }
{
    offer_told(
        pages,
        file,
        stamp,
        sent,
        ends,
        index,
        told_of(place, bytes, index),
    );
}

/// The bytes that a reply told from the start of a page on; it told bytes from a place on. None if the page begins
/// before that place.
fn told_of(place: u64, bytes: &[u8], index: u64) -> Option<&[u8]>
    ensures { option_map (λ told. told.now) result ≡ told_of place bytes.now index }
{
    let start = u128::from(index) * u128::from(PAGE);
    if start < u128::from(place) {
        return None;
    }
    let skip = (start - u128::from(place)).min(bytes.len() as u128) as usize;
    Some(&bytes[skip..])
}

/// Offers a page of which these bytes were told, if there are any and they are all of it.
fn offer_told(
    pages: &mut PageCache,
    file: &Handle,
    stamp: &Stamp,
    sent: u64,
    ends: bool,
    index: u64,
    told: Option<&[u8]>,
)
    ensures { pages.new ≡ offered_told file.now stamp.now sent ends index (option_map (λ told. told.now) told.entry) pages.old }
{
    let Some(told) = told else {
        return;
    };
    if !is_given(told, ends) {
        return;
    }
    keep_page(pages, file, stamp, sent, index, first_page(told));
}

/// Offers a page.
fn keep_page(
    pages: &mut PageCache,
    file: &Handle,
    stamp: &Stamp,
    sent: u64,
    index: u64,
    page: &[u8],
)
    requires { length page.now ≤ 4096 }
    ensures { pages.new ≡ kept_page file.now stamp.now sent index page.now pages.old }
{
    pages.keep(file, stamp, index, page, sent);
}

/// The bytes of the first page.
fn first_page(told: &[u8]) -> &[u8]
    ensures page { result.now ≡ take 4096 told.now }
    ensures short { length result.now ≤ 4096 }
{
    let size = 4096_usize.min(told.len());
    &told[..size]
}

/// Whether bytes that were told from the start of a page on give it whole, or up to the file's end.
fn is_given(told: &[u8], ends: bool) -> bool
    ensures { result ≡ is_given told.now ends }
{
    told.len() >= 4096 || (ends && !told.is_empty())
}
