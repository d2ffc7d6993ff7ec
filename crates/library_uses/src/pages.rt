//! A page that a reply brought, by `page_cache`.

ghost use Rattle.std.specs.Prelude.{◌≡◌, ◌≤◌, length, true, Some};
ghost use Rattle.page_cache.specs.Pages.{page_of};

use nfs_types::{Handle, Stamp};
use page_cache::{Keep, PageCache};

/// Offers the first page of a file, which a reply gave with a stamp. The call was made at the moment `sent`. It answers whether
/// the page was kept: then the cache shows these very bytes.
#[tactic(auto, using(crate::proofs::KeptPage::kept_shows))]
pub fn keep_first(
    pages: &mut PageCache,
    file: &Handle,
    stamp: &Stamp,
    sent: u64,
    bytes: &[u8],
) -> bool
    requires { length bytes.now ≤ 4096 }
    ensures kept { result ≡ true → page_of file.now 0 pages.new ≡ Some bytes.now }
{
    match pages.keep(file, stamp, 0, bytes, sent) {
        Keep::Kept => true,
        Keep::Stale | Keep::Differs => false,
    }
}
