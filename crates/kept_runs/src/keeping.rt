//! Pages between a store and a session.

ghost use Rattle.std.specs.Prelude.{◌≡◌, ◌≤◌, ◌<◌, ℕ, Option, option_map, length, IfOk};
ghost use Rattle.page_store.specs.Disk.{Every, LeavesOnly};
ghost use Rattle.page_store.specs.Pages.{StoredPage};
ghost use Rattle.page_store.specs.Slots.{IsSound};
ghost use Rattle.page_store.specs.Store.{Stands};
ghost use Rattle.kept_pages.specs.Comes.{Comes};
ghost use Rattle.kept_pages.specs.Kept.{KeepsOrKept};
ghost use Rattle.kept_runs.specs.Stored.{KeepsBack};

use kept_pages::{cache_of, store_kept};
use nfs_client::Stock;
use page_store::{Disk, PageStore};
use std::alloc::Global;
use xdr_codec::Memory;

/// The pages of a store, and the root of its label.
pub(crate) fn stock_of<D: Disk + Drop>(alloc: Global, store: &PageStore<D>) -> Result<Stock, Memory>
    ensures pages { IfOk result (λ stock. Comes store.now.pages stock.pages) }
    ensures root { IfOk result (λ stock. stock.root ≡ option_map (λ (page : StoredPage). page.file) store.now.label) }
{
    let pages = cache_of(alloc, store)?;
    Ok(Stock {
        root: store.root(),
        pages,
    })
}

/// Stores the pages that a session handed back, if it did.
pub(crate) fn keep_all<D: Disk + Drop>(
    alloc: Global,
    back: Option<Stock>,
    label: &[u8],
    store: &mut PageStore<D>,
)
    requires { length label.now ≤ 4096 }
    ensures safe { D.tells store.old.disk → (n : ℕ) → length store.old.pages < n → IsSound n (D.may_leave store.old.disk) → IsSound n (D.may_leave store.new.disk) }
    ensures stands { D.tells store.old.disk → (n : ℕ) → length store.old.pages < n → IsSound n (D.may_leave store.old.disk)
        → Stands (D.may_leave store.old.disk) store.old.pages → Stands (D.may_leave store.new.disk) store.new.pages }
    ensures any_moment { D.tells store.old.disk → (n : ℕ) → length store.old.pages < n → IsSound n (D.may_leave store.old.disk)
        → KeepsBack D.may_leave D.moment D.left_since (length store.old.pages) back store.old.disk store.new.disk }
    ensures goes_on { D.tells store.old.disk → D.tells store.new.disk }
    ensures count { length store.new.pages ≡ length store.old.pages }
{
    match back {
        Some(back) => {
            back.pages.is_sound();
            keep(alloc, &back, label, store);
        }
        None => {}
    }
}

/// Stores the pages that a session handed back. A fault leaves the store as it then is.
fn keep<D: Disk + Drop>(alloc: Global, back: &Stock, label: &[u8], store: &mut PageStore<D>)
    requires { length label.now ≤ 4096 }
    ensures safe { D.tells store.old.disk → (n : ℕ) → length store.old.pages < n → IsSound n (D.may_leave store.old.disk) → IsSound n (D.may_leave store.new.disk) }
    ensures stands { D.tells store.old.disk → (n : ℕ) → length store.old.pages < n → IsSound n (D.may_leave store.old.disk)
        → Stands (D.may_leave store.old.disk) store.old.pages → Stands (D.may_leave store.new.disk) store.new.pages }
    ensures any_moment { D.tells store.old.disk → (n : ℕ) → length store.old.pages < n → IsSound n (D.may_leave store.old.disk)
        → LeavesOnly D.moment D.left_since store.old.disk store.new.disk
        (KeepsOrKept (length store.old.pages) (length store.old.pages) back.now.pages (D.may_leave store.old.disk)) }
    ensures goes_on { D.tells store.old.disk → D.tells store.new.disk }
    ensures count { length store.new.pages ≡ length store.old.pages }
{
    if labelled(back, label, store) {
        let _ = store_kept(alloc, &back.pages, store);
    }
}

/// Whether the store has a label now. One without gets that of the session's root.
fn labelled<D: Disk + Drop>(back: &Stock, label: &[u8], store: &mut PageStore<D>) -> bool
    requires { length label.now ≤ 4096 }
    ensures safe { D.tells store.old.disk → (n : ℕ) → length store.old.pages < n → IsSound n (D.may_leave store.old.disk) → IsSound n (D.may_leave store.new.disk) }
    ensures stands { D.tells store.old.disk → (n : ℕ) → length store.old.pages < n → IsSound n (D.may_leave store.old.disk)
        → Stands (D.may_leave store.old.disk) store.old.pages → Stands (D.may_leave store.new.disk) store.new.pages }
    ensures leaves { D.tells store.old.disk → (n : ℕ) → length store.old.pages < n → IsSound n (D.may_leave store.old.disk)
        → Every (D.may_leave store.new.disk) (KeepsOrKept (length store.old.pages) (length store.old.pages) back.now.pages (D.may_leave store.old.disk)) }
    ensures any_moment { D.tells store.old.disk → (n : ℕ) → length store.old.pages < n → IsSound n (D.may_leave store.old.disk)
        → LeavesOnly D.moment D.left_since store.old.disk store.new.disk
        (KeepsOrKept (length store.old.pages) (length store.old.pages) back.now.pages (D.may_leave store.old.disk)) }
    ensures goes_on { D.tells store.old.disk → D.tells store.new.disk }
    ensures count { length store.new.pages ≡ length store.old.pages }
{
    if store.root().is_some() {
        return true;
    }
    match &back.root {
        Some(root) => store.set_label(root, label).is_ok(),
        None => false,
    }
}
