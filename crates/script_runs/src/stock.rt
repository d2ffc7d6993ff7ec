//! The pages that a run begins with and hands back.

ghost use Rattle.std.specs.Prelude.{◌≡◌, IfOk};
ghost use Rattle.page_cache.specs.Sound.{IsSound};
ghost use Rattle.script_runs.specs.Stock.{is_root, nothing_stored, pages_for};

use nfs_types::Handle;
use page_cache::PageCache;
use std::alloc::Global;
use xdr_codec::Memory;

/// Pages that are kept over the end of a session, and the root that they are of. Another server may give equal handles to other files, so a session
/// begins with them only if its root is this one.
#[derive(Drop)]
pub struct Stock {
    /// The root of the session that kept them. None if none has kept any.
    pub root: Option<Handle>,
    /// The pages, each under a stamp of its file.
    pub pages: PageCache,
}

impl Stock {
    /// Nothing is kept. It takes the memory of all pages at once.
    pub fn empty(alloc: Global) -> Result<Stock, Memory>
        ensures { IfOk result (λ stock. stock ≡ nothing_stored) }
    {
        let pages = PageCache::new(alloc)?;
        Ok(Stock { root: None, pages })
    }

    /// What holds of the pages at any time: a fact for proofs.
    pub(crate) fn is_sound(&self)
        ensures { IsSound self.now.pages }
    {
        self.pages.is_sound();
    }

    /// Whether a session over this root may have the pages.
    pub(crate) fn is_of(&self, root: &Handle) -> bool
        ensures { result ≡ is_root self.now.root root.now }
    {
        match &self.root {
            None => true,
            Some(kept) => kept == root,
        }
    }

    /// The pages with which a session over this root begins: none if these are another root's.
    pub(crate) fn into_pages(self, alloc: Global, root: &Handle) -> Result<PageCache, Memory>
        ensures { IfOk result (λ pages. pages ≡ pages_for self root.now) }
    {
        if self.is_of(root) {
            Ok(self.pages)
        } else {
            PageCache::new(alloc)
        }
    }
}
