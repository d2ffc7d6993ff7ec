//! What the client keeps between calls.

ghost use Rattle.std.specs.Prelude.{◌≡◌, [], IfOk};
ghost use Rattle.std.specs.FinMap as map;
ghost use Rattle.attr_cache.specs.Attrs.{nothing_learnt, usual_lives};
ghost use Rattle.page_cache.specs.Pages.{nothing_kept};

use crate::lane_files::LaneFiles;
use crate::repeats::Repeats;
use attr_cache::AttrCache;
use name_cache::NameCache;
use open_files::OpenFiles;
use page_cache::PageCache;
use silly_rename::Silly;
use std::alloc::Global;
use write_back::WriteBack;
use xdr_codec::Memory;

/// What the client keeps between calls. Each part is under its own crate's contract.
#[derive(Drop)]
pub struct Shelf {
    /// Pages of files that were opened.
    pub pages: PageCache,
    /// Attributes that are believed for a while.
    pub attrs: AttrCache,
    /// What names stand for.
    pub names: NameCache,
    /// Bytes that were written and that the server hasn't made stable.
    pub back: WriteBack,
    /// The files that are open.
    pub opens: OpenFiles,
    /// Files that are to be removed after their last close.
    pub silly: Silly,
    /// Which lanes sync, close or truncate which file, in the order in which they do so.
    pub order: LaneFiles,
    /// Which lanes put to which file.
    pub puts: LaneFiles,
    /// Which calls are made again because the server was busy.
    pub repeats: Repeats,
    /// The last number that was given to a write.
    pub seq: u64,
    /// The number of the next `.nfs` name; 0 follows its last value.
    pub counter: u32,
}

impl Shelf {
    /// Nothing is kept. It takes the memory of all pages and names at once.
    pub fn new(alloc: Global) -> Result<Shelf, Memory>
        ensures pages { IfOk result (λ s. s.pages ≡ nothing_kept) }
        ensures attrs { IfOk result (λ s. s.attrs ≡ nothing_learnt usual_lives) }
        ensures names { IfOk result (λ s. s.names ≡ []) }
        ensures back { IfOk result (λ s. s.back ≡ []) }
        ensures opens { IfOk result (λ s. s.opens ≡ map.empty) }
        ensures silly { IfOk result (λ s. s.silly ≡ map.empty) }
        ensures order { IfOk result (λ s. s.order ≡ []) }
        ensures puts { IfOk result (λ s. s.puts ≡ []) }
        ensures repeats { IfOk result (λ s. s.repeats ≡ []) }
        ensures seq { IfOk result (λ s. s.seq ≡ 0) }
        ensures counter { IfOk result (λ s. s.counter ≡ 0) }
    {
        let pages = PageCache::new(alloc)?;
        Shelf::with_pages(alloc, pages)
    }

    /// Nothing is kept but these pages. It takes the memory of all names at once.
    pub fn with_pages(alloc: Global, pages: PageCache) -> Result<Shelf, Memory>
        ensures pages { IfOk result (λ s. s.pages ≡ pages) }
        ensures attrs { IfOk result (λ s. s.attrs ≡ nothing_learnt usual_lives) }
        ensures names { IfOk result (λ s. s.names ≡ []) }
        ensures back { IfOk result (λ s. s.back ≡ []) }
        ensures opens { IfOk result (λ s. s.opens ≡ map.empty) }
        ensures silly { IfOk result (λ s. s.silly ≡ map.empty) }
        ensures order { IfOk result (λ s. s.order ≡ []) }
        ensures puts { IfOk result (λ s. s.puts ≡ []) }
        ensures repeats { IfOk result (λ s. s.repeats ≡ []) }
        ensures seq { IfOk result (λ s. s.seq ≡ 0) }
        ensures counter { IfOk result (λ s. s.counter ≡ 0) }
    {
        // What may fail comes first, so that a failure has no caches but the pages to drop.
        let bounded = Bounded::new(alloc)?;
        Ok(Shelf {
            pages,
            attrs: AttrCache::new(alloc),
            names: bounded.names,
            back: WriteBack::new(alloc),
            opens: OpenFiles::new(alloc),
            silly: Silly::new(alloc),
            order: bounded.order,
            puts: bounded.puts,
            repeats: bounded.repeats,
            seq: 0,
            counter: 0,
        })
    }
}

/// The parts of a shelf whose memory is taken at once.
#[derive(Drop)]
struct Bounded {
    repeats: Repeats,
    puts: LaneFiles,
    order: LaneFiles,
    names: NameCache,
}

impl Bounded {
    /// Nothing is kept.
    fn new(alloc: Global) -> Result<Bounded, Memory>
        ensures repeats { IfOk result (λ b. b.repeats ≡ []) }
        ensures puts { IfOk result (λ b. b.puts ≡ []) }
        ensures order { IfOk result (λ b. b.order ≡ []) }
        ensures names { IfOk result (λ b. b.names ≡ []) }
    {
        Ok(Bounded {
            repeats: Repeats::new(alloc)?,
            puts: LaneFiles::new(alloc)?,
            order: LaneFiles::new(alloc)?,
            names: NameCache::new(alloc)?,
        })
    }
}
