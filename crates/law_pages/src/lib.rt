//! The law of kept pages. Let a page cache be fed as `specs/Feeds` says, and keep a page of a file under a stamp. It is that page
//! of the file at every moment at which the file has the stamp. That is so whatever other clients did and however often the
//! server restarted. Nothing here runs: each function has an empty body, and its contract is the theorem.
#![tactic(auto)]

ghost use Rattle.std.specs.Prelude.{◌≡◌, ℕ, List, Some};
ghost use Rattle.nfs_types.specs.declared.wcc.Stamp.{Stamp};
ghost use Rattle.page_cache.specs.Bytes.{page_at};
ghost use Rattle.page_cache.specs.Pages.{Pages, page_of, known_of};
ghost use Rattle.world_model.specs.Fresh.{Fresh};
ghost use Rattle.world_model.specs.History.{History};
ghost use Rattle.world_model.specs.Lawful.{Lawful};
ghost use Rattle.law_reads.specs.Kept.{HasStamp};
ghost use Rattle.law_pages.specs.Feeds.{IsFed};

/// A page that is found under its file's known stamp is true (RFC 1813, sections 2.6, 3.3.2, 3.3.6 and 3.3.7). It is that page of
/// the file at every moment at which the file has this stamp.
pub fn kept_page_is_true()
    ensures { (t : History) → Lawful t → Fresh t → (c : Pages) → IsFed t c → (file : List ℕ) (s : Stamp) (index : ℕ) (bytes : List ℕ) → page_of file index c ≡ Some bytes → known_of file c ≡ Some s
        → (n : ℕ) (now : List ℕ) → HasStamp t n file s now → bytes ≡ page_at index now }
{}
