//! Kept pages of files: bytes that a server told are believed while the file keeps the state in which it told them.
//!
//! A file's state is known by a stamp, its length and the times of its last changes (RFC 1813, section 2.5, wcc_attr). The
//! file's mark is a moment: a reply to a call that was made at or before it is too old to tell of the file. Moments are
//! numbers of the client's own, which rise.
//!
//! A contract sees a cache as two lists. One has the files that were opened, each with its stamp and its mark. The other has
//! the kept pages, the one that was used last in front. What holds at any time is told by `PageCache::is_sound`.
//!
//! What a caller knows beyond the clauses follows from the definitions that they cite, by lemmas in `proofs/`:
//! - `States`: the stamp and the mark of this file and of others after each call (`state-opened`, `state-kept`, `state-saw`,
//!   `state-wrote`, `state-cut`, `known-after`, `mark-after`). What an answer tells (`keep-tells`).
//! - `Entries`: what holds of each page goes on holding (`All-promoted`, `All-fronted`, `All-others`, `All-changed`). A page
//!   that is found is one of them (`All-page`).
//! - `Believed`: what is true of each page under its file's stamp is true of a page that is found (`true-page`). It stays so
//!   after each call (`true-shown`, `true-opened`, `true-saw`, `true-kept`, `true-wrote`, `true-cut`).
#![tactic(auto)]

mod cache;
mod files;
mod page;
mod page_room;
mod place;
mod places;
mod slots;
mod sorted;
mod state;

pub use cache::PageCache;
pub use place::PagePlace;
pub use state::{FileState, Keep};
