//! What a page of a listing leads to.

use nfs_types::Verf;

/// What a page leads to.
#[derive(Clone, Copy, Debug, PartialEq, Eq)]
pub enum ListStep {
    /// The listing goes on: the next READDIRPLUS carries these (RFC 1813, section 3.3.17, cookie and cookieverf).
    More {
        /// That of the page's last entry.
        cookie: u64,
        /// That of the page.
        verf: Verf,
    },
    /// This was the last page.
    End,
}

/// Why a page can't be taken.
#[derive(Clone, Copy, Debug, PartialEq, Eq)]
pub enum ListFault {
    /// With it the listing would have more than 65,536 entries.
    Many,
    /// It has no entry, and isn't the last one: there is no cookie to go on with.
    Stuck,
    /// Out of memory.
    Memory,
}
