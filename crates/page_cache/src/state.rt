//! What is known of a file, and what becomes of a page that is offered.

ghost use Rattle.std.specs.Prelude.{◌≡◌};
ghost use Rattle.page_cache.specs.Pages.{is_stamp, takes, led_to};

use nfs_types::{Stamp, Wcc};

/// What is known of a file that was opened.
#[derive(Clone, Copy, Debug, PartialEq, Eq)]
pub struct FileState {
    /// The file's length and the times of its last changes while its pages are believed; None if they aren't known.
    pub known: Option<Stamp>,
    /// Calls that were made up to this moment are too old to tell of the file.
    pub mark: u64,
}

/// What became of a page that was offered.
#[derive(Clone, Copy, Debug, PartialEq, Eq)]
pub enum Keep {
    /// It isn't kept: the file was never opened, or the call that told the page was made at or before the file's mark.
    Stale,
    /// It isn't kept: another state of the file is known.
    Differs,
    /// It is kept, and stands in front.
    Kept,
}

/// Whether a stamp is this one. One that isn't known equals nothing.
pub(crate) fn is_stamp(stamp: &Stamp, known: Option<Stamp>) -> bool
    ensures { result ≡ is_stamp stamp.now known }
{
    match known {
        Some(known) => known == *stamp,
        None => false,
    }
}

impl FileState {
    /// Whether no stamp but this one is known.
    pub(crate) fn takes(&self, stamp: &Stamp) -> bool
        ensures { result ≡ takes stamp.now self.now.known }
    {
        match self.known {
            Some(known) => known == *stamp,
            None => true,
        }
    }

    /// The state that the client's own change of the file led to; None if it didn't begin in the known one, or its end
    /// isn't told.
    pub(crate) fn after(&self, wcc: &Wcc) -> Option<Stamp>
        ensures { result ≡ led_to wcc.now self.now.known }
    {
        let before = wcc.before?;
        if !is_stamp(&before, self.known) {
            return None;
        }
        Some(wcc.after?.stamp())
    }
}
