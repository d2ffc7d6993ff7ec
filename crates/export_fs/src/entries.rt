//! The entries of a directory in order of their cookies.

ghost use Rattle.std.specs.Prelude.{◌≡◌, ◌<◌, ◌∷◌, ◌++◌, [], MatchOption, OnOk, OnErr};
ghost use Rattle.export_fs.specs.Refusals.{is_filled};
ghost use Rattle.export_fs.specs.Pages.{rows_after};
ghost use Rattle.export_fs.specs.Kept.{top, without_cookie};

use crate::row::Row;
use nfs_types::Name;
use std::alloc::Global;
use std::collections::BTreeMap;
use std::marker::Model;
use std::ops::Bound;
use xdr_codec::Memory;

/// A name, and the place of the object that has it.
#[derive(Clone, Copy, Drop)]
struct Entry {
    name: Name,
    place: u32,
}

/// The entries of a directory by their cookies.
#[derive(Drop)]
pub(crate) struct Entries {
    by_cookie: BTreeMap<u64, Entry>,
}

impl Model for Entries {
    ghost use Rattle.std.specs.Prelude.{◌≡◌, true, List};
    ghost use Rattle.export_fs.specs.declared.row.Row.{Row};

    ghost Value = { List Row };

    ghost use Rattle.export_fs.specs.Kept.{rows_of, is_rising};

    ghost view = { λ e. rows_of e.by_cookie.entries };

    ghost invariant = { λ e. is_rising 0 (rows_of e.by_cookie.entries) ≡ true };
}

impl Entries {
    /// No entries. It takes no memory.
    pub(crate) fn new(alloc: Global) -> Entries
        ensures { result ≡ [] }
    {
        Entries {
            by_cookie: BTreeMap::new(alloc),
        }
    }

    /// Whether there is one.
    pub(crate) fn is_filled(&self) -> bool
        ensures { result ≡ is_filled self.now }
    {
        !self.by_cookie.is_empty()
    }

    /// The first entry after a cookie.
    pub(crate) fn next(&self, cookie: u64) -> Option<Row>
        ensures { MatchOption result (rows_after cookie self.now ≡ []) (λ row. rows_after cookie self.now ≡ row ∷ rows_after row.cookie self.now) }
    {
        let mut rest = self
            .by_cookie
            .range((Bound::Excluded(cookie), Bound::Unbounded));
        match rest.next() {
            Some((cookie, entry)) => Some(Row {
                name: entry.name,
                place: entry.place,
                cookie: *cookie,
            }),
            None => None,
        }
    }

    /// One more entry. When out of memory it is as it was.
    #[tactic(auto, using(crate::proofs::Cookies::insert_last, crate::proofs::Cookies::rising_last))]
    pub(crate) fn add(&mut self, row: Row) -> Result<(), Memory>
        requires { top 0 self.old < row.cookie }
        ensures ok { OnOk result (self.new ≡ self.old ++ row ∷ []) }
        ensures err { OnErr result (self.new ≡ self.old) }
    {
        let entry = Entry {
            name: row.name,
            place: row.place,
        };
        self.by_cookie.insert(row.cookie, entry)?;
        Ok(())
    }

    /// The entry of that cookie goes, if it is there.
    #[tactic(auto, using(crate::proofs::Cookies::remove_at, crate::proofs::Cookies::rising_without))]
    pub(crate) fn take(&mut self, cookie: u64)
        ensures { self.new ≡ without_cookie cookie self.old }
    {
        self.by_cookie.remove(&cookie);
    }
}
