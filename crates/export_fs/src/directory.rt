//! The names of a directory.

ghost use Rattle.std.specs.Prelude.{◌≡◌, ◌∷◌, [], option_map, MatchOption, OnOk, OnErr};
ghost use Rattle.export_fs.specs.Held.{Row};
ghost use Rattle.export_fs.specs.Names.{find_row, with_row, without_row};
ghost use Rattle.export_fs.specs.Refusals.{is_filled};
ghost use Rattle.export_fs.specs.Pages.{rows_after};
ghost use Rattle.export_fs.specs.Kept.{without_spot};

use crate::entries::Entries;
use crate::row::Row;
use nfs_types::Name;
use std::alloc::Global;
use std::collections::BTreeMap;
use std::marker::Model;
use xdr_codec::Memory;

/// What has a name, and with which cookie.
#[derive(Clone, Copy, Drop)]
struct Spot {
    place: u32,
    cookie: u64,
}

/// The names of a directory, found by name and listed in order of their cookies.
#[derive(Drop)]
pub(crate) struct Directory {
    parent: u32,
    last: u64,
    entries: Entries,
    by_name: BTreeMap<Name, Spot>,
}

impl Model for Directory {
    ghost use Rattle.export_fs.specs.Held.{Listing};

    ghost Value = { Listing };

    ghost use Rattle.export_fs.specs.Kept.{IsKept};

    ghost view = { λ d. record { parent = d.parent; last = d.last; rows = d.entries } };

    ghost invariant = { λ d. IsKept d.entries d.by_name d.last };
}

impl Directory {
    /// A directory without names, in the directory at a place. It takes no memory.
    pub(crate) fn new(alloc: Global, parent: u32) -> Directory
        ensures { result ≡ record { parent = parent; last = 0; rows = [] } }
    {
        Directory {
            parent,
            last: 0,
            entries: Entries::new(alloc),
            by_name: BTreeMap::new(alloc),
        }
    }

    /// The place of the directory above it.
    pub(crate) fn parent(&self) -> u32
        ensures { result ≡ self.now.parent }
    {
        self.parent
    }

    /// It moves into the directory at a place.
    pub(crate) fn set_parent(&mut self, parent: u32)
        ensures { self.new ≡ record self.old { parent = parent } }
    {
        self.parent = parent;
    }

    /// The last cookie that it gave, and 0 if it gave none.
    pub(crate) fn last(&self) -> u64
        ensures { result ≡ self.now.last }
    {
        self.last
    }

    /// Whether it has a name.
    pub(crate) fn is_filled(&self) -> bool
        ensures { result ≡ is_filled self.now.rows }
    {
        self.entries.is_filled()
    }

    /// The place of the object that has the name.
    pub(crate) fn find(&self, name: &Name) -> Option<u32>
        ensures { result ≡ option_map (λ (row : Row). row.place) (find_row name.now self.now.rows) }
    {
        match self.by_name.get(name) {
            Some(spot) => Some(spot.place),
            None => None,
        }
    }

    /// The first entry after a cookie.
    pub(crate) fn next(&self, cookie: u64) -> Option<Row>
        ensures { MatchOption result (rows_after cookie self.now.rows ≡ []) (λ row. rows_after cookie self.now.rows ≡ row ∷ rows_after row.cookie self.now.rows) }
    {
        self.entries.next(cookie)
    }

    /// Gives the name to the object at a place, with the next cookie; what had the name loses it. When out of memory,
    /// or if no cookie is left, it is as it was.
    pub(crate) fn put(&mut self, name: &Name, place: u32) -> Result<(), Memory>
        ensures ok { OnOk result (self.new ≡ with_row name.now place self.old) }
        ensures err { OnErr result (self.new ≡ self.old) }
    {
        let Some(cookie) = self.last.checked_add(1) else {
            return Err(Memory);
        };
        self.entries.add(Row {
            name: *name,
            place,
            cookie,
        })?;
        let before = match self.by_name.insert(*name, Spot { place, cookie }) {
            Ok(before) => before,
            Err(_) => {
                self.entries.take(cookie);
                return Err(Memory);
            }
        };
        forget(&mut self.entries, before);
        self.last = cookie;
        Ok(())
    }

    /// The name leaves, if it is there.
    pub(crate) fn remove(&mut self, name: &Name)
        ensures { self.new ≡ without_row name.now self.old }
    {
        let before = self.by_name.remove(name);
        forget(&mut self.entries, before);
    }
}

/// The entry of what had a name goes.
fn forget(entries: &mut Entries, before: Option<Spot>)
    ensures { entries.new ≡ without_spot before entries.old }
{
    if let Some(spot) = before {
        entries.take(spot.cookie);
    }
}
