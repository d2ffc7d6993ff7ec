//! The files that were renamed in place of being removed.

ghost use Rattle.std.specs.Prelude.{◌≡◌, OnOk, OnErr, IfNone};
ghost use Rattle.std.specs.FinMap as map;

use nfs_types::{Handle, Name};
use std::alloc::Global;
use std::collections::BTreeMap;
use std::marker::Model;
use xdr_codec::Memory;

/// The files that were renamed in place of being removed, each with the directory and the name that it has now. They
/// are to be removed at their last close.
#[derive(Drop)]
pub struct Silly {
    places: BTreeMap<Handle, (Handle, Name)>,
}

impl Model for Silly {
    ghost use Rattle.std.specs.Prelude.{ℕ, List};
    ghost use Rattle.std.specs.Ordering.{nat_cmp};
    ghost use Rattle.std.specs.Cmp.Lexicographic.{slice_cmp};
    ghost use Rattle.std.specs.Coded.{coded_ℕ, coded_list, coded×};
    ghost use Rattle.std.specs.FinMap as map;

    ghost Value = { map.FinMap (slice_cmp nat_cmp) (List ℕ × List ℕ) };

    ghost coded = { map.code (coded_list coded_ℕ) (coded× (coded_list coded_ℕ) (coded_list coded_ℕ)) };

    ghost view = { λ s. map.from_entries s.places.entries };
}

impl Silly {
    /// Keeps nothing yet, and takes no memory.
    pub fn new(alloc: Global) -> Silly
        ensures { result ≡ map.empty }
    {
        Silly {
            places: BTreeMap::new(alloc),
        }
    }

    /// Keeps the directory and the name that the file has now, in place of what was kept of it. When out of memory
    /// nothing is changed.
    pub fn put(&mut self, file: &Handle, dir: &Handle, name: &Name) -> Result<(), Memory>
        ensures ok { OnOk result (self.new ≡ map.insert self.old file.now (dir.now, name.now)) }
        ensures err { OnErr result (self.new ≡ self.old) }
    {
        self.places.insert(*file, (*dir, *name))?;
        Ok(())
    }

    /// At the last close of a file: the directory and the name that are to be removed. None exactly if nothing is
    /// kept of the file. From then on nothing is.
    pub fn on_last_close(&mut self, file: &Handle) -> Option<(Handle, Name)>
        ensures told { result ≡ map.get self.old file.now }
        ensures after { self.new ≡ map.remove self.old file.now }
        ensures none { IfNone result (self.new ≡ self.old) }
    {
        self.places.remove(file)
    }
}
