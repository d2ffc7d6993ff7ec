//! What is kept of the files that were opened.

ghost use Rattle.std.specs.Prelude.{◌≡◌, List, ℕ, [], None, Some, IsSome, option_map, OnOk, OnErr, nat_eq, if◌then◌else◌};
ghost use Rattle.std.specs.Cmp.Lexicographic.{pointwise};
ghost use Rattle.std.specs.Map.{lookup};
ghost use Rattle.indexmap.specs.IndexMap.{insert_entry};
ghost use Rattle.page_cache.specs.Full.{states_of, learned, full_below_of};

use crate::state::{FileState, is_stamp};
use indexmap::IndexMap;
use nfs_types::{Handle, Stamp};
use std::alloc::Global;
use std::marker::Model;
use xdr_codec::Memory;

/// What is kept of a file.
#[derive(Clone, Copy)]
pub(crate) struct FileRecord {
    /// What is known of it.
    pub(crate) state: FileState,
    /// Its kept pages with lower numbers than this have 4,096 bytes each.
    pub(crate) full_below: u64,
}

/// The files that were opened, in the order of their first opens.
#[derive(Drop)]
pub(crate) struct Files {
    table: IndexMap<Handle, FileRecord>,
}

impl Model for Files {
    ghost use Rattle.std.specs.Prelude.{List, ℕ};
    ghost use Rattle.page_cache.specs.declared.files.FileRecord.{FileRecord};

    ghost Value = { List (List ℕ × FileRecord) };

    ghost view = { λ f. f.table.entries };
}

impl Files {
    /// No file.
    pub(crate) fn new(alloc: Global) -> Files
        ensures { result ≡ [] }
    {
        Files {
            table: IndexMap::new(alloc),
        }
    }

    /// What is kept of a file; None exactly if it was never opened.
    #[tactic(auto, using(crate::proofs::Bounds::states_lookup))]
    pub(crate) fn look_up(&self, file: &Handle) -> Option<FileRecord>
        ensures found { result ≡ lookup (pointwise nat_eq file.now) self.now }
        ensures state { option_map (λ r. r.state) result ≡ lookup (pointwise nat_eq file.now) (states_of self.now) }
    {
        Some(*self.table.get(file)?)
    }

    /// What is known of a file; None exactly if it was never opened.
    #[tactic(auto, using(crate::proofs::Bounds::states_lookup))]
    pub(crate) fn state(&self, file: &Handle) -> Option<FileState>
        ensures { result ≡ lookup (pointwise nat_eq file.now) (states_of self.now) }
    {
        Some(self.table.get(file)?.state)
    }

    /// Below which number its pages are whole; 0 if it was never opened.
    pub(crate) fn full_below(&self, file: &Handle) -> u64
        ensures { result ≡ full_below_of self.now file.now }
    {
        match self.table.get(file) {
            Some(record) => record.full_below,
            None => 0,
        }
    }

    /// This is known of a file from now on. Out of memory comes at a file that was never opened alone.
    #[tactic(auto, using(crate::proofs::Bounds::states_lookup, crate::proofs::Bounds::states_insert, crate::proofs::Bounds::full_below_insert))]
    pub(crate) fn put(
        &mut self,
        file: &Handle,
        state: FileState,
        full_below: u64,
    ) -> Result<(), Memory>
        ensures ok { OnOk result (states_of self.new ≡ insert_entry (pointwise nat_eq) (states_of self.old) file.now state) }
        ensures bound { OnOk result ((f : List ℕ) → full_below_of self.new f ≡ (if pointwise nat_eq f file.now then full_below else full_below_of self.old f)) }
        ensures err { OnErr result (self.new ≡ self.old) }
        ensures unknown { OnErr result (lookup (pointwise nat_eq file.now) (states_of self.old) ≡ None) }
    {
        self.table.insert(*file, FileRecord { state, full_below })?;
        Ok(())
    }

    /// The same of a file that was opened, which takes no memory.
    pub(crate) fn change(&mut self, file: &Handle, state: FileState, full_below: u64)
        requires { IsSome (lookup (pointwise nat_eq file.now) (states_of self.old)) }
        ensures known { states_of self.new ≡ insert_entry (pointwise nat_eq) (states_of self.old) file.now state }
        ensures bound { (f : List ℕ) → full_below_of self.new f ≡ (if pointwise nat_eq f file.now then full_below else full_below_of self.old f) }
    {
        let _ = self.put(file, state, full_below);
    }

    /// This stamp is known of a file from now on, of which this record is kept. If that says the same the file isn't
    /// looked up.
    pub(crate) fn learn(&mut self, file: &Handle, was: &FileRecord, stamp: &Stamp, full_below: u64)
        requires { lookup (pointwise nat_eq file.now) self.old ≡ Some was.now }
        ensures known { states_of self.new ≡ insert_entry (pointwise nat_eq) (states_of self.old) file.now (learned was.now stamp.now) }
        ensures bound { (f : List ℕ) → full_below_of self.new f ≡ (if pointwise nat_eq f file.now then full_below else full_below_of self.old f) }
    {
        if is_stamp(stamp, was.state.known) && full_below == was.full_below {
            return;
        }
        let state = FileState {
            known: Some(*stamp),
            mark: was.state.mark,
        };
        self.change(file, state, full_below);
    }
}
