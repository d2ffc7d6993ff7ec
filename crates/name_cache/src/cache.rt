//! The names of directories.

ghost use Rattle.std.specs.Prelude.{◌≡◌, [], IfOk, OnOk, OnErr, None};
ghost use Rattle.name_cache.specs.Names.{kept_of, looked, after_look, learnt, without_dir, turned};

use crate::entry::{KeptName, Place};
use lru::LruCache;
use nfs_types::{Handle, Name, Stamp};
use std::alloc::Global;
use std::marker::Model;
use std::num::NonZeroUsize;
use xdr_codec::Memory;

/// What at most 256 names stand for, each in its directory. If there are more, the one that wasn't used for the
/// longest time goes.
#[derive(Drop)]
pub struct NameCache {
    names: LruCache<Place, KeptName>,
}

impl Model for NameCache {
    ghost use Rattle.std.specs.Prelude.{List, ◌≡◌, ◌≤◌, length};
    ghost use Rattle.name_cache.specs.declared.entry.Place.{Place};
    ghost use Rattle.name_cache.specs.declared.entry.KeptName.{KeptName};

    ghost Value = { List (Place × KeptName) };

    ghost view = { λ c. c.names.entries };

    ghost invariant = { λ c. (c.names.cap ≡ 256) × (length c.names.entries ≤ 256) };
}

impl NameCache {
    /// The most names that are kept.
    pub const MAX: usize = 256;

    /// Knows no name.
    pub fn new(alloc: Global) -> Result<NameCache, Memory>
        ensures { IfOk result (λ c. c ≡ []) }
    {
        let most = NonZeroUsize::new(NameCache::MAX).unwrap();
        Ok(NameCache {
            names: LruCache::new(alloc, most)?,
        })
    }

    /// What a name stands for in a directory whose length and times of change are those of `stamp`. None exactly
    /// if nothing is kept of that name, or it was learnt under another stamp. An answered entry goes to the front;
    /// else the order stays.
    pub fn look(&mut self, dir: &Handle, name: &Name, stamp: &Stamp) -> Option<Handle>
        ensures found { result ≡ looked dir.now name.now stamp.now self.old }
        ensures order { self.new ≡ after_look dir.now name.now stamp.now self.old }
    {
        let place = Place {
            dir: *dir,
            name: *name,
        };
        let kept = *self.names.peek(&place)?;
        if !kept.has_stamp(stamp) {
            return None;
        }
        self.names.promote(&place);
        Some(kept.found)
    }

    /// Learns what a name stands for in a directory in the state of `stamp`. It stands in front, in place of what was
    /// kept of that name. When out of memory, which comes at a name of which nothing is kept alone, nothing is changed.
    pub fn learn(
        &mut self,
        dir: &Handle,
        name: &Name,
        stamp: &Stamp,
        found: &Handle,
    ) -> Result<(), Memory>
        ensures ok { OnOk result (self.new ≡ learnt dir.now name.now stamp.now found.now self.old) }
        ensures err { OnErr result (self.new ≡ self.old) }
        ensures unknown { OnErr result (kept_of dir.now name.now self.old ≡ None) }
    {
        let place = Place {
            dir: *dir,
            name: *name,
        };
        let kept = KeptName {
            stamp: *stamp,
            found: *found,
        };
        self.names.put(place, kept)?;
        Ok(())
    }

    /// Drops every name of a directory. The order of the others stays.
    pub fn drop_dir(&mut self, dir: &Handle)
        ensures { self.new ≡ without_dir dir.now self.old }
    {
        let count = self.names.len();
        for _ in 0..count {
            self.turn(dir);
        }
    }

    // Each entry passes the front once, so that those which stay end in their order and no memory is needed.
    fn turn(&mut self, dir: &Handle)
        ensures { self.new ≡ turned dir.now self.old }
    {
        let place = match self.names.peek_mru() {
            Some((place, _)) => *place,
            None => return,
        };
        if place.dir == *dir {
            self.names.pop_mru();
        } else {
            self.names.demote(&place);
        }
    }
}
