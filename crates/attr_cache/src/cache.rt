//! The attributes of files.

ghost use Rattle.std.specs.Prelude.{◌≡◌, [], ◌∷◌, OnOk, OnErr, IfOk, None, Some, nat_eq};
ghost use Rattle.std.specs.Cmp.Lexicographic.{pointwise};
ghost use Rattle.std.specs.Map.{lookup, remove_entry};
ghost use Rattle.attr_cache.specs.Attrs.{usual_lives, nothing_learnt, kept_of, looked, learnt, forgotten, fronted};
ghost use Rattle.attr_cache.specs.Tables.{HasRoom};

use crate::kept::KeptAttr;
use crate::lives::Lives;
use lru::LruCache;
use nfs_types::{Attr, Handle};
use std::alloc::Global;
use std::marker::Model;
use std::num::NonZeroUsize;
use xdr_codec::Memory;

/// The attributes of at most 1,024 files. Moments are milliseconds of the client's clock.
#[derive(Drop)]
pub struct AttrCache {
    alloc: Global,
    // None until the first file is learnt, so that a new cache takes no memory.
    table: Option<LruCache<Handle, KeptAttr>>,
    lives: Lives,
}

impl Model for AttrCache {
    ghost use Rattle.attr_cache.specs.Attrs.{Attrs};
    ghost use Rattle.attr_cache.specs.Tables.{entries_in, HasRoom};

    ghost Value = { Attrs };

    ghost view = { λ c. record { entries = entries_in c.table; lives = c.lives } };

    ghost invariant = { λ c. HasRoom c.table };
}

impl AttrCache {
    /// The most files of which attributes are kept.
    pub const MAX: usize = 1024;

    /// Knows no file. Attributes are believed for 3 to 60 seconds, those of directories for 30 to 60 seconds.
    pub fn new(alloc: Global) -> AttrCache
        ensures { result ≡ nothing_learnt usual_lives }
    {
        AttrCache::with_lives(
            alloc,
            Lives {
                reg_min: 3_000,
                reg_max: 60_000,
                dir_min: 30_000,
                dir_max: 60_000,
            },
        )
    }

    /// Knows no file. Attributes are believed for so long.
    pub fn with_lives(alloc: Global, lives: Lives) -> AttrCache
        ensures { result ≡ nothing_learnt lives }
    {
        AttrCache {
            alloc,
            table: None,
            lives,
        }
    }

    /// The attributes of a file; None exactly if none are kept, or `now` is at or past the end of their lifetime.
    pub fn look(&self, file: &Handle, now: u64) -> Option<Attr>
        ensures { result ≡ looked file.now now self.now }
    {
        let kept = self.kept(file)?;
        if kept.is_fresh(now) {
            Some(kept.attr)
        } else {
            None
        }
    }

    /// Learns attributes that a call told which was sent at `sent_at`. Those of an earlier call than the last one
    /// that counted change nothing. The file goes to the front; if there were 1,024 others, the last one is dropped. The
    /// lifetime is the shortest for a file that wasn't known or has changed; else it stays if it
    /// hadn't ended at `sent_at`, and doubles up to the longest if it had. When out of memory, which comes at a
    /// file that wasn't known alone, nothing is changed.
    pub fn learn(&mut self, file: &Handle, attr: &Attr, sent_at: u64) -> Result<(), Memory>
        ensures ok { OnOk result (self.new ≡ learnt file.now attr.now sent_at self.old) }
        ensures err { OnErr result (self.new ≡ self.old) }
        ensures unknown { OnErr result (kept_of file.now self.old ≡ None) }
    {
        let lifetime = match self.kept(file) {
            Some(kept) => {
                if sent_at < kept.sent_at {
                    return Ok(());
                }
                kept.next_lifetime(&self.lives, attr, sent_at)
            }
            None => self.lives.shortest(attr),
        };
        self.put(
            file,
            KeptAttr {
                attr: *attr,
                sent_at,
                lifetime,
            },
        )
    }

    /// Forgets a file. One that isn't known changes nothing.
    pub fn forget(&mut self, file: &Handle)
        ensures { self.new ≡ forgotten file.now self.old }
    {
        match &mut self.table {
            Some(table) => take_out(table, file),
            None => {}
        }
    }

    /// What is kept of a file.
    fn kept(&self, file: &Handle) -> Option<KeptAttr>
        ensures { result ≡ kept_of file.now self.now }
    {
        let table = self.table.as_ref()?;
        Some(*table.peek(file)?)
    }

    /// Puts what is kept of a file in front. When out of memory, which comes at a file that wasn't known alone, nothing is
    /// changed.
    fn put(&mut self, file: &Handle, kept: KeptAttr) -> Result<(), Memory>
        ensures ok { OnOk result (self.new ≡ record self.old { entries = fronted file.now kept self.old.entries }) }
        ensures err { OnErr result (self.new ≡ self.old) }
        ensures unknown { OnErr result (kept_of file.now self.old ≡ None) }
    {
        match &mut self.table {
            Some(table) => put_front(table, file, kept),
            None => {
                self.table = Some(table_of(self.alloc, file, kept)?);
                Ok(())
            }
        }
    }
}

/// Puts what is kept of a file in front of a table.
fn put_front(
    table: &mut LruCache<Handle, KeptAttr>,
    file: &Handle,
    kept: KeptAttr,
) -> Result<(), Memory>
    requires { HasRoom (Some table.old) }
    ensures room { HasRoom (Some table.new) }
    ensures ok { OnOk result (table.new.entries ≡ fronted file.now kept table.old.entries) }
    ensures err { OnErr result (table.new ≡ table.old) }
    ensures unknown { OnErr result (lookup (pointwise nat_eq file.now) table.old.entries ≡ None) }
{
    table.put(*file, kept)?;
    Ok(())
}

/// Takes what is kept of a file out of a table.
fn take_out(table: &mut LruCache<Handle, KeptAttr>, file: &Handle)
    requires { HasRoom (Some table.old) }
    ensures room { HasRoom (Some table.new) }
    ensures is { table.new.entries ≡ remove_entry (pointwise nat_eq file.now) table.old.entries }
{
    table.pop(file);
}

/// A table with what is kept of one file.
fn table_of(
    alloc: Global,
    file: &Handle,
    kept: KeptAttr,
) -> Result<LruCache<Handle, KeptAttr>, Memory>
    ensures room { IfOk result (λ table. HasRoom (Some table)) }
    ensures is { IfOk result (λ table. table.entries ≡ (file.now, kept) ∷ []) }
{
    let most = NonZeroUsize::new(AttrCache::MAX).unwrap();
    let mut table = LruCache::new(alloc, most)?;
    table.put(*file, kept)?;
    Ok(table)
}
