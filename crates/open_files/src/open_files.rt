//! The files that a client holds open.

ghost use Rattle.std.specs.Prelude.{◌≡◌, ◌↔◌, ℕ, IsTrue, None, IfNone, IfSome, IsSomeAnd, MatchOption, OnOk, OnErr};
ghost use Rattle.std.specs.Option.{option_copied};
ghost use Rattle.std.specs.FinMap as map;
ghost use Rattle.slab.specs.Slab.{get};
ghost use Rattle.open_files.specs.Slots.{HoldsAny, IsOpen, TellsLast};
ghost use Rattle.open_files.specs.Held.{IsAt, HasFile, HasNoneAt};

use crate::opened::Opened;
use nfs_types::Handle;
use slab::Slab;
use std::alloc::Global;
use std::marker::Model;
use xdr_codec::Memory;

/// An open, with the place that holds it.
#[derive(Clone, Copy, Debug)]
struct Held {
    lane: u8,
    slot: u8,
    of: Opened,
}

impl Held {
    /// Whether it is held at this slot of this lane.
    fn is_at(&self, lane: u8, slot: u8) -> bool
        ensures { IsTrue result ↔ IsAt (lane, slot) self.now }
    {
        self.lane == lane && self.slot == slot
    }

    /// Whether it is an open of this file.
    fn is_of(&self, file: &Handle) -> bool
        ensures { IsTrue result ↔ (self.now.of.file ≡ file.now) }
    {
        self.of.file == *file
    }
}

/// The files that a client holds open: for each lane and slot, one open or none. It takes memory for as many opens as
/// there were at once, and a look-up walks those.
#[derive(Drop)]
pub struct OpenFiles {
    opens: Slab<Held>,
}

impl Model for OpenFiles {
    ghost use Rattle.std.specs.FinMap as map;
    ghost use Rattle.std.specs.Coded.{coded_ℕ, coded×};
    ghost use Rattle.open_files.specs.declared.opened.Opened.{Opened};
    ghost use Rattle.open_files.specs.contracts.opened.Opened.{the_row as opened};
    ghost use Rattle.open_files.specs.Slots.{place_cmp};

    ghost Value = { map.FinMap place_cmp Opened };

    ghost coded = { map.code (coded× coded_ℕ coded_ℕ) opened.coded };

    ghost use Rattle.open_files.specs.Held.{opens_of, IsDistinct};

    ghost view = { λ o. opens_of o.opens };

    ghost invariant = { λ o. IsDistinct o.opens };
}

impl OpenFiles {
    /// Holds no open yet, and takes no memory.
    pub fn new(alloc: Global) -> OpenFiles
        ensures { result ≡ map.empty }
    {
        OpenFiles {
            opens: Slab::new(alloc),
        }
    }

    /// Holds an open at a slot of a lane. The condition is that the slot is free. When out of memory nothing is
    /// changed.
    pub fn put(&mut self, lane: u8, slot: u8, of: Opened) -> Result<(), Memory>
        requires { map.get self.old (lane, slot) ≡ None }
        ensures ok { OnOk result (self.new ≡ map.insert self.old (lane, slot) of) }
        ensures err { OnErr result (self.new ≡ self.old) }
    {
        self.opens.insert(Held { lane, slot, of })?;
        Ok(())
    }

    /// The open at a slot of a lane. None exactly if the slot is free.
    pub fn get(&self, lane: u8, slot: u8) -> Option<&Opened>
        ensures { option_copied result ≡ map.get self.now (lane, slot) }
    {
        let key = key_at(&self.opens, lane, slot)?;
        Some(&self.opens[key].of)
    }

    /// Frees a slot of a lane, and tells whether it was the last one that held its file. None exactly if the slot
    /// was free, and then nothing is changed.
    pub fn close(&mut self, lane: u8, slot: u8) -> Option<bool>
        ensures none { IfNone result ((map.get self.old (lane, slot) ≡ None) × (self.new ≡ self.old)) }
        ensures last { IfSome result (TellsLast self.old self.new (lane, slot)) }
        ensures after { self.new ≡ map.remove self.old (lane, slot) }
    {
        let key = key_at(&self.opens, lane, slot)?;
        let held = self.opens.try_remove(key)?;
        Some(!self.is_open(&held.of.file))
    }

    /// Whether some slot of some lane holds the file.
    pub fn is_open(&self, file: &Handle) -> bool
        ensures { IsTrue result ↔ IsOpen self.now file.now }
    {
        holds_file(&self.opens, file)
    }

    /// Whether any slot of any lane holds an open.
    pub fn any(&self) -> bool
        ensures { IsTrue result ↔ HoldsAny self.now }
    {
        !self.opens.is_empty()
    }
}

/// The key of the open at a slot of a lane.
fn key_at(opens: &Slab<Held>, lane: u8, slot: u8) -> Option<usize>
    ensures { MatchOption result (HasNoneAt opens.now (lane, slot)) (λ key. IsSomeAnd (get opens.now key) (IsAt (lane, slot))) }
{
    for (key, held) in opens.iter() {
        if held.is_at(lane, slot) {
            return Some(key);
        }
    }
    None
}

/// Whether an open is of this file.
fn holds_file(opens: &Slab<Held>, file: &Handle) -> bool
    ensures { IsTrue result ↔ HasFile opens.now file.now }
{
    for (_, held) in opens.iter() {
        if held.is_of(file) {
            return true;
        }
    }
    false
}
