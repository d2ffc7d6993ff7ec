//! A trace while its lines are read.

ghost use Rattle.std.specs.Prelude.{◌≡◌, ◌<◌, ◌≤◌, Some, OnOk, is_some, length, position};
ghost use Rattle.std.specs.Option.{option_map};
ghost use Rattle.trace_data.specs.Histories.{object_of};
ghost use Rattle.trace_text.specs.HeadLines.{are_some};
ghost use Rattle.trace_text.specs.Objects.{gone_of, with_object, with_verf};
ghost use Rattle.trace_text.specs.Puts.{is_under, put_at};
ghost use Rattle.trace_text.specs.Told.{Says, Takes, added, begun, changed, entered, nothing_told, object_now, told_by, with_lives, with_noac, with_nocto, with_root};

use crate::discard::discard;
use crate::fault::LineFault;
use nfs_types::{Handle, Verf};
use std::alloc::Global;
use std::marker::Model;
use trace_data::{Object, Trace, Update, Updated, object_at, verf_at};
use world_model::Entry;
use xdr_codec::Memory;

/// The most entries of a trace.
const MOST_ENTRIES: usize = 4096;

/// The greatest lifetime if no line says it, in milliseconds.
const USUAL_LIFETIME: u64 = 60_000;

/// What the lines so far say.
#[derive(Drop)]
pub(crate) struct Draft {
    begun: bool,
    root: Option<Handle>,
    lives: Option<u64>,
    noac: bool,
    nocto: bool,
    start: Update,
    entries: Vec<Entry>,
    updates: Vec<Update>,
}

impl Model for Draft {
    ghost use Rattle.trace_text.specs.Told.{IsPaired, Lines};

    ghost Value = { Lines };

    ghost view = { λ d. record {
      begun = d.begun;
      root = d.root;
      lives = d.lives;
      noac = d.noac;
      nocto = d.nocto;
      start = d.start;
      entries = d.entries.items;
      updates = d.updates.items;
    } };

    ghost invariant = { λ d. IsPaired d.entries.items d.updates.items };
}

impl Draft {
    /// Says nothing yet.
    pub(crate) fn new(alloc: Global) -> Draft
        ensures { told_by result ≡ nothing_told }
    {
        Draft {
            begun: false,
            root: None,
            lives: None,
            noac: false,
            nocto: false,
            start: Update {
                verf: Verf([0; 8]),
                objects: Vec::new(alloc),
            },
            entries: Vec::new(alloc),
            updates: Vec::new(alloc),
        }
    }

    /// Whether a line was read.
    pub(crate) fn has_begun(&self) -> bool
        ensures { result ≡ (told_by self.now).begun }
    {
        self.begun
    }

    /// Whether a line said the greatest lifetime.
    pub(crate) fn has_lives(&self) -> bool
        ensures { result ≡ is_some (told_by self.now).lives }
    {
        self.lives.is_some()
    }

    /// Whether no attributes are cached.
    pub(crate) fn is_noac(&self) -> bool
        ensures { result ≡ (told_by self.now).noac }
    {
        self.noac
    }

    /// Whether an open doesn't ask for attributes anew.
    pub(crate) fn is_nocto(&self) -> bool
        ensures { result ≡ (told_by self.now).nocto }
    {
        self.nocto
    }

    /// The entries so far.
    pub(crate) fn entries(&self) -> &[Entry]
        ensures { result.now ≡ (told_by self.now).history.entries }
    {
        self.entries.as_slice()
    }

    /// Whether there is an entry.
    pub(crate) fn has_entries(&self) -> bool
        ensures { result ≡ are_some (told_by self.now).history.entries }
    {
        !self.entries.is_empty()
    }

    /// A line was read.
    pub(crate) fn begin(&mut self)
        ensures { told_by self.new ≡ begun (told_by self.old) }
    {
        self.begun = true;
    }

    /// The root's file handle is known.
    pub(crate) fn set_root(&mut self, root: Handle)
        ensures { told_by self.new ≡ with_root root (told_by self.old) }
    {
        self.root = Some(root);
    }

    /// The greatest lifetime, in milliseconds.
    pub(crate) fn set_lives(&mut self, lives: u64)
        ensures { told_by self.new ≡ with_lives lives (told_by self.old) }
    {
        self.lives = Some(lives);
    }

    /// No attributes are cached.
    pub(crate) fn set_noac(&mut self)
        ensures { told_by self.new ≡ with_noac (told_by self.old) }
    {
        self.noac = true;
    }

    /// An open doesn't ask for attributes anew.
    pub(crate) fn set_nocto(&mut self)
        ensures { told_by self.new ≡ with_nocto (told_by self.old) }
    {
        self.nocto = true;
    }

    /// Adds an entry, which so far leaves the server as it was. There may be 4,096.
    pub(crate) fn enter(&mut self, alloc: Global, entry: Entry) -> Result<(), LineFault>
        ensures { Takes result (told_by self.new) (entered entry (told_by self.old)) }
    {
        if self.entries.len() >= MOST_ENTRIES {
            discard(entry);
            return Err(LineFault::Form);
        }
        self.add(alloc, entry)?;
        Ok(())
    }

    fn add(&mut self, alloc: Global, entry: Entry) -> Result<(), Memory>
        requires { length (told_by self.old).history.entries < 4096 }
        ensures { OnOk result (told_by self.new ≡ added entry (told_by self.old)) }
    {
        let update = Update {
            verf: verf_at(self.start.verf, self.updates.as_slice(), self.updates.len()),
            objects: Vec::new(alloc),
        };
        let Ok(()) = self.updates.reserve(1) else {
            discard(entry);
            return Err(Memory);
        };
        self.entries.push(entry)?;
        let Ok(()) = self.updates.push(update) else {
            unreachable!();
        };
        Ok(())
    }

    /// The write verifier from the last entry on.
    pub(crate) fn set_verf(&mut self, verf: Verf)
        ensures { told_by self.new ≡ changed (with_verf verf) (told_by self.old) }
    {
        let count = self.updates.len();
        if count == 0 {
            self.start.verf = verf;
        } else {
            self.updates[count - 1].verf = verf;
        }
    }

    /// The object under the handle after the entries so far.
    pub(crate) fn object(&self, handle: &Handle) -> Option<&Object>
        ensures { option_map (λ o. object_of o.now) result ≡ object_now (told_by self.now) handle.now }
    {
        object_at(
            self.start.objects.as_slice(),
            self.updates.as_slice(),
            self.updates.len(),
            handle,
        )
    }

    /// Whether the object under the handle was there and is gone.
    pub(crate) fn is_gone(&self, handle: &Handle) -> bool
        ensures { result ≡ gone_of (object_now (told_by self.now) handle.now) }
    {
        match self.object(handle) {
            Some(object) => object.gone,
            None => false,
        }
    }

    /// The object under the handle from the last entry on.
    pub(crate) fn set_object(&mut self, handle: Handle, object: Object) -> Result<(), LineFault>
        ensures { Takes result (told_by self.new) (Some (changed (with_object handle (object_of object)) (told_by self.old))) }
    {
        let count = self.updates.len();
        if count == 0 {
            put(&mut self.start, handle, object)?;
        } else {
            put(&mut self.updates[count - 1], handle, object)?;
        }
        Ok(())
    }

    /// The trace of the lines.
    pub(crate) fn finish(self) -> Trace
        ensures says { Says result (told_by self) }
        ensures few { length result.entries.items ≤ 4096 }
    {
        Trace {
            root: self.root,
            lives: match self.lives {
                Some(lives) => lives,
                None => USUAL_LIFETIME,
            },
            noac: self.noac,
            nocto: self.nocto,
            start: self.start,
            entries: self.entries,
            updates: self.updates,
        }
    }
}

/// The update has this object under the handle.
fn put(update: &mut Update, handle: Handle, object: Object) -> Result<(), Memory>
    ensures verf { update.new.verf ≡ update.old.verf }
    ensures objects { OnOk result (update.new.objects.items ≡ put_at handle object update.old.objects.items) }
{
    let updated = Updated { handle, object };
    match place_of(update.objects.as_slice(), &updated.handle) {
        Some(place) => {
            update.objects[place] = updated;
            Ok(())
        }
        None => {
            update.objects.push(updated)?;
            Ok(())
        }
    }
}

/// Where the handle stands first.
fn place_of(objects: &[Updated], handle: &Handle) -> Option<usize>
    ensures { result ≡ position (is_under handle.now) objects.now }
{
    objects.iter().position(|updated| updated.handle == *handle)
}
