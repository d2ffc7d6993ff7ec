//! What wasn't copied.

ghost use Rattle.std.specs.Prelude.{◌≡◌, ◌++◌, false, true, IfOk, IfSome};
ghost use Rattle.nfs_script.specs.Asked.{IsNamed, IsPath};

use crate::paths::below;
use copy_scripts::{Teller, below as named_below};
use copy_targets::Why;
use outside::{Clock, Sink};
use std::alloc::Global;
use std::marker::Model;
use world_model::Path;
use xdr_codec::Memory;

/// Whether something wasn't copied. Each such object is told.
#[derive(Drop)]
pub(crate) struct Blame {
    /// The path that is copied.
    from: Path,
    is_wrong: bool,
}

impl Model for Blame {
    ghost use Rattle.fetch_scripts.specs.Downloads.{BlameView};

    ghost Value = { BlameView };

    ghost view = { λ b. record { from = b.from; wrong = b.is_wrong } };
}

impl Blame {
    /// Nothing went wrong so far.
    pub(crate) fn new(from: Path) -> Blame
        ensures { result ≡ record { from = from; wrong = false } }
    {
        Blame {
            from,
            is_wrong: false,
        }
    }

    /// Whether something wasn't copied.
    pub(crate) fn is_wrong(&self) -> bool
        ensures { result ≡ self.now.wrong }
    {
        self.is_wrong
    }

    /// The path on the server of one below that is copied. If it has none it isn't copied.
    pub(crate) fn full(&mut self, alloc: Global, path: &Path) -> Result<Option<Path>, Memory>
        ensures full { IfOk result (λ full. IfSome full IsPath) }
        ensures from { self.new.from ≡ self.old.from }
    {
        let full = below(alloc, &self.from, path)?;
        if full.is_none() {
            self.is_wrong = true;
        }
        Ok(full)
    }

    /// The same of what has a name.
    pub(crate) fn named(&mut self, alloc: Global, path: &Path) -> Result<Option<Path>, Memory>
        ensures full { IfOk result (λ full. IfSome full (λ p. (p ≡ self.old.from ++ path.now) × IsNamed p)) }
        ensures from { self.new.from ≡ self.old.from }
    {
        let full = named_below(alloc, &self.from, path)?;
        if full.is_none() {
            self.is_wrong = true;
        }
        Ok(full)
    }

    /// What stands at a path below wasn't copied: why, in words.
    pub(crate) fn complain<K: Sink, C: Clock>(
        &mut self,
        alloc: Global,
        teller: &mut Teller<'_, K, C>,
        path: &Path,
        why: &[u8],
    ) -> Result<(), Memory>
        ensures { self.new ≡ record self.old { wrong = true } }
    {
        self.is_wrong = true;
        match below(alloc, &self.from, path)? {
            Some(full) => teller.complain(&full, why),
            None => teller.complain(path, why),
        }
    }
}

/// Why an object isn't at its place, in words.
pub(crate) fn said(why: Why) -> &'static [u8] {
    match why {
        Why::Refused(_) => b"the system refused it",
        Why::Unnamed => b"its name can't be used here",
        Why::Missing => b"isn't here",
        Why::Kind => b"something of another kind is here",
        Why::Other => b"differs",
    }
}
