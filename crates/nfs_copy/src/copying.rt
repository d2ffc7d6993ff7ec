//! A copy as what asks for the scripts of a session.

ghost use Rattle.std.specs.Prelude.{◌≡◌};

use asked_runs::Asker;
use copy_scripts::{Teller, Upload};
use file_trees::Tree;
use nfs_script::{Script, mount_line};
use outside::{Clock, Sink};
use std::alloc::Global;
use world_model::Fault;
use xdr_codec::{Memory, Writer};

/// A copy that is under way: its scripts, the tree that they are made of, and where it is told what wasn't copied.
#[derive(Drop)]
pub(crate) struct Copying<'a, T: Tree + Drop, K: Sink, C: Clock> {
    pub(crate) upload: Upload,
    pub(crate) tree: T,
    pub(crate) teller: Teller<'a, K, C>,
}

impl<T: Tree + Drop, K: Sink, C: Clock> Copying<'_, T, K, C> {
    /// The tree, as it is at the end.
    pub(crate) fn into_tree(self) -> T
        ensures { result ≡ self.entry.tree }
    {
        self.tree
    }
}

impl<T: Tree + Drop, K: Sink, C: Clock> Asker for Copying<'_, T, K, C> {
    ghost use Rattle.std.specs.Prelude.{◌≡◌};
    ghost use Rattle.std.proofs.Common.{refl};
    ghost use Rattle.nfs_copy.specs.Calls.{AskedSo, TellsWrong};

    ghost asks = { λ x rounds y. AskedSo T.given T.over rounds x.upload x.tree y.upload y.tree };

    ghost stays = { λ x y. Unit {0} };

    ghost tells = { λ x status. TellsWrong x.upload.wrong status };

    fn next(
        &mut self,
        alloc: Global,
        answers: &[u8],
        status: u8,
    ) -> Result<Option<Script>, Memory> {
        self.upload
            .next(alloc, &mut self.tree, &mut self.teller, answers, status)
    }

    fn refuse(&mut self, alloc: Global, fault: Fault) -> Result<(), Memory> {
        let mut text = Writer::new(alloc);
        mount_line(&mut text, fault)?;
        self.teller.say(text.finish().bytes());
        Ok(())
    }

    ghost none = { λ x. (refl, refl) };

    fn status(&self) -> u8 {
        if self.upload.is_wrong() { 1 } else { 0 }
    }
}
