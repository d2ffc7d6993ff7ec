//! A copy from a server as what asks for the scripts of a session.

ghost use Rattle.std.specs.Prelude.{◌≡◌};

use asked_runs::Asker;
use copy_scripts::Teller;
use copy_targets::Target;
use fetch_scripts::Download;
use nfs_script::{Script, mount_line};
use outside::{Clock, Sink};
use std::alloc::Global;
use world_model::Fault;
use xdr_codec::{Memory, Writer};

/// A copy that is under way: its scripts, the target that takes what they read, and where it is told what wasn't copied.
#[derive(Drop)]
pub(crate) struct Fetching<'a, T: Target + Drop, K: Sink, C: Clock> {
    pub(crate) download: Download,
    pub(crate) target: T,
    pub(crate) teller: Teller<'a, K, C>,
}

impl<T: Target + Drop, K: Sink, C: Clock> Fetching<'_, T, K, C> {
    /// The target, as it is at the end.
    pub(crate) fn into_target(self) -> T
        ensures { result ≡ self.entry.target }
    {
        self.target
    }
}

impl<T: Target + Drop, K: Sink, C: Clock> Asker for Fetching<'_, T, K, C> {
    ghost use Rattle.std.specs.Prelude.{◌≡◌};
    ghost use Rattle.std.proofs.Common.{refl};
    ghost use Rattle.nfs_fetch.specs.Calls.{AskedSo, TellsWrong};

    ghost asks = { λ x rounds y. AskedSo T.took rounds x.download x.target y.download y.target };

    ghost stays = { λ x y. Unit {0} };

    ghost tells = { λ x status. TellsWrong x.download.wrong status };

    fn next(
        &mut self,
        alloc: Global,
        answers: &[u8],
        _status: u8,
    ) -> Result<Option<Script>, Memory> {
        self.download
            .next(alloc, &mut self.target, &mut self.teller, answers)
    }

    fn refuse(&mut self, alloc: Global, fault: Fault) -> Result<(), Memory> {
        let mut text = Writer::new(alloc);
        mount_line(&mut text, fault)?;
        self.teller.say(text.finish().bytes());
        Ok(())
    }

    ghost none = { λ x. (refl, refl) };

    fn status(&self) -> u8 {
        if self.download.is_wrong() { 1 } else { 0 }
    }
}
