//! How a record is handled.

ghost use Rattle.std.specs.Prelude.{◌≡◌};
ghost use Rattle.world_link.specs.Handling.{broken_unless, breaks};
ghost use Rattle.world_link.specs.Refused.{status_for};

use crate::directive::PartialWrite;
use nfs_file_calls::FileCall;
use world_model::Call;

/// How a record is handled in its turn. If nothing is said it is executed.
#[derive(Clone, Copy, Debug)]
pub(crate) struct Manner {
    /// Whether it isn't executed.
    pub(crate) lost: bool,
    /// The status that a MNT fails with in place of being executed.
    pub(crate) mount: Option<u32>,
    /// The status that another call fails with in place of being executed.
    pub(crate) answer: Option<u32>,
    /// How a WRITE breaks off.
    pub(crate) partial: Option<PartialWrite>,
    /// The most bytes that a READ or WRITE handles.
    pub(crate) limit: Option<u32>,
}

/// Nothing is said.
pub(crate) const PLAIN: Manner = Manner {
    lost: false,
    mount: None,
    answer: None,
    partial: None,
    limit: None,
};

impl Manner {
    /// The status that a call fails with, if one is given.
    pub(crate) fn status_for(&self, call: &Call) -> Option<u32>
        ensures { result ≡ status_for self.now.mount self.now.answer call.now }
    {
        match call {
            Call::File(_) => self.answer,
            Call::Dir(_) => self.answer,
            Call::Mount(_) => self.mount,
        }
    }

    /// How a call breaks off, if that is said of it and no status is given.
    pub(crate) fn breaks(&self, call: &Call) -> Option<PartialWrite>
        ensures { result ≡ breaks self.now call.now }
    {
        let Call::File(call) = call else {
            return None;
        };
        match call {
            FileCall::Write { .. } => self.broken(),
            _ => None,
        }
    }

    fn broken(&self) -> Option<PartialWrite>
        ensures { result ≡ broken_unless self.now.answer self.now.partial }
    {
        if self.answer.is_some() {
            return None;
        }
        let part = self.partial?;
        if part.status == 0 {
            return None;
        }
        Some(part)
    }
}
