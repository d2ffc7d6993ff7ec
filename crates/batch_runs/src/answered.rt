//! The batches that were answered.

ghost use Rattle.std.specs.Prelude.{◌≡◌, ◌+◌, max, IfOk};

use crate::status;
use xdr_codec::Memory;

/// How many batches were answered, and the status by them.
#[derive(Clone, Copy)]
pub(crate) struct Answered {
    /// How many.
    pub(crate) count: u32,
    /// The worst of their statuses: 6, 3, 1 or 0.
    pub(crate) status: u8,
}

impl Answered {
    /// None was answered.
    pub(crate) fn none() -> Answered
        ensures { result ≡ record { count = 0; status = 0 } }
    {
        Answered {
            count: 0,
            status: status::WELL,
        }
    }

    /// The number of the next batch. An error stands for one of 2^32 and above.
    pub(crate) fn next(&self) -> Result<u32, Memory>
        ensures { IfOk result (λ number. number ≡ self.now.count + 1) }
    {
        match self.count.checked_add(1) {
            Some(number) => Ok(number),
            None => Err(Memory),
        }
    }

    /// The batch of that number was answered with the status.
    pub(crate) fn add(&mut self, number: u32, status: u8)
        ensures { self.new ≡ record { count = number; status = max self.old.status status } }
    {
        self.count = number;
        self.status = self.status.max(status);
    }
}
