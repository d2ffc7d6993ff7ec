//! Transmissions, counted by procedure.

ghost use Rattle.std.specs.Prelude.{◌≡◌, slice_index};
ghost use Rattle.world_link.specs.Holding as holding;

use crate::directive::RequestId;

/// How many procedures of NFS there are (RFC 1813, section 3).
const PROCEDURES: usize = 22;

/// The last count that a schedule can name.
const LAST: u32 = 4_294_967_295;

/// For each procedure of NFS, which of its transmissions was the last one.
#[derive(Clone, Copy, Debug)]
pub(crate) struct RequestCounts {
    counts: [u32; PROCEDURES],
}

/// There was no sending.
pub(crate) const NONE_YET: RequestCounts = RequestCounts {
    counts: [0; PROCEDURES],
};

impl RequestCounts {
    /// The next sending of the procedure. None after the last one that a schedule can name.
    pub(crate) fn next(&self, proc: u32) -> Option<RequestId>
        ensures { result ≡ holding.next_of self.now.counts proc }
    {
        let last = self.last(proc);
        if last == LAST {
            None
        } else {
            Some(RequestId { proc, k: last + 1 })
        }
    }

    /// That sending was the last one of its procedure.
    pub(crate) fn count(&mut self, sending: RequestId)
        ensures { self.new.counts ≡ holding.counted self.old.counts sending }
    {
        let place = sending.proc as usize;
        if place < PROCEDURES {
            self.counts[place] = sending.k;
        }
    }

    /// The same, if the transmission has a name.
    pub(crate) fn count_if(&mut self, sending: Option<RequestId>)
        ensures { self.new.counts ≡ holding.counted_if self.old.counts sending }
    {
        if let Some(sending) = sending {
            self.count(sending);
        }
    }

    /// Whether each of the transmissions is the last one of its procedure, or was before it.
    pub(crate) fn are_past(&self, sendings: &[RequestId]) -> bool
        ensures { result ≡ holding.are_past self.now.counts sendings.now }
    {
        sendings.iter().all(|sending| self.is_past(sending))
    }

    fn is_past(&self, sending: &RequestId) -> bool
        ensures { result ≡ holding.is_past self.now.counts sending.now }
    {
        sending.k <= self.last(sending.proc)
    }

    /// Which sending of the procedure was the last one; 0 if there was none.
    fn last(&self, proc: u32) -> u32
        ensures { result ≡ slice_index self.now.counts proc }
    {
        let place = proc as usize;
        if place < PROCEDURES {
            self.counts[place]
        } else {
            0
        }
    }
}
