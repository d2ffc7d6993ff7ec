//! How datagrams are paced: what finds no room in a server's socket is lost, and goes again only after 15 seconds.

/// The most bytes that are under way without an answer, unless it's one datagram alone. Linux gives a socket room for 212,992, and
/// counts up to twice the bytes of a datagram.
const MOST_BYTES: usize = 73_728;

/// The most datagrams that are under way without an answer: their answers come to this program's own socket, which has room for as
/// few, and the answer to a short READ is long.
const MOST_DATAGRAMS: usize = 8;

/// How many milliseconds an answer is waited for before more goes out without one.
pub(crate) const PAUSE_MS: u32 = 500;

/// The datagrams that weren't answered yet. A datagram that comes may answer any of them, a short or a long one: so each counts
/// for as many bytes as the longest since the last time that all were answered.
#[derive(Clone, Copy)]
pub(crate) struct Flight {
    unanswered: usize,
    longest: usize,
}

impl Flight {
    /// No datagram.
    pub(crate) fn new() -> Flight {
        Flight {
            unanswered: 0,
            longest: 0,
        }
    }

    /// Whether a datagram of so many bytes may go out beside them.
    pub(crate) fn has_room(&self, len: usize) -> bool {
        let longest = self.longest.max(len);
        let count = self.unanswered.saturating_add(1);
        let is_few = count <= MOST_DATAGRAMS;
        self.unanswered == 0 || (is_few && longest.saturating_mul(count) <= MOST_BYTES)
    }

    /// A datagram of so many bytes went out.
    pub(crate) fn sent(&mut self, len: usize) {
        self.unanswered = self.unanswered.saturating_add(1);
        self.longest = self.longest.max(len);
    }

    /// A datagram came.
    pub(crate) fn came(&mut self) {
        if self.unanswered <= 1 {
            *self = Flight::new();
        } else {
            self.unanswered -= 1;
        }
    }
}
