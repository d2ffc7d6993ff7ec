//! A call that waits.

ghost use Rattle.std.specs.Prelude.{◌≡◌, ◌<◌};
ghost use Rattle.rpc_retry.specs.Waiting.{made_call, sent_call, failed_call};

use xdr_codec::Record;

/// A call that waits for its reply. `Calls::next_send` lends the one whose record is to be sent.
#[derive(Debug, Drop)]
pub struct Waiting<P> {
    /// Its record, which never changes.
    pub bytes: Record,
    /// What it was made for.
    pub purpose: P,
    /// Whether it is to be sent.
    pub due: bool,
    /// How many times it was sent, at most 4.
    pub attempts: u32,
    /// Whether the last of these attempts hasn't failed.
    pub running: bool,
}

impl<P> Waiting<P> {
    /// A call that was just made.
    pub(crate) fn new(bytes: Record, purpose: P) -> Waiting<P>
        ensures { result ≡ made_call bytes purpose }
    {
        Waiting {
            bytes,
            purpose,
            due: true,
            attempts: 0,
            running: false,
        }
    }

    /// One more attempt runs.
    pub(crate) fn send(&mut self)
        requires { self.old.attempts < 4 }
        ensures { self.new ≡ sent_call self.old }
    {
        self.due = false;
        self.attempts += 1;
        self.running = true;
    }

    /// The attempt that runs has failed, and the call is due again if it is to be tried again.
    pub(crate) fn fail(&mut self, again: bool)
        ensures { self.new ≡ failed_call again self.old }
    {
        self.running = false;
        if again {
            self.due = true;
        }
    }
}
