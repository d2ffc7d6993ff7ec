//! How the program ends.

ghost use Rattle.std.specs.Prelude.{◌≡◌};
ghost use Rattle.nfs3.specs.Endings.{exit_status, ended_as};

use export_session::End;
use session_commands::SessionEnding;

/// How the program ends.
#[derive(Clone, Copy, Debug, PartialEq, Eq)]
pub enum Ending {
    /// It ends as a command of a session does. Other commands do so for the same reasons.
    Session(SessionEnding),
    /// As many calls were answered as were asked for.
    Served,
    /// The file of kept pages was made.
    Made,
    /// The file of kept pages can't be used.
    Store,
    /// The trace has more entries or bytes than a trace may have.
    TooLong,
    /// No more connections are taken, though calls are still to be answered.
    Lost,
}

impl Ending {
    /// The exit status.
    pub fn status(self) -> u8
        ensures { result ≡ exit_status self }
    {
        match self {
            Ending::Session(ending) => ending.status(),
            Ending::Served => 0,
            Ending::Made => 0,
            Ending::Store => 9,
            Ending::TooLong => 9,
            Ending::Lost => 6,
        }
    }
}

/// How the program ends when serving does.
pub fn ended(end: End) -> Ending
    ensures { result ≡ ended_as end }
{
    match end {
        End::Served => Ending::Served,
        End::Lost => Ending::Lost,
        End::Memory => Ending::Session(SessionEnding::Memory),
    }
}
