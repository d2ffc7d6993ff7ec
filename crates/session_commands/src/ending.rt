//! How a command of a session ends.

ghost use Rattle.std.specs.Prelude.{◌≡◌};
ghost use Rattle.session_commands.specs.Endings.{status_of, closed_as};

use net_edge::StandardStream;

/// How a command of a session ends. A program's other commands may end in these ways, too.
#[derive(Clone, Copy, Debug, PartialEq, Eq)]
pub enum SessionEnding {
    /// The words are of no known form.
    Usage,
    /// Out of memory outside a session.
    Memory,
    /// The schedule is faulty at that line; at 0 it can't be read or is too long.
    Schedule(u32),
    /// The session ended with that status.
    Ran(u8),
    /// Standard input failed outside a session.
    ReadFault,
    /// Standard output or standard error failed outside a session.
    WriteFault,
}

impl SessionEnding {
    /// The exit status.
    pub fn status(self) -> u8
        ensures { result ≡ status_of self }
    {
        match self {
            SessionEnding::Usage => 2,
            SessionEnding::Memory => 7,
            SessionEnding::Schedule(_) => 9,
            SessionEnding::Ran(status) => status,
            SessionEnding::ReadFault => 4,
            SessionEnding::WriteFault => 5,
        }
    }
}

/// How a program ends if a standard stream is closed and nothing can be opened in its place.
pub fn closed(stream: StandardStream) -> SessionEnding
    ensures { result ≡ closed_as stream }
{
    match stream {
        StandardStream::Input => SessionEnding::ReadFault,
        StandardStream::Output | StandardStream::Error => SessionEnding::WriteFault,
    }
}
