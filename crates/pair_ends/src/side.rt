//! The two ends of a link.

ghost use Rattle.std.specs.Prelude.{◌≡◌, ◌<◌};
ghost use Rattle.pair_ends.specs.Ends.{number_of};

/// Which client's end.
#[derive(Clone, Copy, Debug, PartialEq, Eq)]
pub enum Side {
    /// The end of client a.
    A,
    /// The end of client b.
    B,
}

impl Side {
    /// Its number at the link: 0 or 1.
    pub fn number(self) -> u8
        ensures is { result ≡ number_of self }
        ensures small { result < 2 }
    {
        match self {
            Side::A => 0,
            Side::B => 1,
        }
    }
}
