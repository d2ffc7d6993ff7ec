//! How often a call is made again that an operation makes in more than one of its steps.

/// How often the LOOKUPs of an opening, and the COMMITs of a save, are made again (RFC 1813, section 2.6, NFS3ERR_JUKEBOX).
/// `client_shelf::Repeats` counts so for a single call.
pub(crate) const MOST_TIMES: u8 = 3;
