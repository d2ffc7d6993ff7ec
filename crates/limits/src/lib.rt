//! The numbers that more than one layer of the client keeps to. Each stands here once. A limit of one layer alone stands in its crate.
#![tactic(auto)]

/// How many lanes a script may have. They are numbered from 1.
pub const LANES: u8 = 16;

/// [`LANES`] as the length of a list.
pub const LANE_COUNT: usize = LANES as usize;

/// [`LANES`] as the greatest lane that a word of a script may name.
pub const GREATEST_LANE: u32 = LANES as u32;

/// How many calls of a client may wait for a reply at a time.
pub const CALLS_IN_FLIGHT: usize = 32;

/// How long a record is waited for, in milliseconds.
pub const WAIT_MS: u32 = 15_000;

/// How often a call is sent at most: once, and three retransmissions.
pub const ATTEMPTS: u32 = 4;

/// So many failed connects in a row lose a session.
pub const CONNECTS: u32 = 4;

/// So many records in a row that answer no call lose a session.
pub const STRAY_RECORDS: u32 = 65_536;

/// The most bytes of a record, without its marks (RFC 5531, section 11).
pub const RECORD_BYTES: usize = 131_072;
