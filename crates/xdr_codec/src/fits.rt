//! Facts for proofs: a number fits its word.

ghost use Rattle.std.specs.Prelude.{◌<◌, ◌^◌};

/// A number of 32 bits is below 2^32: a fact for proofs. It does nothing.
pub fn fits_u32(v: u32)
    ensures { v < 2 ^ 32 }
{}

/// A number of 64 bits is below 2^64: a fact for proofs. It does nothing.
pub fn fits_u64(v: u64)
    ensures { v < 2 ^ 64 }
{}
