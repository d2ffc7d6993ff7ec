//! The law of stable bytes. A WRITE put a byte into a file, and its reply or a COMMIT made it stable. It is there at every later moment, and would be after a
//! restart, whatever other calls are in flight, lost, repeated or late. Nothing here runs: each function has an empty body, and its contract is the theorem.
#![tactic(auto)]

ghost use Rattle.law_stable.specs.Cut.{CutStays};
ghost use Rattle.law_stable.specs.Stable.{WrittenThere, EvidenceThere, EvidenceStable, UntouchedUnforeign, StableDecided};

/// A WRITE put a byte at its place of a file. The byte is there at every later moment at which the server has the write verifier of the reply. That lasts as
/// long as neither this client's calls nor another client's change the place (RFC 1813, section 3.3.7).
pub fn written_byte_is_there()
    ensures { WrittenThere }
{}

/// A byte that a WRITE put at its place of a file and that was made stable is there at every later moment, and stable. That lasts as long as neither this
/// client's calls nor another client's change the place (RFC 1813, sections 3.3.7, 3.3.21 and 4.8).
pub fn evidence_is_stable()
    ensures { EvidenceStable }
{}

/// Such a byte is in the file from the reply to its WRITE on, also while it isn't stable yet.
pub fn evidence_is_there()
    ensures { EvidenceThere }
{}

/// Past a size that a SETATTR set the file has no bytes but zeros at any later moment, also after a restart. That lasts as long as no WRITE puts others there
/// (RFC 1813, section 3.3.2).
pub fn cut_stays()
    ensures { CutStays }
{}

/// A place that wasn't touched since a write was changed by no other client since then.
pub fn untouched_is_unforeign()
    ensures { UntouchedUnforeign }
{}

/// If a server can't but hold a byte, and stable, it does.
pub fn stable_is_decided()
    ensures { StableDecided }
{}
