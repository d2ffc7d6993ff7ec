//! The law of kept bytes. Let a server be honest, and let each change of a file give it a new stamp. Then a byte that a client
//! keeps under a stamp is the file's byte at every moment at which the file has this stamp. That is so whatever other clients did
//! and however often the server restarted. Nothing here runs: each function has an empty body, and its contract is the theorem.
#![tactic(auto)]

ghost use Rattle.std.specs.Prelude.{◌≡◌, ℕ, List, Some, slice_get};
ghost use Rattle.nfs_types.specs.declared.wcc.Stamp.{Stamp};
ghost use Rattle.world_model.specs.Fresh.{Fresh};
ghost use Rattle.world_model.specs.History.{History};
ghost use Rattle.world_model.specs.Lawful.{Lawful};
ghost use Rattle.law_reads.specs.Kept.{HasStamp, KeptByte};

/// A file has the same bytes at any two moments at which it has the same stamp (RFC 1813, section 2.6: what mtime and ctime are
/// for).
pub fn stamp_tells_bytes()
    ensures { (t : History) → Lawful t → Fresh t → (m n : ℕ) (f : List ℕ) (s : Stamp) (now later : List ℕ) → HasStamp t m f s now → HasStamp t n f s later → now ≡ later }
{}

/// A byte that is kept under a stamp is the file's byte whenever the file has the stamp (RFC 1813, sections 3.3.6 and 3.3.7).
pub fn kept_byte_is_true()
    ensures { (t : History) → Lawful t → Fresh t → (f : List ℕ) (s : Stamp) (i v : ℕ) → KeptByte t f s i v → (n : ℕ) (now : List ℕ) → HasStamp t n f s now → slice_get now i ≡ Some v }
{}
