//! The law of kept names. Let a server be honest, and let each change of a directory give it a new stamp. Then a name that a
//! LOOKUP gave beside the directory's stamp stands for the same object whenever the directory has this stamp. Nothing here runs:
//! each function has an empty body, and its contract is the theorem.
#![tactic(auto)]

ghost use Rattle.std.specs.Prelude.{◌≡◌, ℕ, List, Some};
ghost use Rattle.nfs_types.specs.declared.wcc.Stamp.{Stamp};
ghost use Rattle.name_cache.specs.Names.{Entries, looked};
ghost use Rattle.world_model.specs.Fresh.{Fresh};
ghost use Rattle.world_model.specs.History.{History};
ghost use Rattle.world_model.specs.Lawful.{Lawful};
ghost use Rattle.world_model.specs.Server.{Listed};
ghost use Rattle.law_names.specs.Feeds.{IsFed};
ghost use Rattle.law_names.specs.Kept.{HasList, IsLookedUp, StandsIn};

/// A directory holds the same entries at any two moments at which it has the same stamp (RFC 1813, section 2.6: what mtime and
/// ctime are for).
pub fn list_under_stamp()
    ensures { (t : History) → Lawful t → Fresh t → (m n : ℕ) (d : List ℕ) (s : Stamp) (list later : List Listed) → HasList t m d s list → HasList t n d s later → list ≡ later }
{}

/// A name stands for what a LOOKUP of it found whenever the directory has the stamp that the reply showed (RFC 1813, section
/// 3.3.3).
pub fn looked_up_name_stands()
    ensures { (t : History) → Lawful t → Fresh t → (d : List ℕ) (s : Stamp) (name object : List ℕ) → IsLookedUp t d s name object → (n : ℕ) (list : List Listed) → HasList t n d s list → StandsIn list name object }
{}

/// Let a cache that is fed as `specs/Feeds` says be asked for a name under a stamp. The name stands for what it answers at every
/// moment at which the directory has this stamp.
pub fn kept_name_is_true()
    ensures { (t : History) → Lawful t → Fresh t → (c : Entries) → IsFed t c → (d name : List ℕ) (s : Stamp) (object : List ℕ) → looked d name s c ≡ Some object → (n : ℕ) (list : List Listed) → HasList t n d s list → StandsIn list name object }
{}
