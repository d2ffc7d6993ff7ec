//! The law of names, attributes and listings, of a client whose steps are those of `specs/Machine`. Whatever other clients did, it
//! - finds the files of its opens and puts under their names;
//! - shows attributes that an object had at a recent moment;
//! - lists the names that a directory held.
//!
//! Nothing here runs: each function has an empty body, and its contract is the theorem.
#![tactic(auto)]

ghost use Rattle.std.specs.Prelude.{◌≡◌};
ghost use Rattle.nfs_types.specs.declared.attr.Attr.{Attr};
ghost use Rattle.nfs_types.specs.declared.mode.Mode.{Mode};
ghost use Rattle.world_model.specs.Fresh.{Fresh};
ghost use Rattle.world_model.specs.History.{History};
ghost use Rattle.world_model.specs.Lawful.{Lawful};
ghost use Rattle.claims.specs.Modes.{Modes};
ghost use Rattle.world_model.specs.Mounts.{Origin};
ghost use Rattle.claims.specs.Recent.{AttrAge, ListTrue, NamesTrue};
ghost use Rattle.world_model.specs.Rising.{Rising};
ghost use Rattle.model_walks.specs.Machine.{View};
ghost use Rattle.model_walks.specs.Reaches.{Reaches};
ghost use Rattle.model_walks.specs.SmallRun.{IsReached, Records, the_history};

/// The file of each open and put that succeeded stood under the last name of its path at a moment of the operation. The earlier names lead to its
/// directory, by what directories held at recent moments (RFC 1813, section 3.3.3).
pub fn names_are_true()
    ensures { (m : Modes) (origin : Origin) (t : History) → Lawful t → Fresh t → (c : View) → Reaches m origin t t.entries c → NamesTrue m origin t }
{}

/// The attributes that a stat shows are those that an object, to which its path leads, had at a recent moment (nfs(5), acregmax and acdirmax).
pub fn attributes_are_recent()
    ensures { (m : Modes) (origin : Origin) (t : History) → Lawful t → Fresh t → (c : View) → Reaches m origin t t.entries c → AttrAge m origin t }
{}

/// A list shows names in byte order, each once, of which its directory held each at a moment of the list; and each name that the directory held
/// all the while is among them (RFC 1813, section 3.3.17).
pub fn listings_are_whole()
    ensures { (m : Modes) (origin : Origin) (t : History) → Lawful t → Fresh t → Rising t → (c : View) → Reaches m origin t t.entries c → ListTrue m origin t }
{}

/// The machine isn't empty: a small run is reached, with each kind of move, if records spell its calls and replies.
pub fn small_run()
    ensures { (mode : Mode) (dir attr : Attr) (r : Records dir attr) → IsReached (the_history mode dir attr r) }
{}

/// And the premises of the theorems hold together: the run is one of an honest server with fresh stamps and rising cookies. For that its objects
/// have the attributes of a directory and of an empty file.
pub fn small_run_is_lawful()
    ensures honest { (mode : Mode) (dir attr : Attr) (r : Records dir attr) → dir.kind ≡ 2 → attr.kind ≡ 1 → attr.size ≡ 0
        → Lawful (the_history mode dir attr r) }
    ensures fresh { (mode : Mode) (dir attr : Attr) (r : Records dir attr) → Fresh (the_history mode dir attr r) }
    ensures rising { (mode : Mode) (dir attr : Attr) (r : Records dir attr) → Rising (the_history mode dir attr r) }
{}
