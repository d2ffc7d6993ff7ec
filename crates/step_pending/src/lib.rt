//! What each call of `write_back` makes of the places of files, in the words of the law of written bytes: it is one step of the machine of
//! `model_writes`, and leaves what is pending sound. Nothing here runs: each function has an empty body, and its contract is the theorem.
//!
//! A view shows what is pending (`Shows`) if it has, of each place, the same byte with the same number. Its mark fits the byte's state.
#![tactic(auto)]

ghost use Rattle.std.specs.Prelude.{◌≡◌, ◌+◌, ◌-◌, ◌<◌, ◌≤◌, ◌^◌, ℕ, List, [], ◌∷◌, length, Some, None};
ghost use Rattle.nfs_types.specs.declared.verf.Verf.{Verf};
ghost use Rattle.write_back.specs.declared.change.Change.TheVariants as by;
ghost use Rattle.write_back.specs.Choice.{chosen, piece_of};
ghost use Rattle.write_back.specs.Files.{Pending, of_file, all_pending, with_bytes, HasNoPiece, IsFree, IsNewest, OnFile, PutsPiece};
ghost use Rattle.write_back.specs.Landing.{acked_by, at_xid, landed, landed_part, with_cut, with_xid};
ghost use Rattle.write_back.specs.Pieces.{Sent, nothing, piece_under};
ghost use Rattle.write_back.specs.Segments.{Segment, Segments};
ghost use Rattle.write_back.specs.Sound.{most_pending};
ghost use Rattle.commit_verf.specs.Decisions.{decided};
ghost use Rattle.model_writes.specs.Machine.{Cell, Flight, PlacesAfter, View};
ghost use Rattle.model_writes.specs.Story.{File, Reply, Spot, commit, committed, covers, write, wrote};
ghost use Rattle.step_pending.specs.Cells.{EachSound, Leads, Shows};
ghost use Rattle.step_pending.specs.Steps.{CutsFrom, GivesAll, IsOf, IsPieceOf, Lays, Renames, TakesOff};

/// At first nothing is pending.
pub fn nothing_is_pending()
    ensures sound { EachSound [] }
    ensures shows { (c : View) → ((i : Spot) → c.rest i ≡ None) → ((i : Spot) → c.fly i ≡ None) → Shows [] c }
{}

/// Bytes that are added come in under their number, not sent yet, over what waited there; what is in flight stays.
pub fn bytes_come_in()
    ensures sound { (old new : Pending) (file : File) (offset number : ℕ) (bytes : List ℕ) → EachSound old → IsNewest number old
        → offset + length bytes ≤ 2 ^ 63 - 1 → all_pending old + length bytes ≤ most_pending
        → OnFile old new file (with_bytes offset bytes number (of_file file old)) → EachSound new }
    ensures steps { (old new : Pending) (file : File) (offset number : ℕ) (bytes : List ℕ) → EachSound old
        → OnFile old new file (with_bytes offset bytes number (of_file file old)) → (c : View) → Shows old c
        → Leads new (Lays file offset bytes number) c }
{}

/// What is sent next takes off under its xid: exactly at the places that its bytes cover, each with its byte, and where nothing was in flight.
pub fn a_piece_takes_off()
    ensures sound { (old new : Pending) (file : File) (xid upto wsize : ℕ) (e : ℕ × Segment) (es : Segments) → EachSound old → IsFree xid file old
        → chosen upto wsize (of_file file old) ≡ e ∷ es → PutsPiece xid upto (e ∷ es) old new file → EachSound new }
    ensures steps { (old new : Pending) (file : File) (xid upto wsize : ℕ) (e : ℕ × Segment) (es : Segments) → EachSound old
        → chosen upto wsize (of_file file old) ≡ e ∷ es → PutsPiece xid upto (e ∷ es) old new file → (c : View) → Shows old c
        → Leads new (TakesOff xid file (piece_of xid e (e ∷ es)).offset (piece_of xid e (e ∷ es)).bytes) c }
{}

/// A reply of success to a WRITE comes at each place of its piece: the first bytes that it counts are acknowledged under its verifier, or
/// stable; the others are to be sent again; and newer bytes stay.
pub fn a_write_is_acked()
    ensures sound { (old new : Pending) (file : File) (xid count committed : ℕ) (verf : Verf) → EachSound old
        → OnFile old new file (at_xid (landed_part (acked_by committed verf) count) xid (of_file file old)) → EachSound new }
    ensures steps { (old new : Pending) (file : File) (xid count committed : ℕ) (verf : Verf) (piece : Sent) (how : ℕ) → EachSound old → IsOf xid file old
        → piece_under xid (of_file file old).pieces ≡ Some piece
        → OnFile old new file (at_xid (landed_part (acked_by committed verf) count) xid (of_file file old)) → (c : View) → Shows old c
        → Leads new (PlacesAfter xid (write file piece.offset piece.bytes how) (wrote 0 count committed verf.0)) c }
{}

/// A WRITE that came to nothing, by any reply: each byte of its piece is to be sent again, if no newer one lies over it.
pub fn a_write_returns()
    ensures sound { (old new : Pending) (file : File) (xid : ℕ) → EachSound old
        → OnFile old new file (at_xid (landed by.Return) xid (of_file file old)) → EachSound new }
    ensures steps { (old new : Pending) (file : File) (xid : ℕ) (piece : Sent) (how : ℕ) (reply : Reply) → EachSound old → IsOf xid file old
        → piece_under xid (of_file file old).pieces ≡ Some piece
        → OnFile old new file (at_xid (landed by.Return) xid (of_file file old)) → (c : View) → Shows old c
        → Leads new (PlacesAfter xid (write file piece.offset piece.bytes how) reply) c }
{}

/// A WRITE that was refused: the same.
pub fn a_write_is_refused()
    ensures sound { (old new : Pending) (file : File) (xid status : ℕ) → EachSound old
        → OnFile old new file (at_xid (landed (by.Refuse status)) xid (of_file file old)) → EachSound new }
    ensures steps { (old new : Pending) (file : File) (xid status : ℕ) (piece : Sent) (how : ℕ) (reply : Reply) → EachSound old → IsOf xid file old
        → piece_under xid (of_file file old).pieces ≡ Some piece
        → OnFile old new file (at_xid (landed (by.Refuse status)) xid (of_file file old)) → (c : View) → Shows old c
        → Leads new (PlacesAfter xid (write file piece.offset piece.bytes how) reply) c }
{}

/// A WRITE that is made again: what was in flight under its xid is in flight under the new one, and nothing else changes.
pub fn a_write_is_renumbered()
    ensures sound { (old new : Pending) (file : File) (xid to : ℕ) → EachSound old → IsFree to file old
        → OnFile old new file (with_xid xid to (of_file file old)) → EachSound new }
    ensures steps { (old new : Pending) (file : File) (xid to : ℕ) → EachSound old → IsOf xid file old
        → OnFile old new file (with_xid xid to (of_file file old)) → (c : View) → Shows old c → Leads new (Renames xid to) c }
{}

/// A reply of success to a COMMIT is heard at each place of its file:
/// - what was acknowledged under its verifier goes;
/// - what was acknowledged under another one is to be sent again;
/// - what wasn't acknowledged, or came in later, stays.
pub fn a_commit_is_heard()
    ensures sound { (old new : Pending) (file : File) (upto : ℕ) (verf : Verf) → EachSound old
        → OnFile old new file (decided upto verf (of_file file old)) → EachSound new }
    ensures steps { (old new : Pending) (file : File) (xid upto : ℕ) (verf : Verf) → EachSound old
        → OnFile old new file (decided upto verf (of_file file old)) → (c : View) → Shows old c
        → Leads new (PlacesAfter xid (commit file) (committed 0 verf.0)) c }
{}

/// A truncate drops pending bytes of its file at its size and past it, and no others.
pub fn bytes_are_cut()
    ensures sound { (old new : Pending) (file : File) (size upto : ℕ) → EachSound old → HasNoPiece file old
        → OnFile old new file (with_cut size upto (of_file file old)) → EachSound new }
    ensures steps { (old new : Pending) (file : File) (size upto : ℕ) → EachSound old
        → OnFile old new file (with_cut size upto (of_file file old)) → (c : View) → Shows old c → Leads new (CutsFrom file size) c }
{}

/// All that is pending of a file is given up, while nothing of it is in flight.
pub fn bytes_are_given_up()
    ensures sound { (old new : Pending) (file : File) → EachSound old → OnFile old new file nothing → EachSound new }
    ensures steps { (old new : Pending) (file : File) → HasNoPiece file old → OnFile old new file nothing → (c : View) → Shows old c
        → Leads new (GivesAll file) c }
{}

/// The number of each byte, pending or in flight, is below one that is above all that are pending.
pub fn numbers_are_below()
    ensures rest { (pending : Pending) (number : ℕ) → IsNewest number pending → (c : View) → Shows pending c → (i : Spot) (cell : Cell)
        → c.rest i ≡ Some cell → cell.number < number }
    ensures fly { (pending : Pending) (number : ℕ) → IsNewest number pending → (c : View) → Shows pending c → (i : Spot) (f : Flight)
        → c.fly i ≡ Some f → f.number < number }
{}

/// What is in flight at a place under an xid is the byte that the piece under that xid has there. Each place of a piece has its byte in flight.
pub fn flights_are_pieces()
    ensures piece { (pending : Pending) → EachSound pending → (c : View) → Shows pending c → (i : Spot) (f : Flight) → c.fly i ≡ Some f
        → IsPieceOf pending i f }
    ensures places { (pending : Pending) → EachSound pending → (c : View) → Shows pending c → (file : File) (xid : ℕ) (piece : Sent)
        → piece_under xid (of_file file pending).pieces ≡ Some piece → (i : Spot) (y : ℕ) → covers file piece.offset piece.bytes i ≡ Some y
        → (f : Flight) × (c.fly i ≡ Some f) × (f.byte ≡ y) × (f.xid ≡ xid) }
{}
