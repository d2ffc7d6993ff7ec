//! What a save leaves. If the save of a sync, close or put ends well, nothing is pending of its file up to its number. That is so whatever its
//! replies were and whenever the server restarted. Nothing here runs: each function has an empty body, and its contract is the theorem.
#![tactic(auto)]

ghost use Rattle.std.specs.Prelude.{◌≡◌, ◌<◌, ◌≤◌, ◌-◌, ℕ, Bool, true, List, Result, length, slice_index};
ghost use Rattle.world_model.specs.declared.answer.Fault.{Fault};
ghost use Rattle.world_model.specs.declared.message.Reply.{Reply};
ghost use Rattle.client_shelf.specs.declared.repeats.Repeat.{Repeat};
ghost use Rattle.client_shelf.specs.declared.turn.Turn.{Turn};
ghost use Rattle.write_back.specs.Files.{Pending, of_file, with_bytes, HasNoPiece, IsFree, OnFile};
ghost use Rattle.write_back.specs.Landing.{with_cut};
ghost use Rattle.write_back.specs.Pieces.{nothing};
ghost use Rattle.write_back.specs.Segments.{covers};
ghost use Rattle.file_ops.specs.declared.saving.Saving.{Saving};
ghost use Rattle.file_ops.specs.Saves.{begun, Goes, Takes};
ghost use Rattle.file_ops.specs.Syncs.{sync_next};
ghost use Rattle.model_writes.specs.Machine.{Clear, View};
ghost use Rattle.model_writes.specs.Story.{File};
ghost use Rattle.step_pending.specs.Cells.{EachSound, Shows};
ghost use Rattle.step_saves.specs.Accounts.{Account, ByCommit, ByWrite, Told};
ghost use Rattle.step_saves.specs.Saves.{GoesOn, IsAwaited, IsClearUpTo, IsUnderWay, Leaves};

/// A save that begins while nothing of its file is in flight is under way.
pub fn a_save_begins()
    ensures { (file : List ℕ) (upto : ℕ) (back : Pending) → HasNoPiece file back → IsUnderWay (begun file upto) back }
{}

/// A step without a reply keeps it under way, or ends it.
pub fn a_save_goes_on()
    ensures sound { (wsize : ℕ) (turn : Turn) (by_reply : Bool) (s : Saving) (back : Pending) (next : _) (new : Saving) (after : Pending)
        → EachSound back → IsFree turn.xid s.file back → Goes wsize turn.xid turn.room by_reply s back next new after → EachSound after }
    ensures leaves { (wsize : ℕ) (turn : Turn) (by_reply : Bool) (s : Saving) (back : Pending) (next : _) (new : Saving) (after : Pending)
        → 1 ≤ wsize → EachSound back → IsUnderWay s back → Goes wsize turn.xid turn.room by_reply s back next new after → Leaves (sync_next next) s new after }
{}

/// So does a step with what came of its call: any reply to a WRITE or a COMMIT of its own, or that the call failed. It ends well only if
/// nothing of its file up to its number is pending.
pub fn a_save_takes_what_came()
    ensures sound { (wsize : ℕ) (sent turn : Turn) (came : Result Reply Fault) (repeats : List Repeat) (s : Saving) (back : Pending) (next : _)
        (new : Saving) (after : Pending) (later : List Repeat) → EachSound back → ((other : List ℕ) → IsFree turn.xid other back)
        → Takes wsize sent turn came repeats s back next new after later → EachSound after }
    ensures leaves { (wsize : ℕ) (sent turn : Turn) (came : Result Reply Fault) (repeats : List Repeat) (s : Saving) (back : Pending) (next : _)
        (new : Saving) (after : Pending) (later : List Repeat) → 1 ≤ wsize → EachSound back → IsUnderWay s back → IsAwaited s sent.xid back
        → Takes wsize sent turn came repeats s back next new after later → Leaves (sync_next next) s new after }
{}

/// Bytes with a later number, and changes of other files, keep it under way.
pub fn later_bytes_keep_a_save()
    ensures later { (s : Saving) (old new : Pending) (offset number : ℕ) (bytes : List ℕ) → EachSound old → s.upto < number
        → OnFile old new s.file (with_bytes offset bytes number (of_file s.file old)) → IsUnderWay s old → IsUnderWay s new }
    ensures others { (s : Saving) (old new : Pending) → of_file s.file new ≡ of_file s.file old → IsUnderWay s old → IsUnderWay s new }
{}

/// Then a view that shows what is pending has nothing of the file up to the number.
pub fn a_saved_file_is_clear()
    ensures { (file : File) (upto : ℕ) (back : Pending) → IsClearUpTo upto (of_file file back) → (c : View) → Shows back c → Clear file upto c }
{}

/// A byte that was written is accounted for from then on. It waits as it comes in. Accounted for means that
/// - it waits, or is in flight; or
/// - the server holds it under a verifier that a reply to its WRITE gave; or
/// - it is pending no more for a reason.
pub fn a_byte_comes_in()
    ensures { (file : List ℕ) (place byte number : ℕ) (wrote : List ℕ → Bool) (done : Bool) (offset : ℕ) (bytes : List ℕ) (old new : Pending)
        → EachSound old → OnFile old new file (with_bytes offset bytes number (of_file file old)) → covers offset (length bytes) place ≡ true
        → slice_index bytes (place - offset) ≡ byte → Account place byte number (Told wrote) (done ≡ true) (of_file file new) }
{}

/// Each step of any save keeps it accounted for. It leaves what is pending only by one of these replies:
/// - one to its own WRITE that says it is stable;
/// - one to a COMMIT under the verifier of its WRITE's reply.
pub fn a_save_accounts_for_it()
    ensures goes { (file : List ℕ) (place byte number : ℕ) (wrote : List ℕ → Bool) (done : Bool) (wsize : ℕ) (turn : Turn) (by_reply : Bool)
        (s : Saving) (back : Pending) (next : _) (new : Saving) (after : Pending) → EachSound back
        → Account place byte number (Told wrote) (done ≡ true) (of_file file back) → Goes wsize turn.xid turn.room by_reply s back next new after
        → Account place byte number (Told wrote) (done ≡ true) (of_file file after) }
    ensures takes { (file : List ℕ) (place byte number : ℕ) (wrote : List ℕ → Bool) (done : Bool) (wsize : ℕ) (sent turn : Turn)
        (came : Result Reply Fault) (repeats : List Repeat) (s : Saving) (back : Pending) (next : _) (new : Saving) (after : Pending) (later : List Repeat)
        → EachSound back → Account place byte number (Told wrote) (done ≡ true) (of_file file back) → ByWrite place byte (Told wrote) (done ≡ true) file back sent.xid s.file came
        → ByCommit (Told wrote) (done ≡ true) file s.file came → Takes wsize sent turn came repeats s back next new after later
        → Account place byte number (Told wrote) (done ≡ true) (of_file file after) }
{}

/// So does all else that is done to what is pending: other bytes lie over it, a truncate cuts it, or it is given up.
pub fn others_account_for_it()
    ensures adds { (file : List ℕ) (place byte number : ℕ) (wrote : List ℕ → Bool) (done : Bool) (to : List ℕ) (offset : ℕ) (bytes : List ℕ)
        (other : ℕ) (old new : Pending) → EachSound old → OnFile old new to (with_bytes offset bytes other (of_file to old))
        → (to ≡ file → covers offset (length bytes) place ≡ true → done ≡ true) → Account place byte number (Told wrote) (done ≡ true) (of_file file old)
        → Account place byte number (Told wrote) (done ≡ true) (of_file file new) }
    ensures cuts { (file : List ℕ) (place byte number : ℕ) (wrote : List ℕ → Bool) (done : Bool) (to : List ℕ) (size upto : ℕ) (old new : Pending)
        → EachSound old → OnFile old new to (with_cut size upto (of_file to old)) → (to ≡ file → size ≤ place → number ≤ upto → done ≡ true)
        → Account place byte number (Told wrote) (done ≡ true) (of_file file old) → Account place byte number (Told wrote) (done ≡ true) (of_file file new) }
    ensures gives { (file : List ℕ) (place byte number : ℕ) (wrote : List ℕ → Bool) (done : Bool) (to : List ℕ) (old new : Pending)
        → OnFile old new to nothing → (to ≡ file → done ≡ true) → Account place byte number (Told wrote) (done ≡ true) (of_file file old)
        → Account place byte number (Told wrote) (done ≡ true) (of_file file new) }
{}

/// If nothing up to its number is pending any more, it left for a reason.
pub fn a_saved_byte_is_done()
    ensures { (file : List ℕ) (place byte number : ℕ) (wrote : List ℕ → Bool) (done : Bool) (upto : ℕ) (back : Pending)
        → IsClearUpTo upto (of_file file back) → number ≤ upto → Account place byte number (Told wrote) (done ≡ true) (of_file file back) → done ≡ true }
{}
