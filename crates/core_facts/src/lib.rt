//! What a history shows of the core that goes with it: of its calls, its lanes and a lost session. `specs/Reaches` says which views go
//! with a history, and `specs/Notes` which go with one whose answers are noted before a record is sent. Nothing here runs: each function does nothing, and its
//! contract is the theorem.
#![tactic(auto)]

ghost use Rattle.core_facts.specs.Tries.{WaitingKnown};
ghost use Rattle.core_facts.specs.InFlight.{CountsCalls};
ghost use Rattle.core_facts.specs.Counted.{CallsOwned};
ghost use Rattle.core_facts.specs.Resting.{ComeToRest};
ghost use Rattle.core_facts.specs.Progress.{LanesWait, NoneUnanswered};
ghost use Rattle.core_facts.specs.Hearing.{RepliesHeard};
ghost use Rattle.core_facts.specs.Synced.{SyncsCommitted, PutsCommitted};
ghost use Rattle.core_facts.specs.SlotAnswers.{SyncsOk, SlotsHoldOpens, PlacesExact, PlacesCaused};
ghost use Rattle.core_facts.specs.Naming.{OneCallsDone};
ghost use Rattle.core_facts.specs.Asked.{CallsCaused};
ghost use Rattle.core_facts.specs.Opened.{OpensShown, KindsShown};
ghost use Rattle.core_facts.specs.Refusing.{RefusalsShown};
ghost use Rattle.core_facts.specs.Lanes.{CallsSound, ReachedNumbered, LanesAlternate, LanesUnderWay, LossesShown, LostAnswersShown};
ghost use Rattle.core_facts.specs.Notes.{AnswersFirst, HistoriesReached};

/// The calls that wait have different xids, which rise and lie below the next one; at most 32 wait, and no more were made than may be.
pub fn waiting_calls_are_sound()
    ensures { CallsSound }
{}

/// Each call that waits is a call of NFS of the session (RFC 5531, section 9). It wasn't sent yet; or it was sent as often as its attempts count, always with
/// the same record, and no record under its xid came since.
pub fn waiting_calls_were_sent()
    ensures { WaitingKnown }
{}

/// All records under one xid are equal, and none is sent after a reply under the xid came while it waited.
pub fn calls_are_numbered()
    ensures { ReachedNumbered }
{}

/// A session is lost only for one of these causes:
/// - a call was sent four times in vain;
/// - four dials in a row failed;
/// - 65,536 records in a row answered no call.
pub fn losses_are_shown()
    ensures { LossesShown }
{}

/// An operation is answered that the session is lost only if the history shows one of these before the answer.
pub fn lost_answers_are_lost()
    ensures { LostAnswersShown }
{}

/// In each lane the lines begin one after the other: each but the last is answered before the next begins.
pub fn lanes_alternate()
    ensures { LanesAlternate }
{}

/// The lanes of the core are those that have an operation under way.
pub fn lanes_are_under_way()
    ensures { LanesUnderWay }
{}

/// Each operation knows how many of its calls wait, and ends only if none does.
pub fn calls_are_counted()
    ensures { CountsCalls }
{}

/// As long as the session isn't lost, each call that waits is one of the operation that is under way in its lane. Each record of it was sent since that
/// operation began. In each lane as many calls wait as its operation knows of, and none if it has its answer.
pub fn waiting_calls_have_operations()
    ensures { CallsOwned }
{}

/// After each entry no lane can go on, or no further call may wait. In a lost session each operation has its answer.
pub fn lanes_come_to_rest()
    ensures { ComeToRest }
{}

/// As long as the session isn't lost, a lane without an answer has a call that waits, with three exceptions: so many calls wait that none may be
/// made; another operation stands before its own in the order of a file; or its own stands first there, while bytes of the file are in flight.
pub fn lanes_wait()
    ensures { LanesWait }
{}

/// If no call waits, each operation that began has its answer.
pub fn operations_are_answered()
    ensures { NoneUnanswered }
{}

/// As long as the session isn't lost, a record under the xid of a call that waits answers that call. The call was first sent since the operation began that is
/// under way in its lane. What the operation takes is what the record says of the call.
pub fn replies_are_heard()
    ensures { RepliesHeard }
{}

/// A sync is answered ok only if a COMMIT of the whole file that it saves, sent since the sync began, was answered 0.
pub fn syncs_are_committed()
    ensures { SyncsCommitted }
{}

/// A put is answered ok only if a COMMIT of the whole file that it saves, sent since the put began, was answered 0.
pub fn puts_are_committed()
    ensures { PutsCommitted }
{}

/// A sync is answered ok only if a COMMIT of the whole file that its slot holds, sent since the sync began, was answered 0. This is the file that the lane's
/// last open of the slot found, with no close between.
pub fn syncs_save_their_files()
    ensures { SyncsOk }
{}

/// A close, read, write, fill or truncate is answered ok only if its slot holds an open as it begins. The open of a read is for reading, and that of a write,
/// fill or truncate is for writing.
pub fn slots_hold_opens()
    ensures { SlotsHoldOpens }
{}

/// Unless the session is lost or memory runs out, each of these is refused so:
/// - an open of a slot that holds an open;
/// - an operation on a slot that holds none;
/// - an operation for which the open of its slot isn't.
pub fn missing_places_are_refused()
    ensures { PlacesExact }
{}

/// An operation is answered with a status of NFS or a refusal by RPC only if a record refused a call so. The record came within the operation, and the call
/// was made within it.
pub fn refusals_are_shown()
    ensures { RefusalsShown }
{}

/// Some operations of a script walk along their paths and make one call. Such a one succeeds only if it ends with the reply to that call, on the objects to
/// which its paths lead. The reply has status 0.
pub fn one_calls_are_done()
    ensures { OneCallsDone }
{}

/// An operation is refused for its slot only if it finds an open there which it is to open, or none to work on. It is refused for its right only if the open
/// that its slot holds isn't for it.
pub fn slot_refusals_are_caused()
    ensures { PlacesCaused }
{}

/// Each record was sent before any operation began, or is a call of an operation that was under way, with the session's credential. An operation of a script
/// that makes one call after its LOOKUPs asks for this call.
pub fn calls_are_caused()
    ensures { CallsCaused }
{}

/// In a session in which each open asks anew, an open succeeds only if it ends with the reply to GETATTR of its file. This reply shows kind 1.
pub fn opens_are_shown()
    ensures { OpensShown }
{}

/// An open is refused for the kind of its file only if it ends with the reply to GETATTR of that file. This reply shows another kind than 1.
pub fn kinds_are_shown()
    ensures { KindsShown }
{}

// Answers that are noted before a record is sent or received.

/// Such a history is one that the core goes with, so all that holds of those holds of it.
pub fn histories_are_reached()
    ensures { HistoriesReached }
{}

/// When a record is sent or received, after an operation began, no lane has an answer that wasn't noted.
pub fn answers_come_first()
    ensures { AnswersFirst }
{}
