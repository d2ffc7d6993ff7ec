//! What a session shows as a whole, along each history that the core goes with: what becomes of written bytes, what is pending, which calls make room, that
//! each call was asked for, and how operations end. Nothing here runs: each function does nothing, and its contract is the theorem.
//!
//! Three terms recur. A server is honest if it and the network do only what `Lawful` of `world_model` allows. It has fresh stamps if each change of a file
//! gives it a stamp that it never had (`Fresh`). It executes no late copies if no copy of a call is executed after its reply came (`Once`). RFC 1813 promises
//! neither of the last two: they are premises. So is it, for reads on an honest server, that the pages which were kept from the start were true.
//!
//! A session that was set up notes each answer that is ready before it sends or receives a record (`Notes` of `core_facts`). This is a premise of what is said
//! here of its calls and of how its operations end.
#![tactic(auto)]

ghost use Rattle.core_session.specs.saves.PutsWritten.{PutsWritten};
ghost use Rattle.core_session.specs.order.Earlier.{EarlierHeard};
ghost use Rattle.core_session.specs.order.Sizes.{NoSizesMade, SizesAsked};
ghost use Rattle.core_session.specs.drops.Told.{SlotsHoldOneFile, RefusedClosesAreOwed, OwedClosesLeave, GuardsAreKept};
ghost use Rattle.core_session.specs.syncs.Synced.{SyncedBytes};
ghost use Rattle.core_session.specs.settled.Evident.{SettledEvident};
ghost use Rattle.core_session.specs.settled.Lone.{WritesGiven, LonePutsStay};
ghost use Rattle.core_session.specs.settled.Settling.{SettledStay};
ghost use Rattle.core_session.specs.settled.Synced.{SyncedStay};
ghost use Rattle.core_session.specs.calls.Made.{CallsMade};
ghost use Rattle.core_session.specs.calls.Whole.{AllCallsAsked, SessionsCallsAsked, WritesCarryBytes};
ghost use Rattle.core_session.specs.room.Needed.{RoomIsNeeded, SessionsCallsNeeded};
ghost use Rattle.core_session.specs.pending.Held.{PendingHeldBack, PendingUnsettled};
ghost use Rattle.core_session.specs.outcomes.Complete.{ServedComplete, UndisturbedComplete};
ghost use Rattle.core_session.specs.outcomes.Opened.{OpensWell};
ghost use Rattle.core_session.specs.outcomes.Outcomes.{OksRowed};
ghost use Rattle.core_session.specs.outcomes.Refusals.{FaultsTheirOwn, RefusalRowsShown};
ghost use Rattle.core_session.specs.outcomes.Removed.{RemovesWell, RemovesRefused};
ghost use Rattle.core_session.specs.outcomes.Rooms.{RefusalsRoomed};
ghost use Rattle.core_session.specs.delays.Busy.{BusyRowsRoomed, BusyRowsShown};
ghost use Rattle.core_session.specs.hidden.Hidden.{HiddenFilesWereHidden, RemovalsAreOfHiddenFiles};
ghost use Rattle.core_session.specs.hidden.Removed.{ClosesRemoveWhatWasHidden};
ghost use Rattle.core_session.specs.asked.Asked.{CallsAreAsked};
ghost use Rattle.core_session.specs.endings.Endings.{RefusalsAllRowed, SessionsComplete};
ghost use Rattle.core_session.specs.current.Own.{PendingRead};
ghost use Rattle.core_session.specs.current.Recent.{ReadsRecent};
ghost use Rattle.core_session.specs.current.Seen.{KnownSeen};
ghost use Rattle.core_session.specs.current.Steady.{StableRead, SteadyRead};
ghost use Rattle.core_session.specs.shown.Shown.{ReadsCurrent};
ghost use Rattle.core_session.specs.kept.Kept.{WrittenKept};
ghost use Rattle.core_session.specs.kept.OwnRead.{OwnBytesRead, ReadsEndRightly};
ghost use Rattle.core_session.specs.own.Cuts.{CutsStayBare, CutsRead};

// What becomes of the bytes of a put.

/// Let a put succeed, with no other operation begun before its answer, in a session that isn't lost. Then there is one file in which each byte of the put was
/// made stable between the put's beginning and its answer. That is:
/// - a WRITE of the file with the byte at its place was sent, and answered 0 with a count that reaches the place;
/// - it was answered as stable; or after its reply COMMIT of the whole file was sent, and answered 0 under the same verifier.
pub fn puts_bytes_were_written()
    ensures { PutsWritten }
{}

// In which order calls change one place of a file.

/// A WRITE that covers a place of a file is first sent only after each earlier call that changes the place was answered. Such calls are WRITEs of the file that
/// cover it and SETATTRs that cut it.
pub fn earlier_calls_were_heard()
    ensures { EarlierHeard }
{}

/// Each SETATTR that sets a file's size is sent for a truncate of the file to this size, which is under way then.
pub fn sizes_are_of_truncates()
    ensures { SizesAsked }
{}

/// No file is made with a size.
pub fn no_file_is_made_with_a_size()
    ensures { NoSizesMade }
{}

// What it means that a close or a put gives pending bytes up.

/// A slot of a lane holds one file, at each place of each history that the core goes with.
pub fn slots_hold_one_file()
    ensures { SlotsHoldOneFile }
{}

/// Let a close be refused, by a reply, by itself or as it begins, and let no slot hold its file then. Its answer is owed:
/// - no record came since;
/// - each close of the file that is past its sync has its answer;
/// - the answer of one, which this or another may be, isn't noted yet.
pub fn refused_closes_are_owed()
    ensures { RefusedClosesAreOwed }
{}

/// What is owed is owed until the answers are noted. By the next record the history shows that the last close left the file (`Left` in `claims`). It shows,
/// too, that its answer, or one that was noted just before, was a refusal (`GivesUp`).
pub fn owed_closes_leave()
    ensures { OwedClosesLeave }
{}

/// What a write adds is guarded: its slot holds the file. A byte is guarded by a slot, or by a refused close past its sync. It stays so through each step of an
/// operation under way, as an operation begins and as an answer is noted. That ends only when a close that saves it ends well, or is refused with no slot left
/// that holds the file. And no put whose save is refused gives up what is guarded.
pub fn guards_are_kept()
    ensures { GuardsAreKept }
{}

// What a sync, a close or a put settles.

/// Let a write, fill or put have written a byte. Let a later sync, close or put of the file, or the put itself, have settled it. Unless the session is lost, or
/// this client touched the byte,
/// - it was made stable by the answer that settled it;
/// - each WRITE of its place that is sent from its first flight on carries it.
///
/// It is touched if another operation writes its place, or cuts it off. It is touched, too, if the last close left the file and a refusal went with it, after
/// the write began and before that answer. (In `claims` these are `Left` and `GivesUp`.)
pub fn synced_bytes_were_made_stable()
    ensures { SyncedBytes }
{}

// What stays stable.

/// Each byte of a WRITE that a client sends once operations began was given to its place by a write, a fill or a put.
pub fn written_bytes_were_given()
    ensures { WritesGiven }
{}

/// Let a put succeed, with no other operation begun before its answer. An honest server that executes no late copies holds each of its bytes from then on, and
/// stable (RFC 1813, sections 3.3.7, 3.3.21 and 4.8). That lasts as long as no other operation of this client, and no other client, changes the byte's place.
pub fn lone_puts_stay()
    ensures { LonePutsStay }
{}

/// Let a write, fill or put have written a byte. Let a later sync, close or put, or the put itself, have settled it. An honest server that executes no late
/// copies holds it from then on, and stable (RFC 1813, sections 3.3.7, 3.3.21 and 4.8). That lasts as long as nothing of this client, and no other client, may
/// have changed its place.
pub fn synced_bytes_stay()
    ensures { SyncedStay }
{}

/// Of each byte that a sync, close or put settled, the messages alone show that it was written and made stable by then. That is so unless this client overtook
/// it: `Evident` of `claims`, in sessions that are lost later, too (RFC 1813, sections 3.3.7 and 3.3.21).
pub fn settled_bytes_are_evident()
    ensures { SettledEvident }
{}

/// On an honest server that executes no late copies, each byte that was settled stays, and stable, unless it was touched. This is `Settled` of `claims`,
/// whatever became of closes and puts (RFC 1813, sections 3.3.7, 3.3.21 and 4.8).
pub fn settled_bytes_stay()
    ensures { SettledStay }
{}

// That each call is one that an operation asks for.

/// Each record that was sent since operations began is a call of one that is under way and asks for it; or it makes room, or is the REMOVE of a close.
pub fn calls_are_made_for_operations()
    ensures { CallsMade }
{}

/// The calls of a session that was set up were asked for, but those that make room and the REMOVEs of closes. Each is sent for one operation, under one of the
/// xids that there are, with no more bytes than the session's sizes allow. Each byte of a WRITE may have been pending since the operation began for which it is
/// sent.
pub fn calls_are_asked_but_for_room_and_removals()
    ensures { SessionsCallsAsked }
{}

/// If the operations asked for those too, all calls of the session were asked for.
pub fn all_calls_are_asked()
    ensures { AllCallsAsked }
{}

/// Each WRITE of such a session carries a byte.
pub fn writes_carry_bytes()
    ensures { WritesCarryBytes }
{}

// Calls that make room.

/// Each record that was sent since operations began is a call of one that is under way. This asks for the call; or the call makes room, of which there is need;
/// or it is the REMOVE of a close.
pub fn room_is_needed()
    ensures { RoomIsNeeded }
{}

/// The same of all calls of a session that was set up. Each keeps to the session's sizes. Each byte of a WRITE may have been pending since the operation began
/// for which it is sent.
pub fn calls_are_asked_or_needed()
    ensures { SessionsCallsNeeded }
{}

// Which bytes are dirty.

/// As long as the session isn't lost, a write, fill or put gave the newest byte that is pending at a place of a file. It is no write or fill that was refused,
/// and no put that succeeded. Since its answer
/// - no write, fill or put that began then and succeeded covers the place;
/// - no truncate cut the file there;
/// - no sync, close or put of the file succeeded.
pub fn pending_bytes_are_unsettled()
    ensures { PendingUnsettled }
{}

/// And if each answer that is ready was noted, the byte is `Pending` by `claims`. No last close left the file alone since, unless a put that was refused gave
/// the byte.
pub fn pending_bytes_are_held_back()
    ensures { PendingHeldBack }
{}

// How operations end.

/// An open succeeds only if a reply showed that its file is a regular one. That is the reply to GETATTR of it, at the end; or an earlier one, if the session
/// may go by kept attributes.
pub fn opens_go_well()
    ensures { OpensWell }
{}

/// A remove succeeds only if it ends with a reply of status 0. This answers REMOVE of its name, or RENAME of it to a hidden name if its file was open.
pub fn removes_go_well()
    ensures { RemovesWell }
{}

/// A remove is refused with a status, by RPC or for a rule only if a record refused so a call for which it asked. (The status is one from which it doesn't go
/// on.)
pub fn removes_are_refused_by_their_calls()
    ensures { RemovesRefused }
{}

/// Each operation of a script that succeeds has its row.
pub fn ok_answers_have_their_rows()
    ensures { OksRowed }
{}

/// No operation but an open or a put is refused for the kind of a file, and none but a list for too many names.
pub fn faults_are_of_their_operations()
    ensures { FaultsTheirOwn }
{}

/// Each operation of a script that is refused has its row, but in two cases:
/// - it makes room for bytes, and is refused for what a record refused;
/// - it is refused with the status of a server that is busy.
pub fn refusals_have_rows()
    ensures { RefusalRowsShown }
{}

/// Each operation of a script that is refused, but with the status of a server that is busy, has its row; or it writes, and a record refused so a WRITE or
/// COMMIT by which it made room.
pub fn refusals_have_rows_or_make_room()
    ensures { RefusalsRoomed }
{}

/// Let an honest server execute each call with status 0, the session not be lost and RPC refuse no call. Then each operation succeeds, or has a reason of its
/// own why not.
pub fn served_sessions_complete()
    ensures { ServedComplete }
{}

/// So it is, too, if operations may go on from other statuses, but for an operation that is refused by a status without a row.
pub fn undisturbed_sessions_complete()
    ensures { UndisturbedComplete }
{}

// Refusals because the server is busy.

/// An operation that makes no room for bytes is refused so only if a record refused so a call for which it asked. That wasn't the REMOVE of a last close, and
/// the operation doesn't go on from it. It would go on unless the call had been put off three times, or another WRITE or COMMIT of the file had been refused.
pub fn busy_refusals_have_rows()
    ensures { BusyRowsShown }
{}

/// The same of any operation; or a record refused so a WRITE or COMMIT by which a write, fill or put makes room. It doesn't go on from that either.
pub fn busy_refusals_have_rows_or_make_room()
    ensures { BusyRowsRoomed }
{}

// Files that a remove hides, and the closes that remove them.

/// Each place that is kept of a hidden file is one where a remove hid it: LOOKUP of its name gave the file, and then RENAME moved it there.
pub fn hidden_files_were_hidden()
    ensures { HiddenFilesWereHidden }
{}

/// The REMOVE of a close is of the place where the file of its slot was hidden.
pub fn removals_are_of_hidden_files()
    ensures { RemovalsAreOfHiddenFiles }
{}

/// If answers are noted before records are sent, the closes of a session ask for their REMOVEs: no other slot held the file. So all its calls were asked for,
/// but those that make room.
pub fn closes_remove_what_was_hidden()
    ensures { ClosesRemoveWhatWasHidden }
{}

// That each call was asked for.

/// If answers are noted before records are sent, all calls of a session that was set up were asked for.
pub fn calls_are_asked()
    ensures { CallsAreAsked }
{}

// That each refusal has its row, and when a session completes.

/// If answers are noted before records are sent, each operation of a script that is refused has its row, whatever it is refused for.
pub fn all_refusals_have_rows()
    ensures { RefusalsAllRowed }
{}

/// And each operation of a session that nothing disturbs succeeds, or has a reason of its own why not.
pub fn sessions_complete()
    ensures { SessionsComplete }
{}

// How old what a read shows may be.

/// As long as the session isn't lost, the core believes pages of an opened file only under one of these stamps (nfs(5), close-to-open and nocto; RFC 1813,
/// section 2.6):
/// - one that the server showed since that open began;
/// - if opens may go by kept attributes, one that it showed since a time for which these are kept;
/// - one to which this client's own changes of the file lead from one of these.
pub fn known_stamps_are_recent()
    ensures { KnownSeen }
{}

/// On an honest server with fresh stamps, what pages and READs gave a read are bytes that the file had. It had each at one of these moments, as the session
/// asks for (RFC 1813, sections 2.6 and 3.3.6; nfs(5), close-to-open, noac and nocto):
/// - since the open of the read began;
/// - since the read began;
/// - within the time for which attributes are kept.
///
/// An answer that is short ends where the file ended at such a moment.
pub fn reads_are_recent()
    ensures { ReadsRecent }
{}

/// What is pending of a read's range as the read ends is in its answer (RFC 1813, section 3.3.6). So is what was pending as it began, if nothing is pending at
/// that place at the end.
pub fn pending_bytes_are_read()
    ensures { PendingRead }
{}

/// On an honest server with fresh stamps, let a file have a byte at each moment of which a read may show bytes. If no operation of this client gave another to
/// its place, the byte is in the answer (RFC 1813, sections 2.6 and 3.3.6).
pub fn steady_bytes_are_read()
    ensures { SteadyRead }
{}

/// So let a byte be stable on such a server, and stay (RFC 1813, sections 3.3.6 and 3.3.7; nfs(5), close-to-open). It is in the answer of each read by an open
/// that begins afterwards. The conditions are these:
/// - no operation of this client gave another to its place;
/// - each open of the session asks anew.
pub fn stable_bytes_are_read()
    ensures { StableRead }
{}

// What each byte of an answer is.

/// Each byte of the answer to a read is one of these, on an honest server with fresh stamps (RFC 1813, sections 2.6 and 3.3.6; nfs(5), close-to-open, noac and
/// nocto):
/// - it may be pending at a moment of the read;
/// - the file had it at a moment of which the read may show bytes;
/// - it is a zero, the file ended at such a moment, and a later byte may be pending at a moment of the read.
pub fn reads_are_current()
    ensures { ReadsCurrent }
{}

// What becomes of bytes that this client wrote, and that its reads show them.

/// Let a write, fill or put succeed, let the session not be lost, and let each answer that is ready be noted. Unless this client touched it, each byte of the
/// operation
/// - is pending; or
/// - was made stable, and each WRITE of its place has carried it since it was first in flight.
///
/// No sync, close or put need have settled it.
pub fn written_bytes_are_kept()
    ensures { WrittenKept }
{}

/// On an honest server with fresh stamps that executes no late copies, a read answers each untouched byte of what was written before. This was a write, fill or
/// put that succeeded before the read. The byte may be pending still, or have been saved beside other bytes.
pub fn own_bytes_are_read()
    ensures { OwnBytesRead }
{}

/// And a read that answers fewer bytes than were asked for ends where the file ended at a moment that it may show. It doesn't end before such a byte.
pub fn short_reads_end_rightly()
    ensures { ReadsEndRightly }
{}

// What reads show of truncates.

/// Let a truncate succeed, and answers be noted before records are sent and received. An honest server that executes no late copies has no byte but zeros past
/// its size from then on (RFC 1813, section 3.3.2). That lasts as long as nothing of this client, and no other client, may have changed the place.
pub fn cut_places_stay()
    ensures { CutsStayBare }
{}

/// So a read shows zeros past the size of each truncate that succeeded before it began (RFC 1813, sections 2.6 and 3.3.6). For that the server has fresh
/// stamps, too.
pub fn cut_places_read()
    ensures { CutsRead }
{}
