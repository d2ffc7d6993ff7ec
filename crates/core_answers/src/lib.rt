//! What answers and calls show, along each history that the core goes with:
//! - from which replies the kept attributes, names and pages come;
//! - where paths lead;
//! - what each operation's calls and answers are;
//! - why an operation is refused.
//!
//! Nothing here runs: each function does nothing, and its contract is the theorem.
//!
//! Two terms recur. A server is honest if it and the network do only what `Lawful` of `world_model` allows. It has fresh stamps if each change of a file or
//! directory gives it a stamp that it never had (`Fresh`; RFC 1813, section 2.6). The RFC doesn't promise fresh stamps: they are a premise.
#![tactic(auto)]

ghost use Rattle.core_answers.specs.bonds.Aged.{AttrsAged};
ghost use Rattle.core_answers.specs.bonds.Ages.{StatsRecent};
ghost use Rattle.core_answers.specs.bonds.Had.{AttrsTrue, StatsTrue};
ghost use Rattle.core_answers.specs.bonds.Kept.{AttrsShown};
ghost use Rattle.core_answers.specs.bonds.Led.{StatsLed};
ghost use Rattle.core_answers.specs.bonds.Named.{NamesShown, NamesTrue, NamesStood};
ghost use Rattle.core_answers.specs.paths.Found.{OpensFound, PutsFound, NamesHeld};
ghost use Rattle.core_answers.specs.paths.Whole.{ListsWhole};
ghost use Rattle.core_answers.specs.pages.Held.{ReadsHeld};
ghost use Rattle.core_answers.specs.pages.Kept.{PagesShown};
ghost use Rattle.core_answers.specs.pages.Read.{ReadsShown};
ghost use Rattle.core_answers.specs.pages.True.{PagesTrue};
ghost use Rattle.core_answers.specs.reads.From.{ReadsFrom, ReadsGiven};
ghost use Rattle.core_answers.specs.rows.Listed.{ListsAsk, ListsShown};
ghost use Rattle.core_answers.specs.rows.OpenCalls.{OpensAsk};
ghost use Rattle.core_answers.specs.rows.SlotRows.{SlotRowsShown};
ghost use Rattle.core_answers.specs.completes.Rowed.{RowsComplete};
ghost use Rattle.core_answers.specs.limits.Limited.{AllMade, AllSent, CallsAreAll, SentByThen, XidsWithin};
ghost use Rattle.core_answers.specs.asks.PutCalls.{LonePutsAsk, PutsAsk};
ghost use Rattle.core_answers.specs.asks.ReadCalls.{ReadsAsk};
ghost use Rattle.core_answers.specs.asks.RemoveCalls.{RemovesAsk};
ghost use Rattle.core_answers.specs.asks.SlotCalls.{SlotsAsk};
ghost use Rattle.core_answers.specs.asks.StatCalls.{StatsAsk};
ghost use Rattle.core_answers.specs.asks.WriteCalls.{WritesAsk};
ghost use Rattle.core_answers.specs.asks.Xids.{XidsKept};
ghost use Rattle.core_answers.specs.writes.Alone.{CommitsAlone};
ghost use Rattle.core_answers.specs.writes.Carried.{PiecesCarried};
ghost use Rattle.core_answers.specs.writes.Flights.{WritesInFlight};
ghost use Rattle.core_answers.specs.writes.Written.{PendingWritten};
ghost use Rattle.core_answers.specs.answers.CutRows.{TruncatesOk};
ghost use Rattle.core_answers.specs.answers.LonePuts.{LoneRefusals};
ghost use Rattle.core_answers.specs.answers.ManyNames.{ManyShown};
ghost use Rattle.core_answers.specs.answers.PutRows.{PutsShown, PutKindsShown};
ghost use Rattle.core_answers.specs.answers.PutRules.{PutRulesShown, PutFaultsFew};
ghost use Rattle.core_answers.specs.answers.StatRows.{StatsOk};
ghost use Rattle.core_answers.specs.refusals.Rowed.{RefusalsOwned, RefusalsRowed};

// What the core keeps of replies: attributes and names.

/// The attributes that the core keeps of a file were shown by a reply of the history. The call of this reply was first sent after the clock showed the time
/// that is kept with them. They aren't believed for longer than the longest lifetime from that time on (nfs(5), acregmax and acdirmax).
pub fn attributes_were_shown()
    ensures { AttrsShown }
{}

/// The attributes that a stat shows were shown by a reply that came before its answer. The call of this reply was first sent
/// - since the stat began; or
/// - after the clock showed a time that was less than the longest lifetime before the stat's own reading of it.
pub fn stats_are_recent()
    ensures { StatsRecent }
{}

/// On an honest server, an object had the attributes that the core keeps of it. It had them at a moment after the clock showed the time that is kept with them
/// (RFC 1813, section 2.6).
pub fn attributes_were_true()
    ensures { AttrsTrue }
{}

/// On an honest server, an object had the attributes that a stat shows, at a moment not after its answer. This moment lies
/// - since the stat began; or
/// - after the clock showed a time that was less than the longest lifetime before the stat's own reading of it.
pub fn stats_are_true()
    ensures { StatsTrue }
{}

/// Each name that the core keeps was answered by a LOOKUP of the history, with the object for which it is kept. It is kept under the stamp of the directory's
/// attributes in that same reply.
pub fn names_were_shown()
    ensures { NamesShown }
{}

/// Let the server be honest, with fresh stamps. Then a name that the core keeps stands for its object whenever the directory has the stamp under which the name
/// is kept.
pub fn names_are_true()
    ensures { NamesTrue }
{}

/// By the attributes that the core keeps of a directory, a kept name stands for an object. On an honest server with fresh stamps, it did so at a moment after
/// the clock showed the time kept with these attributes. So what a walk passes without a call was true no longer ago than these attributes are believed.
pub fn names_stood()
    ensures { NamesStood }
{}

/// On an honest server with fresh stamps, a stat shows attributes of the object to which its path leads. The path leads there from the root by names that stood
/// in their directories at recent moments. The object had these attributes at a recent moment. Recent moments are those of `stats_are_true`.
pub fn stats_are_of_the_path()
    ensures { StatsLed }
{}

/// A stat's path leads by names that stood at recent moments to an object that had the attributes shown at a recent moment. A moment is recent if it is as old
/// at most as the lifetimes allow, by all readings of the clock, which may go back. The server is honest, with fresh stamps, and the clock is read as follows:
/// - it is read before operations begin;
/// - an operation begins at each of its readings.
pub fn attributes_are_recent()
    ensures { AttrsAged }
{}

// Where paths of opens and puts lead, and what a list shows.

/// The file of each open that succeeded stood under the last name of its path at a moment of the open. The names before it lead to its directory, by what
/// directories held at recent moments (RFC 1813, section 3.3.3). Premises and recent moments are those of `attributes_are_recent`.
pub fn opens_find_their_names()
    ensures { OpensFound }
{}

/// And so did the file of each put that succeeded.
pub fn puts_find_their_names()
    ensures { PutsFound }
{}

/// The file of each open and of each put that succeeded had its name then.
pub fn names_were_held()
    ensures { NamesHeld }
{}

/// If cookies rise, too, a list shows the names of its directory (RFC 1813, section 3.3.17):
/// - its names are in byte order, each once;
/// - the directory held each of them at a moment of the list;
/// - each name that the directory held all the while is among them, but for `.` and `..`.
pub fn lists_are_whole()
    ensures { ListsWhole }
{}

// What kept pages are.

/// Each page that the core keeps is known under its file's stamp. A page is known under a stamp for one of these reasons (RFC 1813, sections 3.3.2, 3.3.6 and
/// 3.3.7):
/// - it was kept from the start, under this stamp;
/// - a READ of the history gave it under this stamp;
/// - it was known under an earlier stamp, and the reply to a WRITE or SETATTR of this client leads from that to this one. It then has the bytes that were
///   written, or the size, since.
pub fn pages_were_shown()
    ensures { PagesShown }
{}

/// On an honest server with fresh stamps, a page that the core keeps is true. It is that page of the file whenever the file has its known stamp (RFC 1813,
/// section 2.6). A premise: each page that was kept from the start was so at a moment before any operation began.
pub fn pages_are_true()
    ensures { PagesTrue }
{}

/// A read that succeeds answers bytes of the file that its slot holds. Each of them is one of these (RFC 1813, section 3.3.6):
/// - a byte that was pending in this client at a moment of the read;
/// - a byte that kept pages or the replies to the read's own READs gave;
/// - a zero past the end of what these gave.
pub fn reads_are_shown()
    ensures { ReadsShown }
{}

/// On an honest server with fresh stamps, what pages and READs gave such a read are bytes that the file had (RFC 1813, section 2.6). The pages that were kept
/// from the start are true: that is a premise. The file had each byte
/// - at a moment since the read began; or
/// - at each moment at which it has a stamp that it had before the answer.
pub fn reads_are_held()
    ensures { ReadsHeld }
{}

// Where the bytes are from that a read answers.

/// Each byte that a read answers has one of these origins (RFC 1813, sections 3.3.6 and 4.8):
/// - a write, fill or put that began before the answer gave it to that place of the file;
/// - a kept page of the file has it there;
/// - the reply to a READ of the read's own gave it;
/// - it is a zero, past the end of what pages and READs gave.
pub fn reads_are_given()
    ensures { ReadsGiven }
{}

/// On an honest server with fresh stamps, what pages and READs gave such a read are bytes that the file had (RFC 1813, section 2.6). The file had each at a
/// moment since the read began, or whenever it has a stamp that it had before the answer. The pages that were kept from the start are true: that is a premise.
pub fn reads_are_from()
    ensures { ReadsFrom }
{}

// Calls and answers of opens, lists and operations on slots.

/// A list succeeds only if it ends with the last page of the directory to which its path leads. Its names are those of a chain of pages of that directory, from
/// the first on, which came within the list.
pub fn lists_are_shown()
    ensures { ListsShown }
{}

/// A list asks for each call that is sent for it: the LOOKUP of a name of its path, or the page that follows those that came.
pub fn lists_calls_are_asked()
    ensures { ListsAsk }
{}

/// An open asks for each call that is sent for it: the LOOKUP of a name of its path, CREATE of the last one if it makes its file, or GETATTR of the file.
pub fn opens_calls_are_asked()
    ensures { OpensAsk }
{}

/// A sync, close, write, fill or read succeeds only if the history shows its row:
/// - its slot holds an open, which has the right that a read, write or fill needs;
/// - the COMMIT of a sync was answered 0;
/// - a read has no more bytes than it was asked for, and the others have no value.
pub fn slot_rows_are_shown()
    ensures { SlotRowsShown }
{}

// A session that nothing disturbs.

/// Let nothing disturb a session in which each refusal has its row, calls are numbered and each WRITE carries a byte. Then each operation succeeds or is
/// refused for one of these reasons:
/// - its slot is taken or free, or its open has no right;
/// - it finds no file, or too many names;
/// - no calls are left, or no memory.
pub fn rows_are_complete()
    ensures { RowsComplete }
{}

// How many calls a session makes.

/// Each record that was sent is under one of the xids that there are (RFC 5531, section 9).
pub fn xids_are_within()
    ensures { XidsWithin }
{}

/// An operation is answered that no more calls may be made only if as many were made as may be.
pub fn spent_means_all_made()
    ensures { AllMade }
{}

/// And once each call that waits then was sent, a record was sent under each of the core's xids.
pub fn spent_means_all_sent()
    ensures { AllSent }
{}

/// Let an operation be answered so while no other is under way, in a session that isn't lost. Then a record was sent under each of the core's xids before its
/// answer.
pub fn a_lone_spent_answer_comes_after_all_calls()
    ensures { SentByThen }
{}

/// If a record was sent under each of so many xids, and under no other, so many calls were made.
pub fn so_many_xids_are_so_many_calls()
    ensures { CallsAreAll }
{}

// For which operation each call was made.

/// A put asks for each call that is sent for it: the LOOKUP of a name of its path, GETATTR of its file, WRITE and COMMIT of it; or it makes room for
/// its bytes.
pub fn puts_calls_are_asked()
    ensures { PutsAsk }
{}

/// A put that is the only operation which began asks for each call that is sent for it: it makes no room.
pub fn lone_puts_calls_are_asked()
    ensures { LonePutsAsk }
{}

/// A stat asks for each call that is sent for it: the LOOKUP of a name of its path, or GETATTR of the object to which that leads.
pub fn stats_calls_are_asked()
    ensures { StatsAsk }
{}

/// Each call of an operation is sent under one of the xids of the core: those for as many calls as it may make.
pub fn calls_keep_to_their_xids()
    ensures { XidsKept }
{}

/// A sync, a truncate and, but for its REMOVE, a close asks for each call that is sent for it: of the file that its slot holds.
pub fn slots_calls_are_asked()
    ensures { SlotsAsk }
{}

/// A read asks for each call that is sent for it:
/// - READ of the file that its slot holds, inside the pages that meet its range, of no more bytes than the READ size;
/// - in a session that asks anew, GETATTR of that file.
pub fn reads_calls_are_asked()
    ensures { ReadsAsk }
{}

/// Each call that is sent for a write or a fill makes room for its bytes: it makes what is pending of a file stable.
pub fn writes_calls_make_room()
    ensures { WritesAsk }
{}

/// A remove asks for each call that is sent for it: LOOKUPs of the names of its path and of hidden names, and REMOVE; or it hides its file by it.
pub fn removes_calls_are_asked()
    ensures { RemovesAsk }
{}

// Whose the pending bytes are, and which calls carry them.

/// As long as the session isn't lost, each byte that is pending, also in flight, at a place of a file was given to it. What gave it to this place is a put
/// which began, or a write or fill which began on a slot that held this file.
pub fn pending_bytes_were_written()
    ensures { PendingWritten }
{}

/// As long as the session isn't lost, each piece that is in flight under an xid is what the WRITE carries that waits under it: the same file,
/// offset, bytes and way.
pub fn flying_bytes_are_carried()
    ensures { PiecesCarried }
{}

/// As long as the session isn't lost, each WRITE that waits has its piece in flight under its xid: the same file, offset, bytes and way.
pub fn waiting_writes_are_in_flight()
    ensures { WritesInFlight }
{}

/// As long as the session isn't lost: while a COMMIT of a file waits, nothing of the file is in flight, and no WRITE of it waits.
pub fn commits_wait_alone()
    ensures { CommitsAlone }
{}

// Answers of puts, stats, truncates and lists.

/// A put succeeds only if its path leads to a file of which COMMIT, sent since the put began, was answered 0. It ends with the reply to a WRITE or COMMIT of
/// that file.
pub fn puts_are_shown()
    ensures { PutsShown }
{}

/// A put is refused for the kind of its file only if it ends with the reply to GETATTR of that file. This reply shows another kind than 1.
pub fn put_kinds_are_shown()
    ensures { PutKindsShown }
{}

/// A put is refused for a rule only if a record breaks this rule of what a reply has to be. The record came within the put, for a call that was first sent
/// within it.
pub fn put_rules_are_shown()
    ensures { PutRulesShown }
{}

/// A put is never refused for what slots hold, nor for too many names.
pub fn puts_are_refused_for_few()
    ensures { PutFaultsFew }
{}

/// A put that is the only operation so far has the whole row of what it is refused for, but for `nfs 10008`: a record refused so a call that it asks
/// for, what it found is no file, or the session is lost.
pub fn lone_puts_refusals_are_rows()
    ensures { LoneRefusals }
{}

/// A list is refused for too many names only if it ends with a page of its directory that makes them too many. With it the pages that came within the list hold
/// more than 65,536 names.
pub fn many_names_are_shown()
    ensures { ManyShown }
{}

/// A stat succeeds only with attributes that a reply showed of the object to which its path leads.
pub fn stats_go_well()
    ensures { StatsOk }
{}

/// A truncate succeeds only if it ends with the reply to SETATTR of its size. The SETATTR is of the file that its slot held as it began, and its reply has
/// status 0.
pub fn truncates_go_well()
    ensures { TruncatesOk }
{}

// Why an operation is refused.

/// If an operation is refused with a final status, by RPC or for a broken rule, a record refused so a call of its own:
/// - the call was sent for it, and it asks for this call, as far as that is known;
/// - the call isn't the REMOVE of a last close;
/// - the operation doesn't go on from that refusal.
///
/// A status is final but for 10008, and for 2 of a remove or of an open that may make its file.
pub fn refusals_are_of_own_calls()
    ensures { RefusalsOwned }
{}

/// Of an operation that neither makes room nor hides a file this is the whole row.
pub fn refusals_have_their_rows()
    ensures { RefusalsRowed }
{}
