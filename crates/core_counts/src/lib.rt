//! How many calls a session makes, which of them it needn't, and the core beside coarser machines, along each history that the core goes with. Nothing here
//! runs: each function does nothing, and its contract is the theorem.
//!
//! Two groups need more of a history: that of long WRITEs, and that of how often each call is made. Its answers are noted as they are ready, before a record is
//! sent or received (`Notes` of `core_facts`).
#![tactic(auto)]

ghost use Rattle.core_counts.specs.coarse.Runs.{CoreIsCoarse, StatesReached};
ghost use Rattle.core_counts.specs.coarse.Fed.{CoreIsFed, PagesFed, NamesFed, AttrsLearnt};
ghost use Rattle.core_counts.specs.coarse.FedFiles.{FilesFound, ListsTaken};
ghost use Rattle.core_counts.specs.coarse.FedPages.{FedPagesTrue};
ghost use Rattle.core_counts.specs.coarse.FedWalks.{WalksLed};
ghost use Rattle.core_counts.specs.coarse.WereLong.{WritesWereLong};
ghost use Rattle.core_counts.specs.thrift.KeptReads.{KeptOnce};
ghost use Rattle.core_counts.specs.thrift.Reads.{ReadsLong};
ghost use Rattle.core_counts.specs.thrift.Unkept.{UnkeptAsked};
ghost use Rattle.core_counts.specs.thrift.Writes.{PutWritesLong, SavedWritesLong, WritesLong, WrittenWritesLong};
ghost use Rattle.core_counts.specs.counts.Commits.{FewCommitsMade};
ghost use Rattle.core_counts.specs.counts.Equal.{FewEqualMade};
ghost use Rattle.core_counts.specs.counts.Hidden.{FewHiddenMade};
ghost use Rattle.core_counts.specs.counts.Pages.{FewPagesMade};
ghost use Rattle.core_counts.specs.counts.Reads.{FewReadsMade};
ghost use Rattle.core_counts.specs.counts.Writes.{FewWritesMade};

// The machine of written bytes beside the core.

/// With each history that the core goes with, the machine of `model_writes` goes too, as far as it speaks of bytes and calls. At each step of a lane's
/// operation, with the call that it makes, it makes moves, or none. Afterwards it shows at each place what is pending there and in flight. Once the session is
/// lost both stop.
pub fn steps_are_coarse()
    ensures { CoreIsCoarse }
{}

/// So what the core keeps of each place of each file is what the machine comes to: the byte that is pending and the one in flight.
pub fn kept_states_are_coarse()
    ensures { StatesReached }
{}

/// Each WRITE that is sent had as many bytes as a WRITE may have, as it was made; or its bytes didn't go on where it ends.
pub fn writes_were_long()
    ensures { WritesWereLong }
{}

// The machines of kept pages, names and attributes beside the core.

/// Along each history of a conforming server, the kept pages and the kept names go on by steps of their machines. What was executed until then allows each step
/// (RFC 1813, sections 3.3.2, 3.3.3, 3.3.6 and 3.3.7). So it is in each step of the core:
/// - as an operation begins;
/// - as it goes on;
/// - as it takes what came of its call;
/// - over each entry as a whole.
pub fn steps_are_fed()
    ensures { CoreIsFed }
{}

/// So at each place of it the kept pages are what the machine of pages comes to from those that were kept from the start.
pub fn pages_are_fed()
    ensures { PagesFed }
{}

/// And the kept names are fed as `law_names` says.
pub fn names_are_fed()
    ensures { NamesFed }
{}

/// Let the server be honest, and let each change of a file give it a new stamp. Then a page that the machine of pages keeps under a file's known stamp is true.
/// It is that page of the file at every moment at which the file has this stamp (RFC 1813, section 2.6).
pub fn fed_pages_are_true()
    ensures { FedPagesTrue }
{}

/// In each such step, attributes that are kept afterwards were kept before; or a reply shows them, to a call that was made after the time that is kept with
/// them (nfs(5), acregmin to acdirmax).
pub fn attrs_are_learnt()
    ensures { AttrsLearnt }
{}

/// Each walk of an operation under way stands where the names lead that it has gone through (RFC 1813, section 3.3.3; nfs(5), acregmin to acdirmax). A name
/// leads
/// - to what a LOOKUP found that was first sent after the operation began; or
/// - to what is kept for it under the stamp of directory attributes that were shown recently.
pub fn walks_are_led()
    ensures { WalksLed }
{}

/// Each open and put under way that has found its file found it by its own LOOKUP or CREATE. That was of the last name of its path, in the directory to which
/// the names before it lead (RFC 1813, sections 3.3.3 and 3.3.8).
pub fn files_are_found()
    ensures { FilesFound }
{}

/// Each listing under way has the names of the pages that it took of the directory to which its path leads. It asked for each page after the one before it
/// came, from that one's last cookie (RFC 1813, section 3.3.17).
pub fn lists_are_taken()
    ensures { ListsTaken }
{}

// Calls that aren't shorter, or more, than they need be.

/// If no page was kept from the start, each READ of a session is long (RFC 1813, sections 3.3.6 and 3.3.19). That is, it
/// - asks for as many bytes as the session's READ size is; or
/// - ends where the last page ends that the range of a read under way meets; or
/// - ends where a page begins that an earlier READ of the file met.
pub fn reads_are_long()
    ensures { ReadsLong }
{}

/// A short WRITE that is first sent within a put ends where an earlier WRITE went on (RFC 1813, section 3.3.7). It is short if it has fewer bytes than the
/// session's WRITE size. These are the conditions:
/// - all operations are of one lane;
/// - all writers together write no more bytes than may be dirty at once;
/// - the WRITE's last byte and the one behind it are the put's own.
pub fn put_writes_are_long()
    ensures { PutWritesLong }
{}

/// Of a short WRITE that is first sent within a sync or close one of these is true, if all operations are of one lane:
/// - it ends where an earlier WRITE went on;
/// - as the operation began, no byte of the place behind it waited to be sent UNSTABLE;
/// - as the operation began, a byte of its end was to be sent as stable.
///
/// It is short if it has fewer bytes than the session's WRITE size.
pub fn saved_writes_are_long()
    ensures { SavedWritesLong }
{}

/// A short WRITE that is first sent within a sync or close ends where an earlier WRITE went on (RFC 1813, section 3.3.7). It is short if it has fewer bytes
/// than the session's WRITE size. These are the conditions:
/// - all operations are of one lane;
/// - all writers together write no more bytes than may be dirty at once;
/// - a write or fill of the slot that succeeded before has the WRITE's last byte and the one behind it;
/// - since that began, only writes and fills began before the sync or close.
pub fn written_writes_are_long()
    ensures { WrittenWritesLong }
{}

/// A short WRITE that is first sent within a sync, close or put ends where an earlier WRITE went on (RFC 1813, section 3.3.7). It is short if it has fewer
/// bytes than the session's WRITE size. This is `LongWrites` of `claims`, of a session that was set up. These are the conditions:
/// - all operations are of one lane;
/// - all writers together write no more bytes than may be dirty at once;
/// - one operation, or this put itself, was the last to write both the WRITE's last place and the one behind it;
/// - no truncate of the file was answered before, and no close or put of it refused.
pub fn writes_are_long()
    ensures { WritesLong }
{}

/// If all operations are of one lane, no READ is sent for a page of its file that is kept then.
pub fn kept_pages_arent_asked_for()
    ensures { UnkeptAsked }
{}

/// No READ is sent for a page that a READ gave under the stamp which its open was told. These are the conditions:
/// - all operations are of one lane, and no page was kept from the start;
/// - each reply since the open that shows attributes of the file shows this stamp;
/// - no reply since then answers a WRITE or SETATTR of the file;
/// - reads meet no more pages than are kept.
///
/// Opens may go by kept attributes (nfs(5), nocto).
pub fn given_pages_are_asked_for_once()
    ensures { KeptOnce }
{}

// How often each call is made. Most numbers are taken four times: so often a call may be made under new xids while a server answers that it takes long
// (NFS3ERR_JUKEBOX; RFC 1813, section 2.6).

/// Equal READDIRPLUS calls are at most four times as many as these (RFC 1813, section 3.3.17):
/// - one for each page that they follow;
/// - from cookie 0, one for each list that asks for them.
pub fn pages_are_few()
    ensures { FewPagesMade }
{}

/// READs of one file are at most four times as many as these (RFC 1813, section 3.3.6):
/// - for each read of the file, as many as the pages take that meet its range;
/// - one for each short reply.
pub fn reads_are_few()
    ensures { FewReadsMade }
{}

/// WRITEs that cover a place of a file are at most as many as these (RFC 1813, sections 3.3.7 and 3.3.21):
/// - four for each operation that writes the place;
/// - one for each reply to such a WRITE that leaves it unwritten;
/// - one for each COMMIT of the file.
pub fn writes_are_few()
    ensures { FewWritesMade }
{}

/// COMMITs of one file are at most four times as many as these (RFC 1813, section 3.3.21):
/// - two for each sync, close and put of the file;
/// - 32 for each write, fill and put, if together they have more bytes than may be dirty at once: some may have waited for room.
pub fn commits_are_few()
    ensures { FewCommitsMade }
{}

/// LOOKUPs of hidden names that no path of the script has are at most four times as many as these:
/// - one for each remove;
/// - one for each such name that was found.
pub fn hidden_names_are_few()
    ensures { FewHiddenMade }
{}

/// Equal plain calls are at most four times as many as these: for each operation that asks for them, 3 and one for each name of its paths. A call is plain if
/// it is none of WRITE, COMMIT, READDIRPLUS, MNT and FSINFO.
pub fn equal_calls_are_few()
    ensures { FewEqualMade }
{}
