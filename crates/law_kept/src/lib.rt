//! The law of kept pages over several sessions, one after the other over the same link, with an honest server. If the pages of a store are true of the history
//! so far, they are true to a session that comes then. What that session leaves is true of the whole. Nothing here runs: each function has an empty body, and
//! its contract is the theorem.
#![tactic(auto)]

ghost use Rattle.law_kept.specs.Sessions.{BeginTrue, LeaveTrue};

use page_store::Disk;

/// The premise of `kept_runs::run_kept` for an honest server follows from this: the pages of each image were true of its history before the session.
pub fn later_sessions_begin_true<D: Disk>()
    ensures { BeginTrue D.tells D.may_leave }
{}

/// An image whose pages are true of the history as a later client sees it has pages that are true of the whole history.
pub fn what_they_leave_is_true()
    ensures { LeaveTrue }
{}
