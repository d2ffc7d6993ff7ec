//! The session as a whole.

ghost use Rattle.std.specs.Prelude.{◌≡◌, ◌≤◌, ℕ, All, None, Some, length, IfOk};
ghost use Rattle.outside.specs.Causes.{Rose};
ghost use Rattle.nfs_script.specs.Asked.{IsAskedLine};
ghost use Rattle.world_model.specs.Counts.{tally_of};
ghost use Rattle.world_model.specs.Lost.{IsLost};
ghost use Rattle.world_model.specs.Told.{Relates};
ghost use Rattle.link_dials.specs.Dials.{DialsOnly};
ghost use Rattle.core_facts.specs.Reaches.{MaySetUp};
ghost use Rattle.lane_session.specs.Bonds.{IsOpened, CanCount, EndsWith, EndsPages, PagesOf, LosesAll, StaysLost, AreCounted};
ghost use Rattle.lane_session.specs.Losing.{LosesOnly, status_of};
ghost use Rattle.lane_session.specs.Sessions.{MayGo, IsUnmarked, SessionCounts, EndsBy, TellsEnd};
ghost use Rattle.lane_session.specs.Statuses.{IsEnding, IsSessionStatus, CausedBy};
ghost use Rattle.lane_session.specs.Streams.{Passes, Says};

use crate::halt::Halt;
use crate::lines::tell_counts;
use crate::lost_lines::lose_lines;
use crate::running::Session;
use crate::status;
use client_core::Setup;
use nfs_script::Script;
use outside::{Clock, Link, Sink};
use page_cache::PageCache;
use session_words::Settings;
use std::alloc::Global;
use world_model::Tally;

/// What a session comes to.
#[derive(Drop)]
pub struct End {
    /// The status by its answers.
    pub status: u8,
    /// The calls that were sent.
    pub tally: Tally,
    /// The pages that are kept at the end. None if the session had no set-up.
    pub pages: Option<PageCache>,
}

/// Runs each line of the script in its lane, and answers the status:
/// - 0: each operation succeeded;
/// - 1: one was refused;
/// - 5: the sink failed;
/// - 6: the link is lost;
/// - 7: there was no memory outside an operation.
///
/// Without a set-up the session is lost. If each line had its answer, the pages that are kept at the end come with it.
pub fn session<L: Link, C: Clock, K: Sink>(
    alloc: Global,
    settings: &Settings,
    script: &Script,
    setup: Option<Setup>,
    tally: Tally,
    link: &mut L,
    clock: &mut C,
    out: &mut K,
) -> (u8, Option<PageCache>)
    requires may { MayGo setup }
    requires asked { All IsAskedLine script.now }
    requires few { length script.now ≤ 16384 }
    ensures ending { IsEnding result.0 }
    ensures sink { result.0 ≡ 5 → Rose (K.faults out.old) (K.faults out.new) }
    ensures pages { Relates (L.told link.old) (L.told link.new) (λ h k. IsOpened setup h → PagesOf settings.now setup result.1 k) }
    ensures core { Relates (L.told link.old) (L.told link.new)
        (λ h k. IsOpened setup h → EndsWith settings.now setup h k) }
    ensures stays_lost { Relates (L.told link.old) (L.told link.new) (λ h k. IsUnmarked h → IsOpened setup h → StaysLost k) }
    ensures loses { Relates (L.told link.old) (L.told link.new) (LosesAll setup script.now) }
    ensures dials { DialsOnly settings.now.nfs_port (L.told link.old) (L.told link.new) }
    ensures stays { (first : L) → L.stays first link.old → L.stays first link.new }
    ensures honest { L.honest link.old → L.honest link.new }
    ensures shown { Passes (C.readings clock.old) (C.readings clock.new) (L.told link.old) (L.told link.new) (K.written out.old) (K.written out.new)
        (λ given text h k. IsUnmarked h
        → SessionCounts (CanCount setup h) tally settings.now.count script.now given h k result.0 text) }
{
    match all_lines(alloc, settings, script, setup, tally, link, clock, out) {
        Ok(end) => {
            let status = finish(alloc, &end, settings.count, out);
            (status, end.pages)
        }
        Err(halt) => (status::of_halt(halt), None),
    }
}

/// Runs the lines, or answers that they are lost if there is no set-up.
fn all_lines<L: Link, C: Clock, K: Sink>(
    alloc: Global,
    settings: &Settings,
    script: &Script,
    setup: Option<Setup>,
    tally: Tally,
    link: &mut L,
    clock: &mut C,
    out: &mut K,
) -> Result<End, Halt>
    requires may { MayGo setup }
    requires asked { All IsAskedLine script.now }
    requires few { length script.now ≤ 16384 }
    ensures ending { IfOk result (λ end. IsSessionStatus end.status) }
    ensures goes { Passes (C.readings clock.old) (C.readings clock.new) (L.told link.old) (L.told link.new) (K.written out.old) (K.written out.new)
        (λ given text h k. IsUnmarked h → EndsBy script.now result given text h k) }
    ensures core { Relates (L.told link.old) (L.told link.new)
        (λ h k. IsOpened setup h → EndsWith settings.now setup h k) }
    ensures stays_lost { Relates (L.told link.old) (L.told link.new) (λ h k. IsUnmarked h → IsOpened setup h → StaysLost k) }
    ensures loses { Relates (L.told link.old) (L.told link.new) (LosesAll setup script.now) }
    ensures counted { Relates (L.told link.old) (L.told link.new)
        (λ h k. CanCount setup h → tally ≡ tally_of h → AreCounted result k) }
    ensures pages { Relates (L.told link.old) (L.told link.new) (λ h k. IsOpened setup h → EndsPages settings.now setup result k) }
    ensures dials { DialsOnly settings.now.nfs_port (L.told link.old) (L.told link.new) }
    ensures stays { (first : L) → L.stays first link.old → L.stays first link.new }
    ensures honest { L.honest link.old → L.honest link.new }
    ensures later { K.faults out.old ≤ K.faults out.new }
    ensures cause { CausedBy result (Rose (K.faults out.old) (K.faults out.new)) }
{
    match setup {
        Some(setup) => run_lines(alloc, settings, script, setup, tally, link, clock, out),
        None => lose_all(alloc, script, tally, link, clock, out),
    }
}

/// Runs the lines of a session that has a set-up.
fn run_lines<L: Link, C: Clock, K: Sink>(
    alloc: Global,
    settings: &Settings,
    script: &Script,
    setup: Setup,
    tally: Tally,
    link: &mut L,
    clock: &mut C,
    out: &mut K,
) -> Result<End, Halt>
    requires may { MaySetUp setup }
    requires asked { All IsAskedLine script.now }
    requires few { length script.now ≤ 16384 }
    ensures ending { IfOk result (λ end. IsSessionStatus end.status) }
    ensures goes { Passes (C.readings clock.old) (C.readings clock.new) (L.told link.old) (L.told link.new) (K.written out.old) (K.written out.new)
        (λ given text h k. IsUnmarked h → EndsBy script.now result given text h k) }
    ensures core { Relates (L.told link.old) (L.told link.new)
        (λ h k. IsOpened (Some setup) h → EndsWith settings.now (Some setup) h k) }
    ensures counted { Relates (L.told link.old) (L.told link.new) (λ h k. IsOpened (Some setup) h → tally ≡ tally_of h → AreCounted result k) }
    ensures pages { Relates (L.told link.old) (L.told link.new) (λ h k. IsOpened (Some setup) h → EndsPages settings.now (Some setup) result k) }
    ensures dials { DialsOnly settings.now.nfs_port (L.told link.old) (L.told link.new) }
    ensures stays { (first : L) → L.stays first link.old → L.stays first link.new }
    ensures honest { L.honest link.old → L.honest link.new }
    ensures later { K.faults out.old ≤ K.faults out.new }
    ensures cause { CausedBy result (Rose (K.faults out.old) (K.faults out.new)) }
{
    setup.pages.is_sound();
    let Ok(mut session) = Session::new(alloc, settings, setup, tally) else {
        return Err(Halt::Memory);
    };
    match session.work(script, &[], link, clock, out) {
        Ok(()) => {
            let status = session.status;
            let tally = session.counts.tally;
            let pages = Some(session.into_pages());
            Ok(End {
                status,
                tally,
                pages,
            })
        }
        Err(halt) => {
            // Dropped by a call, since the prover takes a drop in place apart, field by field.
            drop(session);
            Err(halt)
        }
    }
}

/// Answers each line of a session that was lost before.
fn lose_all<L: Link, C: Clock, K: Sink>(
    alloc: Global,
    script: &Script,
    tally: Tally,
    link: &mut L,
    clock: &mut C,
    out: &mut K,
) -> Result<End, Halt>
    requires asked { All IsAskedLine script.now }
    ensures ending { IfOk result (λ end. IsSessionStatus end.status) }
    ensures goes { Passes (C.readings clock.old) (C.readings clock.new) (L.told link.old) (L.told link.new) (K.written out.old) (K.written out.new)
        (λ given text h k. IsUnmarked h → EndsBy script.now result given text h k) }
    ensures core { Relates (L.told link.old) (L.told link.new) (λ h k. IsLost h (length h) → IsLost k (length k)) }
    ensures stays_lost { Relates (L.told link.old) (L.told link.new) (λ h k. IsUnmarked h → IsLost h (length h) → StaysLost k) }
    ensures loses { Relates (L.told link.old) (L.told link.new) (LosesOnly script.now) }
    ensures counted { Relates (L.told link.old) (L.told link.new) (λ h k. CanCount None h → tally ≡ tally_of h → AreCounted result k) }
    ensures pages { IfOk result (λ end. end.pages ≡ None) }
    ensures dials { (port : ℕ) → DialsOnly port (L.told link.old) (L.told link.new) }
    ensures stays { (first : L) → L.stays first link.old → L.stays first link.new }
    ensures honest { L.honest link.old → L.honest link.new }
    ensures later { K.faults out.old ≤ K.faults out.new }
    ensures cause { CausedBy result (Rose (K.faults out.old) (K.faults out.new)) }
{
    match lose_lines(alloc, script, &[], link, clock, out) {
        Ok(()) => Ok(End {
            status: lost_status(script),
            tally,
            pages: None,
        }),
        Err(halt) => Err(halt),
    }
}

/// The status of a session that was lost before: an empty script has no answer.
fn lost_status(script: &Script) -> u8
    ensures { result ≡ status_of script.now }
{
    if script.count() == 0 {
        status::WELL
    } else {
        status::LINK_LOST
    }
}

/// Writes the line of counts if it is wanted.
fn finish<K: Sink>(alloc: Global, end: &End, count: bool, out: &mut K) -> u8
    requires { IsSessionStatus end.now.status }
    ensures ending { IsEnding result }
    ensures sink { result ≡ 5 → Rose (K.faults out.old) (K.faults out.new) }
    ensures said { Says (K.written out.old) (K.written out.new) (TellsEnd end.now count result) }
{
    if count {
        match tell_counts(alloc, &end.tally, out) {
            Ok(()) => end.status,
            Err(halt) => status::of_halt(halt),
        }
    } else {
        end.status
    }
}
