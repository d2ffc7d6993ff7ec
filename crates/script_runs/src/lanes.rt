//! A session: what comes before the first line of its script, and its lanes.

ghost use Rattle.std.specs.Prelude.{◌≡◌, ◌≤◌, ◌<◌, ◌^◌, ℕ, [], ◌∷◌, All, Some, Err, IfSome, length};
ghost use Rattle.world_model.specs.Entries.{ours};
ghost use Rattle.world_model.specs.Told.{Relates};
ghost use Rattle.outside.specs.Causes.{Rose};
ghost use Rattle.link_dials.specs.Dials.{DialsOnly};
ghost use Rattle.nfs_script.specs.Asked.{IsAskedLine};
ghost use Rattle.core_facts.specs.Reaches.{MaySetUp};
ghost use Rattle.lane_session.specs.Bonds.{CanCount, EndsWith, IsOpened, PagesOf};
ghost use Rattle.lane_session.specs.Sessions.{IsUnmarked, SessionCounts};
ghost use Rattle.lane_session.specs.Streams.{Passes};
ghost use Rattle.session_setup.specs.Outcomes.{IsOptions, SetsUp};
ghost use Rattle.script_runs.specs.Readings.{Reads, ReadsOnce};
ghost use Rattle.script_runs.specs.LaneRuns.{IsEnding, LeavesOver, NoCore, SetUpAndRun, SessionFrom};
ghost use Rattle.script_runs.specs.Stock.{HandsBack, setup_with};
ghost use Rattle.script_runs.specs.Run.{IsFirst, IsXidOption, Says};

use crate::mount::refuse_mount;
use crate::status;
use crate::stock::Stock;
use client_core::Setup;
use lane_session::session;
use nfs_script::Script;
use nfs_types::Handle;
use outside::{Clock, Link, Sink};
use page_cache::PageCache;
use session_setup::{SetUp, SetUpFault, set_up};
use session_words::Settings;
use std::alloc::Global;
use world_model::Tally;

/// No call was made.
const NO_CALLS: Tally = Tally {
    calls: 0,
    getattr: 0,
    lookup: 0,
    read: 0,
    write: 0,
    commit: 0,
};

/// Sets a session up and runs each line of the script in its lane. A script without lines makes no call. The session begins with the pages of the stock, if
/// they are of its root. If they were, and each line had its answer, the pages that are kept at the end are handed back.
pub fn run_lanes<L: Link, C: Clock, K: Sink>(
    alloc: Global,
    settings: &Settings,
    stock: Stock,
    script: &Script,
    link: &mut L,
    clock: &mut C,
    out: &mut K,
) -> (u8, Option<Stock>)
    requires options { IsOptions settings.now }
    requires most { settings.now.calls < 2 ^ 31 }
    requires xid { IsXidOption settings.now.xid }
    requires asked { All IsAskedLine script.now }
    requires few { length script.now ≤ 16384 }
    ensures ending { IsEnding result.0 }
    ensures sink { result.0 ≡ 5 → Rose (K.faults out.old) (K.faults out.new) }
    ensures stays { (first : L) → L.stays first link.old → L.stays first link.new }
    ensures honest { L.honest link.old → L.honest link.new }
    ensures pages { Relates (L.told link.old) (L.told link.new) (λ before h. ours before ≡ [] → IfSome result.1 (λ back. HandsBack stock settings.now back h)) }
    ensures shown { Says (K.written out.old) (K.written out.new) (λ text.
        Reads (C.readings clock.old) (C.readings clock.new) (λ given.
        Relates (L.told link.old) (L.told link.new) (λ before h. ours before ≡ [] →
        SessionFrom (LeavesOver stock) settings.now script.now given before h result.0 text))) }
{
    if script.count() == 0 {
        // Dropped by a call, since the prover takes a drop in place apart, field by field.
        drop(stock);
        let (status, _) = session(alloc, settings, script, None, NO_CALLS, link, clock, out);
        return (status, None);
    }
    let first = first_xid(settings.xid, clock);
    match set_up(alloc, settings, first, link) {
        Ok(ready) => run_ready(alloc, settings, stock, script, ready, link, clock, out),
        Err(fault) => {
            drop(stock);
            let status = end_early(alloc, settings, script, fault, link, clock, out);
            (status, None)
        }
    }
}

/// Runs each line of the script in a session that is set up.
fn run_ready<L: Link, C: Clock, K: Sink>(
    alloc: Global,
    settings: &Settings,
    stock: Stock,
    script: &Script,
    ready: SetUp,
    link: &mut L,
    clock: &mut C,
    out: &mut K,
) -> (u8, Option<Stock>)
    requires may { MaySetUp (setup_with stock settings.now ready) }
    requires asked { All IsAskedLine script.now }
    requires few { length script.now ≤ 16384 }
    ensures ending { IsEnding result.0 }
    ensures sink { result.0 ≡ 5 → Rose (K.faults out.old) (K.faults out.new) }
    ensures core { Relates (L.told link.old) (L.told link.new)
        (λ h k. IsOpened (Some (setup_with stock settings.now ready)) h → EndsWith settings.now (Some (setup_with stock settings.now ready)) h k) }
    ensures pages { Relates (L.told link.old) (L.told link.new) (λ h k. IsOpened (Some (setup_with stock settings.now ready)) h
        → IfSome result.1 (λ back. PagesOf settings.now (Some (setup_with stock settings.now ready)) (Some back.pages) k × (back.root ≡ Some ready.root))) }
    ensures dials { DialsOnly settings.now.nfs_port (L.told link.old) (L.told link.new) }
    ensures stays { (first : L) → L.stays first link.old → L.stays first link.new }
    ensures honest { L.honest link.old → L.honest link.new }
    ensures shown { Passes (C.readings clock.old) (C.readings clock.new) (L.told link.old) (L.told link.new) (K.written out.old) (K.written out.new)
        (λ given text h k. IsUnmarked h
        → SessionCounts (CanCount (Some (setup_with stock settings.now ready)) h) ready.tally settings.now.count script.now given h k result.0 text) }
{
    stock.is_sound();
    let own = stock.is_of(&ready.root);
    let Ok(pages) = stock.into_pages(alloc, &ready.root) else {
        return (status::NO_MEMORY, None);
    };
    let setup = Setup {
        root: ready.root,
        rsize: ready.rsize,
        wsize: ready.wsize,
        first_xid: ready.next_xid,
        limit: ready.left,
        cred: settings.cred,
        lives: settings.lives,
        pages,
    };
    let (status, pages) = session(
        alloc,
        settings,
        script,
        Some(setup),
        ready.tally,
        link,
        clock,
        out,
    );
    (status, handed_back(own, &ready.root, pages))
}

/// The pages of a session at its end, if it was one over their root.
fn handed_back(own: bool, root: &Handle, pages: Option<PageCache>) -> Option<Stock>
    ensures { IfSome result (λ back. (pages ≡ Some back.pages) × (back.root ≡ Some root.now)) }
{
    if !own {
        return None;
    }
    match pages {
        Some(pages) => Some(Stock {
            root: Some(*root),
            pages,
        }),
        None => None,
    }
}

/// Ends a session that can't be set up: if it is lost each line is answered so, and else none begins.
fn end_early<L: Link, C: Clock, K: Sink>(
    alloc: Global,
    settings: &Settings,
    script: &Script,
    fault: SetUpFault,
    link: &mut L,
    clock: &mut C,
    out: &mut K,
) -> u8
    requires asked { All IsAskedLine script.now }
    requires few { length script.now ≤ 16384 }
    ensures ending { IsEnding result }
    ensures sink { result ≡ 5 → Rose (K.faults out.old) (K.faults out.new) }
    ensures stays { (first : L) → L.stays first link.old → L.stays first link.new }
    ensures honest { L.honest link.old → L.honest link.new }
    ensures shown { Says (K.written out.old) (K.written out.new) (λ text.
        Reads (C.readings clock.old) (C.readings clock.new) (λ given.
        Relates (L.told link.old) (L.told link.new) (λ before h. (first : ℕ) → SetsUp settings.now first (Err fault) before
        → SetUpAndRun NoCore settings.now script.now first given h result text))) }
{
    match fault {
        SetUpFault::Lost(tally) => {
            let (status, _) = session(alloc, settings, script, None, tally, link, clock, out);
            status
        }
        SetUpFault::Refused(fault) => refuse_mount(alloc, fault, out),
        SetUpFault::Memory => status::NO_MEMORY,
    }
}

/// The xid of the first call: the one that is wanted, or one by the time.
pub fn first_xid<C: Clock>(wanted: Option<u32>, clock: &mut C) -> u32
    requires { IsXidOption wanted }
    ensures range { (1 ≤ result) × (result ≤ 2 ^ 31) }
    ensures read { ReadsOnce (C.readings clock.old) (C.readings clock.new) (λ ms. IsFirst (ms ∷ []) wanted result) }
{
    let now = clock.now();
    match wanted {
        Some(xid) => xid,
        None => (now % (1 << 31)) as u32 + 1,
    }
}
