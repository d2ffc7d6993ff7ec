//! The top call.

ghost use Rattle.std.specs.Prelude.{◌≡◌, ◌≢◌, ◌≤◌, ◌<◌, ◌^◌, ◌⊎◌, [], IfOk, Ok, Some, map};
ghost use Rattle.std.specs.String.{string_bytes};
ghost use Rattle.world_model.specs.Counts.{tally_of};
ghost use Rattle.world_model.specs.Told.{Relates};
ghost use Rattle.link_dials.specs.Dials.{DialsOnly};
ghost use Rattle.core_facts.specs.Reaches.{MaySetUp};
ghost use Rattle.lane_session.specs.Bonds.{IsOpened};
ghost use Rattle.lane_session.specs.Streams.{Passes};
ghost use Rattle.outside.specs.Causes.{Rose};
ghost use Rattle.session_words.specs.declared.settings.Settings.{Settings as SettingsOf};
ghost use Rattle.session_words.specs.Words.{IsCommand};
ghost use Rattle.session_setup.specs.Outcomes.{IsOptions};
ghost use Rattle.script_runs.specs.LaneRuns.{Leaves, setup_of};
ghost use Rattle.script_runs.specs.Readings.{Reads};
ghost use Rattle.script_runs.specs.Run.{IsXidOption, Says};
ghost use Rattle.batch_runs.specs.Opening.{IsEnding, OpensWith};
ghost use Rattle.batch_runs.specs.Parts.{IsWorst};
ghost use Rattle.batch_runs.specs.Reading.{MayRun, left_in};
ghost use Rattle.batch_runs.specs.Running.{IsRead, RunsOver, ended_with};
ghost use Rattle.batch_runs.specs.Runs.{BatchesBy, RunOf};
ghost use Rattle.batch_runs.specs.Stops.{CausedBy};

use crate::answered::Answered;
use crate::lost::lose_scripts;
use crate::reading::first_script;
use crate::running::run_scripts;
use crate::status;
use crate::stop::Stop;
use client_core::Setup;
use nfs_script::Script;
use outside::{Clock, Link, Sink, Source};
use page_cache::PageCache;
use script_batches::Batches;
use script_runs::{first_xid, refuse_mount};
use session_setup::{SetUp, SetUpFault, set_up};
use session_words::{Settings, WordsFault, read_words};
use std::alloc::Global;

/// Runs the batches that the source gives, and writes an answer line for each operation and a line `done` for each batch. The words
/// say where the files are and how they are asked for. It answers the worst status of the batches, in the order 6, 3, 1, 0; or else
/// - 2: the words are refused;
/// - 4: the source failed;
/// - 5: the sink failed;
/// - 7: there was no memory outside an operation;
/// - 8: the mount is refused.
pub fn run<S: Source, L: Link, C: Clock, K: Sink>(
    alloc: Global,
    words: &[String],
    source: &mut S,
    link: &mut L,
    clock: &mut C,
    out: &mut K,
) -> u8
    ensures statuses { result ≤ 8 }

    // 2 comes only if the words aren't of their form, and if they aren't, only out of memory comes in its place.
    ensures words { result ≡ 2 → (s : SettingsOf) → IsCommand (map string_bytes words.now) s → ⊥ }
    ensures no_words { ((s : SettingsOf) → IsCommand (map string_bytes words.now) s → ⊥) → (result ≡ 2) ⊎ (result ≡ 7) }

    // 4 and 5 come only if the outside failed.
    ensures source { result ≡ 4 → Rose (S.faults source.old) (S.faults source.new) }
    ensures sink { result ≡ 5 → Rose (K.faults out.old) (K.faults out.new) }

    // What the link's own calls keep stays, and a link that is honest stays so: what it tells is lawful.
    ensures stays { (first : L) → L.stays first link.old → L.stays first link.new }
    ensures honest { L.honest link.old → L.honest link.new }

    // What was written is what the history says, and so are the readings that the clock gave.
    ensures shown { Says (K.written out.old) (K.written out.new) (λ text.
        Reads (C.readings clock.old) (C.readings clock.new) (λ given.
        Relates (L.told link.old) (L.told link.new) (λ before h. before ≡ [] →
        RunOf (BatchesBy Leaves) given (map string_bytes words.now) (S.left source.old) h result text))) }
{
    match read_words(alloc, words) {
        Ok(settings) => run_with(alloc, &settings, source, link, clock, out),
        Err(WordsFault::Refused) => status::WORDS_REFUSED,
        Err(WordsFault::Memory) => status::NO_MEMORY,
    }
}

/// Runs the batches that the source gives as `run` does, by settings that are known.
pub fn run_with<S: Source, L: Link, C: Clock, K: Sink>(
    alloc: Global,
    settings: &Settings,
    source: &mut S,
    link: &mut L,
    clock: &mut C,
    out: &mut K,
) -> u8
    requires options { IsOptions settings.now }
    requires most { settings.now.calls < 2 ^ 31 }
    requires xid { IsXidOption settings.now.xid }
    ensures statuses { result ≤ 8 }
    ensures taken { result ≢ 2 }
    ensures source { result ≡ 4 → Rose (S.faults source.old) (S.faults source.new) }
    ensures sink { result ≡ 5 → Rose (K.faults out.old) (K.faults out.new) }
    ensures stays { (first : L) → L.stays first link.old → L.stays first link.new }
    ensures honest { L.honest link.old → L.honest link.new }
    ensures shown { Says (K.written out.old) (K.written out.new) (λ text.
        Reads (C.readings clock.old) (C.readings clock.new) (λ given.
        Relates (L.told link.old) (L.told link.new) (λ before h. before ≡ [] →
        BatchesBy Leaves settings.now (S.left source.old) given h result text))) }
{
    match run_all(alloc, settings, source, link, clock, out) {
        Ok(status) => status,
        Err(stop) => stop.status(),
    }
}

/// Runs all batches. Those before the first line make no call.
fn run_all<S: Source, L: Link, C: Clock, K: Sink>(
    alloc: Global,
    settings: &Settings,
    source: &mut S,
    link: &mut L,
    clock: &mut C,
    out: &mut K,
) -> Result<u8, Stop>
    requires options { IsOptions settings.now }
    requires most { settings.now.calls < 2 ^ 31 }
    requires xid { IsXidOption settings.now.xid }
    ensures statuses { IfOk result IsEnding }
    ensures cause { CausedBy result (Rose (S.faults source.old) (S.faults source.new)) (Rose (K.faults out.old) (K.faults out.new)) }
    ensures sink { result ≡ Ok 5 → Rose (K.faults out.old) (K.faults out.new) }
    ensures stays { (first : L) → L.stays first link.old → L.stays first link.new }
    ensures honest { L.honest link.old → L.honest link.new }
    ensures shown { Says (K.written out.old) (K.written out.new) (λ text.
        Reads (C.readings clock.old) (C.readings clock.new) (λ given.
        Relates (L.told link.old) (L.told link.new) (λ before h. before ≡ [] →
        BatchesBy Leaves settings.now (S.left source.old) given h (ended_with result) text))) }
{
    let mut batches = Batches::new(alloc);
    let mut answered = Answered::none();
    match first_script(
        alloc,
        settings.count,
        &mut batches,
        &mut answered,
        source,
        out,
    ) {
        Ok(Some(script)) => open(
            alloc,
            settings,
            script,
            &mut batches,
            &mut answered,
            source,
            link,
            clock,
            out,
        ),
        Ok(None) => Ok(answered.status),
        Err(stop) => Err(stop),
    }
}

/// Sets a session up, and runs the first script that has a line, and what follows.
fn open<S: Source, L: Link, C: Clock, K: Sink>(
    alloc: Global,
    settings: &Settings,
    script: Script,
    batches: &mut Batches,
    answered: &mut Answered,
    source: &mut S,
    link: &mut L,
    clock: &mut C,
    out: &mut K,
) -> Result<u8, Stop>
    requires options { IsOptions settings.now }
    requires most { settings.now.calls < 2 ^ 31 }
    requires xid { IsXidOption settings.now.xid }
    requires run { MayRun script }
    requires some { script ≢ [] }
    requires worst { IsWorst answered.old.status }
    ensures statuses { IfOk result IsEnding }
    ensures cause { CausedBy result (Rose (S.faults source.old) (S.faults source.new)) (Rose (K.faults out.old) (K.faults out.new)) }
    ensures sink { result ≡ Ok 5 → Rose (K.faults out.old) (K.faults out.new) }
    ensures stays { (first : L) → L.stays first link.old → L.stays first link.new }
    ensures honest { L.honest link.old → L.honest link.new }
    ensures shown { Says (K.written out.old) (K.written out.new) (λ text.
        Reads (C.readings clock.old) (C.readings clock.new) (λ given.
        Relates (L.told link.old) (L.told link.new) (λ before h. before ≡ [] →
        IsRead script (left_in (S.left source.old) batches.old) (λ left. OpensWith Leaves settings.now answered.old left given h result text)))) }
{
    let first = first_xid(settings.xid, clock);
    match set_up(alloc, settings, first, link) {
        Ok(ready) => open_ready(
            alloc, settings, script, ready, batches, answered, source, link, clock, out,
        ),
        Err(SetUpFault::Lost(tally)) => lose_scripts(
            alloc,
            settings.count,
            script,
            tally,
            batches,
            answered,
            source,
            link,
            clock,
            out,
        ),
        Err(SetUpFault::Refused(fault)) => Ok(refuse_mount(alloc, fault, out)),
        Err(SetUpFault::Memory) => Err(Stop::Memory),
    }
}

/// Runs the first script that has a line, and what follows, in a session that is set up.
fn open_ready<S: Source, L: Link, C: Clock, K: Sink>(
    alloc: Global,
    settings: &Settings,
    script: Script,
    ready: SetUp,
    batches: &mut Batches,
    answered: &mut Answered,
    source: &mut S,
    link: &mut L,
    clock: &mut C,
    out: &mut K,
) -> Result<u8, Stop>
    requires may { MaySetUp (setup_of settings.now ready) }
    requires run { MayRun script }
    requires worst { IsWorst answered.old.status }
    ensures statuses { IfOk result IsWorst }
    ensures cause { CausedBy result (Rose (S.faults source.old) (S.faults source.new)) (Rose (K.faults out.old) (K.faults out.new)) }
    ensures dials { DialsOnly settings.now.nfs_port (L.told link.old) (L.told link.new) }
    ensures stays { (first : L) → L.stays first link.old → L.stays first link.new }
    ensures honest { L.honest link.old → L.honest link.new }
    ensures runs { Passes (C.readings clock.old) (C.readings clock.new) (L.told link.old) (L.told link.new) (K.written out.old) (K.written out.new)
        (λ given text h k. IsOpened (Some (setup_of settings.now ready)) h → ready.tally ≡ tally_of h
        → IsRead script (left_in (S.left source.old) batches.old)
        (λ left. RunsOver settings.now (setup_of settings.now ready) answered.old left result given text h k)) }
{
    let Ok(pages) = PageCache::new(alloc) else {
        return Err(Stop::Memory);
    };
    let setup = Setup {
        root: ready.root,
        rsize: ready.rsize,
        wsize: ready.wsize,
        first_xid: ready.next_xid,
        limit: ready.left,
        cred: settings.cred,
        lives: settings.lives,
        pages,
    };
    run_scripts(
        alloc,
        settings,
        script,
        setup,
        ready.tally,
        batches,
        answered,
        source,
        link,
        clock,
        out,
    )
}
