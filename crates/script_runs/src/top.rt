//! The top call.

ghost use Rattle.std.specs.Prelude.{◌≡◌, ◌≢◌, ◌≤◌, ◌<◌, ◌^◌, ◌⊎◌, [], map, take, IfOk, IfSome};
ghost use Rattle.std.specs.String.{string_bytes};
ghost use Rattle.world_model.specs.Entries.{ours};
ghost use Rattle.world_model.specs.Told.{Relates};
ghost use Rattle.outside.specs.Causes.{Rose};
ghost use Rattle.nfs_script.specs.RefusalText.{refusal_text};
ghost use Rattle.session_words.specs.declared.settings.Settings.{Settings as SettingsOf};
ghost use Rattle.session_words.specs.Words.{IsCommand};
ghost use Rattle.session_setup.specs.Outcomes.{IsOptions};
ghost use Rattle.script_runs.specs.Streams.{script_limit};
ghost use Rattle.script_runs.specs.Readings.{Reads};
ghost use Rattle.script_runs.specs.LaneRuns.{RunLeaves, LeavesFrom, LeavesWith};
ghost use Rattle.script_runs.specs.Stock.{HandsBack};
ghost use Rattle.script_runs.specs.Run.{IsXidOption, IsCutOff, IsScript, Refuses, RefusesWith, RefusalIs, Says};

use crate::input::{ReadFault, read_script};
use crate::lanes::run_lanes;
use crate::output::write_all;
use crate::status;
use crate::stock::Stock;
use nfs_script::{ParseFault, ScriptFault, parse, refusal_line};
use outside::{Clock, Link, LinkFault, Sink, Source};
use session_words::{Settings, WordsFault, read_words};
use std::alloc::Global;
use xdr_codec::{Blob, Memory, Writer};

/// Runs the script that the source gives, and writes an answer line for each operation. The words say where the files are and how they are asked for. It
/// answers the status of the session:
/// - 0: each operation succeeded;
/// - 1: one was refused;
/// - 2: the words are refused;
/// - 3: the script is refused;
/// - 4: the source failed;
/// - 5: the sink failed;
/// - 6: the link is lost;
/// - 7: there was no memory outside an operation;
/// - 8: the mount is refused.
pub fn run<S: Source, L: Link, C: Clock, K: Sink>(
    alloc: Global,
    words: &[String],
    script: &mut S,
    link: &mut L,
    clock: &mut C,
    out: &mut K,
) -> u8
    ensures statuses { result ≤ 8 }

    // 2 comes only if the words aren't of their form, and if they aren't, only out of memory comes in its place.
    ensures words { result ≡ 2 → (s : SettingsOf) → IsCommand (map string_bytes words.now) s → ⊥ }
    ensures no_words { ((s : SettingsOf) → IsCommand (map string_bytes words.now) s → ⊥) → (result ≡ 2) ⊎ (result ≡ 7) }

    // 3 comes only if the script's bytes spell none, and if they don't, no operation is answered.
    ensures script { IfSome (S.left script.old) (λ left. result ≡ 3 → IsScript (take script_limit left) → ⊥) }
    ensures unspelled { IfSome (S.left script.old) (λ left. (IsScript (take script_limit left) → ⊥) → Refuses result) }

    // At 2 and 4 nothing is written, and at 3 the line that says why the script is refused.
    ensures unread { (result ≡ 2) ⊎ (result ≡ 4) → Says (K.written out.old) (K.written out.new) (λ text. text ≡ []) }
    ensures refused { result ≡ 3 → Says (K.written out.old) (K.written out.new) (RefusalIs (S.left script.old)) }

    // 4 and 5 come only if the outside failed.
    ensures source { result ≡ 4 → Rose (S.faults script.old) (S.faults script.new) }
    ensures sink { result ≡ 5 → Rose (K.faults out.old) (K.faults out.new) }

    // What the link's own calls keep stays, and a link that is honest stays so: what it tells is lawful.
    ensures stays { (first : L) → L.stays first link.old → L.stays first link.new }
    ensures honest { L.honest link.old → L.honest link.new }

    // What was written is what the history says, and so are the readings that the clock gave.
    ensures shown { Says (K.written out.old) (K.written out.new) (λ text.
        Reads (C.readings clock.old) (C.readings clock.new) (λ given.
        Relates (L.told link.old) (L.told link.new) (λ before h. before ≡ [] →
        RunLeaves given (map string_bytes words.now) (S.left script.old) h result text))) }
{
    match read_words(alloc, words) {
        Ok(settings) => run_with(alloc, &settings, script, link, clock, out),
        Err(WordsFault::Refused) => status::WORDS_REFUSED,
        Err(WordsFault::Memory) => status::NO_MEMORY,
    }
}

/// Runs the script that the source gives as `run` does, by settings that are known.
pub fn run_with<S: Source, L: Link, C: Clock, K: Sink>(
    alloc: Global,
    settings: &Settings,
    script: &mut S,
    link: &mut L,
    clock: &mut C,
    out: &mut K,
) -> u8
    requires options { IsOptions settings.now }
    requires most { settings.now.calls < 2 ^ 31 }
    requires xid { IsXidOption settings.now.xid }
    ensures statuses { result ≤ 8 }
    ensures taken { result ≢ 2 }
    ensures script { IfSome (S.left script.old) (λ left. result ≡ 3 → IsScript (take script_limit left) → ⊥) }
    ensures unspelled { IfSome (S.left script.old) (λ left. (IsScript (take script_limit left) → ⊥) → Refuses result) }
    ensures unread { result ≡ 4 → Says (K.written out.old) (K.written out.new) (λ text. text ≡ []) }
    ensures refused { result ≡ 3 → Says (K.written out.old) (K.written out.new) (RefusalIs (S.left script.old)) }
    ensures source { result ≡ 4 → Rose (S.faults script.old) (S.faults script.new) }
    ensures sink { result ≡ 5 → Rose (K.faults out.old) (K.faults out.new) }
    ensures stays { (first : L) → L.stays first link.old → L.stays first link.new }
    ensures honest { L.honest link.old → L.honest link.new }
    ensures shown { Says (K.written out.old) (K.written out.new) (λ text.
        Reads (C.readings clock.old) (C.readings clock.new) (λ given.
        Relates (L.told link.old) (L.told link.new) (λ before h. before ≡ [] →
        LeavesWith given settings.now (S.left script.old) h result text))) }
{
    let Ok(stock) = Stock::empty(alloc) else {
        return status::NO_MEMORY;
    };
    let (status, _) = run_stocked(alloc, settings, stock, script, link, clock, out);
    status
}

/// Runs the script that the source gives as `run_with` does. The session begins with the pages of the stock, if they are of its root; then, if each line had
/// its answer, the pages that are kept at the end come with the status.
pub fn run_stocked<S: Source, L: Link, C: Clock, K: Sink>(
    alloc: Global,
    settings: &Settings,
    stock: Stock,
    script: &mut S,
    link: &mut L,
    clock: &mut C,
    out: &mut K,
) -> (u8, Option<Stock>)
    requires options { IsOptions settings.now }
    requires most { settings.now.calls < 2 ^ 31 }
    requires xid { IsXidOption settings.now.xid }
    ensures statuses { result.0 ≤ 8 }
    ensures taken { result.0 ≢ 2 }
    ensures script { IfSome (S.left script.old) (λ left. result.0 ≡ 3 → IsScript (take script_limit left) → ⊥) }
    ensures unspelled { IfSome (S.left script.old) (λ left. (IsScript (take script_limit left) → ⊥) → Refuses result.0) }
    ensures unread { result.0 ≡ 4 → Says (K.written out.old) (K.written out.new) (λ text. text ≡ []) }
    ensures refused { result.0 ≡ 3 → Says (K.written out.old) (K.written out.new) (RefusalIs (S.left script.old)) }
    ensures source { result.0 ≡ 4 → Rose (S.faults script.old) (S.faults script.new) }
    ensures sink { result.0 ≡ 5 → Rose (K.faults out.old) (K.faults out.new) }
    ensures stays { (first : L) → L.stays first link.old → L.stays first link.new }
    ensures honest { L.honest link.old → L.honest link.new }
    ensures pages { Relates (L.told link.old) (L.told link.new) (λ before h. ours before ≡ [] → IfSome result.1 (λ back. HandsBack stock settings.now back h)) }
    ensures shown { Says (K.written out.old) (K.written out.new) (λ text.
        Reads (C.readings clock.old) (C.readings clock.new) (λ given.
        Relates (L.told link.old) (L.told link.new) (λ before h. ours before ≡ [] →
        LeavesFrom stock given settings.now (S.left script.old) before h result.0 text))) }
{
    let text = match read_script(alloc, script) {
        Ok(text) => text,
        Err(ReadFault::Failed) => {
            // Dropped by a call, since the prover takes a drop in place apart, field by field.
            drop(stock);
            return (status::READ_FAULT, None);
        }
        Err(ReadFault::Memory) => {
            drop(stock);
            return (status::NO_MEMORY, None);
        }
    };
    match parse(alloc, text.as_slice()) {
        Ok(script) => run_lanes(alloc, settings, stock, &script, link, clock, out),
        Err(ParseFault::Script(fault)) => {
            drop(stock);
            (refuse(alloc, &fault, out), None)
        }
        Err(ParseFault::Memory) => {
            drop(stock);
            (status::NO_MEMORY, None)
        }
    }
}

/// Writes why the script is refused.
fn refuse<K: Sink>(alloc: Global, fault: &ScriptFault, out: &mut K) -> u8
    ensures status { (result ≡ 3) ⊎ IsCutOff result }
    ensures sink { result ≡ 5 → Rose (K.faults out.old) (K.faults out.new) }
    ensures said { Says (K.written out.old) (K.written out.new) (RefusesWith fault.now result) }
{
    let Ok(text) = refusal(alloc, fault) else {
        return status::NO_MEMORY;
    };
    match write_all(out, text.bytes()) {
        Ok(()) => status::SCRIPT_REFUSED,
        Err(LinkFault::Failed) => status::WRITE_FAULT,
        Err(LinkFault::Memory) => status::NO_MEMORY,
    }
}

/// The line that refuses a script.
fn refusal(alloc: Global, fault: &ScriptFault) -> Result<Blob, Memory>
    ensures { IfOk result (λ text. text ≡ refusal_text fault.now) }
{
    let mut text = Writer::new(alloc);
    refusal_line(&mut text, fault)?;
    Ok(text.finish())
}
