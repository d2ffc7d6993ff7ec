//! The top call, and what it promises.

ghost use Rattle.std.specs.Prelude.{◌≡◌, ◌≢◌, ◌≤◌, ◌<◌, ◌^◌, ◌⊎◌, [], map};
ghost use Rattle.std.specs.String.{string_bytes};
ghost use Rattle.world_model.specs.Told.{Relates};
ghost use Rattle.outside.specs.Causes.{Rose};
ghost use Rattle.session_words.specs.declared.settings.Settings.{Settings as SettingsOf};
ghost use Rattle.session_words.specs.Words.{IsCommand};
ghost use Rattle.session_setup.specs.Outcomes.{IsOptions};
ghost use Rattle.script_runs.specs.Readings.{Reads};
ghost use Rattle.script_runs.specs.Run.{IsXidOption, Says};
ghost use Rattle.batch_runs.specs.Runs.{RunOf};
ghost use Rattle.run_batches.specs.Headline.{Headline};

use outside::{Clock, Link, Sink, Source};
use session_words::Settings;
use std::alloc::Global;

/// Runs the batches that the source gives, and writes an answer line for each operation and a line `done` for each batch. The words
/// say where the files are and how they are asked for. It answers the worst status of the batches, in the order 6, 3, 1, 0; or else
/// - 2: the words are refused;
/// - 4: the source failed;
/// - 5: the sink failed;
/// - 7: there was no memory outside an operation;
/// - 8: the mount is refused.
pub fn run<S: Source, L: Link, C: Clock, K: Sink>(
    alloc: Global,
    words: &[String],
    source: &mut S,
    link: &mut L,
    clock: &mut C,
    out: &mut K,
) -> u8
    ensures statuses { result ≤ 8 }

    // 2 comes only if the words aren't of their form, and if they aren't, only out of memory comes in its place.
    ensures words { result ≡ 2 → (s : SettingsOf) → IsCommand (map string_bytes words.now) s → ⊥ }
    ensures no_words { ((s : SettingsOf) → IsCommand (map string_bytes words.now) s → ⊥) → (result ≡ 2) ⊎ (result ≡ 7) }

    // 4 and 5 come only if the outside failed.
    ensures source { result ≡ 4 → Rose (S.faults source.old) (S.faults source.new) }
    ensures sink { result ≡ 5 → Rose (K.faults out.old) (K.faults out.new) }

    // What the link's own calls keep stays, and a link that is honest stays so: what it tells is lawful.
    ensures stays { (first : L) → L.stays first link.old → L.stays first link.new }
    ensures honest { L.honest link.old → L.honest link.new }

    // What the session of all batches promises, in the words of the model alone: `Headline` of specs/Headline.
    ensures headline { Says (K.written out.old) (K.written out.new) (λ text.
        Reads (C.readings clock.old) (C.readings clock.new) (λ given.
        Relates (L.told link.old) (L.told link.new) (λ before h. before ≡ [] →
        RunOf Headline given (map string_bytes words.now) (S.left source.old) h result text))) }
{
    batch_runs::run(alloc, words, source, link, clock, out)
}

/// Runs the batches that the source gives as `run` does, by settings that are known.
pub fn run_with<S: Source, L: Link, C: Clock, K: Sink>(
    alloc: Global,
    settings: &Settings,
    source: &mut S,
    link: &mut L,
    clock: &mut C,
    out: &mut K,
) -> u8
    requires options { IsOptions settings.now }
    requires most { settings.now.calls < 2 ^ 31 }
    requires xid { IsXidOption settings.now.xid }
    ensures statuses { result ≤ 8 }
    ensures taken { result ≢ 2 }
    ensures source { result ≡ 4 → Rose (S.faults source.old) (S.faults source.new) }
    ensures sink { result ≡ 5 → Rose (K.faults out.old) (K.faults out.new) }
    ensures stays { (first : L) → L.stays first link.old → L.stays first link.new }
    ensures honest { L.honest link.old → L.honest link.new }
    ensures headline { Says (K.written out.old) (K.written out.new) (λ text.
        Reads (C.readings clock.old) (C.readings clock.new) (λ given.
        Relates (L.told link.old) (L.told link.new) (λ before h. before ≡ [] →
        Headline settings.now (S.left source.old) given h result text))) }
{
    batch_runs::run_with(alloc, settings, source, link, clock, out)
}
