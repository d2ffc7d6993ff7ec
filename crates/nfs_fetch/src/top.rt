//! The top call, and what it promises.

ghost use Rattle.std.specs.Prelude.{◌≡◌, ◌≤◌, ◌<◌, ◌^◌, ◌⊎◌, [], Some, map};
ghost use Rattle.std.specs.String.{string_bytes};
ghost use Rattle.world_model.specs.Told.{Relates};
ghost use Rattle.session_words.specs.declared.settings.Settings.{Settings as SettingsOf};
ghost use Rattle.session_words.specs.Words.{IsCommand};
ghost use Rattle.session_setup.specs.Outcomes.{IsOptions};
ghost use Rattle.script_runs.specs.Run.{IsXidOption};
ghost use Rattle.run_asked.specs.Ends.{Ends, EndsBy};
ghost use Rattle.nfs_fetch.specs.Fetched.{AllFetched, IfTold};

use crate::fetching::Fetching;
use copy_scripts::{Progress, Teller};
use copy_targets::Target;
use fetch_scripts::{Download, Skips};
use outside::{Clock, Link, Sink};
use run_asked::run_with;
use session_words::{Settings, WordsFault, read_words};
use std::alloc::Global;
use world_model::Path;

/// The words are refused.
const WORDS_REFUSED: u8 = 2;
/// Memory ran out outside an operation.
const NO_MEMORY: u8 = 7;

/// Copies what stands at a path of a server to a target, or compares the two. Folders go before what they hold, and links are the last. Modes, owners and times
/// aren't copied. What wasn't copied is told, in a line for each object, and the rest goes on. The words are those of a session. The watch is read for
/// progress.
///
/// It gives the target back. It answers 0 if all was copied; 1 if something wasn't; 2 if the words are refused; 6 if the session is lost; 7 for lack of memory
/// outside an operation; and 8 if the mount is refused.
pub fn run<T: Target + Drop, L: Link, C: Clock, K: Sink, W: Clock>(
    alloc: Global,
    words: &[String],
    from: Path,
    skips: Skips,
    target: T,
    progress: Progress,
    link: &mut L,
    clock: &mut C,
    out: &mut K,
    watch: &mut W,
) -> (u8, T)
    ensures statuses { result.0 ≤ 8 }

    // 2 comes only if the words aren't of their form. If they aren't, only want of memory comes in its place.
    ensures words { result.0 ≡ 2 → (s : SettingsOf) → IsCommand (map string_bytes words.now) s → ⊥ }
    ensures no_words { ((s : SettingsOf) → IsCommand (map string_bytes words.now) s → ⊥) → (result.0 ≡ 2) ⊎ (result.0 ≡ 7) }

    // None of 3 to 5 comes.
    ensures apart { 3 ≤ result.0 → 6 ≤ result.0 }

    ensures stays { (first : L) → L.stays first link.old → L.stays first link.new }
    ensures honest { L.honest link.old → L.honest link.new }

    // Why it ends with its status: `EndsBy` of run_asked/specs/Ends. 6 and 8 come only if the session is lost, and the mount refused.
    ensures ends { Relates (L.told link.old) (L.told link.new) (λ before h. before ≡ [] → EndsBy (map string_bytes words.now) h result.0) }

    // At 0 and 1 each file that the target took whole was read from the server from its beginning to its end: `Fetched` of specs/Fetched.
    ensures fetched { result.0 ≤ 1 → T.took target ≡ Some [] → IfTold (T.took result.1) (λ took.
        Relates (L.told link.old) (L.told link.new) (λ before h. before ≡ [] → AllFetched from took h)) }
{
    match read_words(alloc, words) {
        Ok(settings) => fetch(
            alloc, &settings, from, skips, target, progress, link, clock, out, watch,
        ),
        Err(WordsFault::Refused) => (WORDS_REFUSED, target),
        Err(WordsFault::Memory) => (NO_MEMORY, target),
    }
}

/// Copies as `run` does, by settings that are known.
pub fn fetch<T: Target + Drop, L: Link, C: Clock, K: Sink, W: Clock>(
    alloc: Global,
    settings: &Settings,
    from: Path,
    skips: Skips,
    target: T,
    progress: Progress,
    link: &mut L,
    clock: &mut C,
    out: &mut K,
    watch: &mut W,
) -> (u8, T)
    requires options { IsOptions settings.now }
    requires most { settings.now.calls < 2 ^ 31 }
    requires xid { IsXidOption settings.now.xid }
    ensures statuses { result.0 ≤ 8 }

    // The words were taken: none of 2 to 5 comes.
    ensures taken { 2 ≤ result.0 → 6 ≤ result.0 }
    ensures stays { (first : L) → L.stays first link.old → L.stays first link.new }
    ensures honest { L.honest link.old → L.honest link.new }

    // Why it ends with its status: `Ends` of run_asked/specs/Ends.
    ensures ends { Relates (L.told link.old) (L.told link.new) (λ before h. before ≡ [] → Ends settings.now h result.0) }

    // At 0 and 1 each file that the target took whole was read from the server from its beginning to its end: `Fetched` of specs/Fetched.
    ensures fetched { result.0 ≤ 1 → T.took target ≡ Some [] → IfTold (T.took result.1) (λ took.
        Relates (L.told link.old) (L.told link.new) (λ before h. before ≡ [] → AllFetched from took h)) }
{
    let Ok(download) = Download::new(alloc, from, skips) else {
        return (NO_MEMORY, target);
    };
    let mut fetching = Fetching {
        download,
        target,
        teller: Teller::new(alloc, out, watch, progress),
    };
    let status = run_with(alloc, settings, &mut fetching, link, clock);
    let mut target = fetching.into_target();
    target.leave();
    (status, target)
}
