//! The top call, and what it promises.

ghost use Rattle.std.specs.Prelude.{◌≡◌, ◌≤◌, ◌<◌, ◌^◌, ◌⊎◌, [], Some, map};
ghost use Rattle.std.specs.String.{string_bytes};
ghost use Rattle.world_model.specs.Told.{Relates};
ghost use Rattle.session_words.specs.declared.settings.Settings.{Settings as SettingsOf};
ghost use Rattle.session_words.specs.Words.{IsCommand};
ghost use Rattle.session_setup.specs.Outcomes.{IsOptions};
ghost use Rattle.script_runs.specs.Run.{IsXidOption};
ghost use Rattle.run_asked.specs.Ends.{Ends, EndsBy};
ghost use Rattle.nfs_copy.specs.Promises.{Copies, CopiesBy, IfTold, Missed};

use crate::copying::Copying;
use copy_scripts::{Progress, Teller, Upload};
use file_trees::Tree;
use outside::{Clock, Link, Sink};
use run_asked::run_with;
use session_words::{Settings, WordsFault, read_words};
use std::alloc::Global;
use world_model::Path;

/// The words are refused.
const WORDS_REFUSED: u8 = 2;
/// Memory ran out outside an operation.
const NO_MEMORY: u8 = 7;

/// Copies a tree to a path of a server: folders are made if they aren't there, files are written over, and nothing is removed. Modes, owners and times aren't
/// copied. What isn't copied is told, in a line for each object, and the rest goes on. The words are those of a session; the watch is read for progress.
///
/// It gives the tree back. It answers 0 if all was copied; 1 if something wasn't; 2 if the words are refused; 6 if the session is lost; 7 for lack of memory
/// outside an operation; and 8 if the mount is refused.
pub fn run<T: Tree + Drop, L: Link, C: Clock, K: Sink, W: Clock>(
    alloc: Global,
    words: &[String],
    tree: T,
    to: Path,
    progress: Progress,
    link: &mut L,
    clock: &mut C,
    out: &mut K,
    watch: &mut W,
) -> (u8, T)
    ensures statuses { result.0 ≤ 8 }

    // 2 comes only if the words aren't of their form. If they aren't, only want of memory comes in its place.
    ensures words { result.0 ≡ 2 → (s : SettingsOf) → IsCommand (map string_bytes words.now) s → ⊥ }
    ensures no_words { ((s : SettingsOf) → IsCommand (map string_bytes words.now) s → ⊥) → (result.0 ≡ 2) ⊎ (result.0 ≡ 7) }

    // None of 3 to 5 comes.
    ensures apart { 3 ≤ result.0 → 6 ≤ result.0 }

    ensures stays { (first : L) → L.stays first link.old → L.stays first link.new }
    ensures honest { L.honest link.old → L.honest link.new }

    // Why it ends with its status: `EndsBy` of run_asked/specs/Ends. 6 and 8 come only if the session is lost, and the mount refused.
    ensures ends { Relates (L.told link.old) (L.told link.new) (λ before h. before ≡ [] → EndsBy (map string_bytes words.now) h result.0) }

    // 1 comes only if something of the tree can't be copied, or an operation was refused: `Missed` of specs/Promises.
    ensures missed { result.0 ≡ 1 → T.given tree ≡ Some [] → IfTold (T.given result.1) (λ given.
        Relates (L.told link.old) (L.told link.new) (λ before h. before ≡ [] → Missed to given h)) }

    // At 0 the tree is at its end, and all that it gave was copied: `Copies` of specs/Promises.
    ensures copied { result.0 ≡ 0 → T.given tree ≡ Some [] → IfTold (T.given result.1) (λ given.
        Relates (L.told link.old) (L.told link.new) (λ before h. before ≡ [] →
        T.over result.1 × CopiesBy (map string_bytes words.now) to given h)) }
{
    match read_words(alloc, words) {
        Ok(settings) => copy(
            alloc, &settings, tree, to, progress, link, clock, out, watch,
        ),
        Err(WordsFault::Refused) => (WORDS_REFUSED, tree),
        Err(WordsFault::Memory) => (NO_MEMORY, tree),
    }
}

/// Copies as `run` does, by settings that are known.
pub fn copy<T: Tree + Drop, L: Link, C: Clock, K: Sink, W: Clock>(
    alloc: Global,
    settings: &Settings,
    tree: T,
    to: Path,
    progress: Progress,
    link: &mut L,
    clock: &mut C,
    out: &mut K,
    watch: &mut W,
) -> (u8, T)
    requires options { IsOptions settings.now }
    requires most { settings.now.calls < 2 ^ 31 }
    requires xid { IsXidOption settings.now.xid }
    ensures statuses { result.0 ≤ 8 }

    // None of 2 to 5 comes.
    ensures taken { 2 ≤ result.0 → 6 ≤ result.0 }
    ensures stays { (first : L) → L.stays first link.old → L.stays first link.new }
    ensures honest { L.honest link.old → L.honest link.new }

    // Why it ends with its status: `Ends` of run_asked/specs/Ends.
    ensures ends { Relates (L.told link.old) (L.told link.new) (λ before h. before ≡ [] → Ends settings.now h result.0) }

    // 1 comes only if something of the tree can't be copied, or an operation was refused: `Missed` of specs/Promises.
    ensures missed { result.0 ≡ 1 → T.given tree ≡ Some [] → IfTold (T.given result.1) (λ given.
        Relates (L.told link.old) (L.told link.new) (λ before h. before ≡ [] → Missed to given h)) }

    // At 0 the tree is at its end, and all that it gave was copied: `Copies` of specs/Promises.
    ensures copied { result.0 ≡ 0 → T.given tree ≡ Some [] → IfTold (T.given result.1) (λ given.
        Relates (L.told link.old) (L.told link.new) (λ before h. before ≡ [] → T.over result.1 × Copies settings.now to given h)) }
{
    let mut copying = Copying {
        upload: Upload::new(alloc, to),
        tree,
        teller: Teller::new(alloc, out, watch, progress),
    };
    let status = run_with(alloc, settings, &mut copying, link, clock);
    (status, copying.into_tree())
}
