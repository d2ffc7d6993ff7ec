//! The top call, and what it promises.

ghost use Rattle.std.specs.Prelude.{◌≡◌, ◌≤◌, ◌<◌, ◌⊎◌, ℕ, [], map, take, length, IfSome};
ghost use Rattle.std.specs.String.{string_bytes};
ghost use Rattle.world_model.specs.Fresh.{Fresh};
ghost use Rattle.world_model.specs.History.{History};
ghost use Rattle.world_model.specs.Lawful.{Lawful};
ghost use Rattle.world_model.specs.Told.{Relates};
ghost use Rattle.outside.specs.Causes.{Rose};
ghost use Rattle.anew_link.specs.Anew.{since};
ghost use Rattle.page_store.specs.Disk.{LeavesOnly};
ghost use Rattle.page_store.specs.Slots.{IsSound};
ghost use Rattle.page_store.specs.Store.{Stands};
ghost use Rattle.session_words.specs.declared.settings.Settings.{Settings as SettingsOf};
ghost use Rattle.session_words.specs.Words.{IsCommand};
ghost use Rattle.script_runs.specs.Streams.{script_limit};
ghost use Rattle.script_runs.specs.Readings.{Reads};
ghost use Rattle.script_runs.specs.Run.{IsScript, Refuses, RefusalIs, Says};
ghost use Rattle.kept_runs.specs.KeptRuns.{KeptWords};
ghost use Rattle.kept_runs.specs.Stored.{BeganTrue, Stored};

use crate::anew::run_anew;
use crate::keeping::{keep_all, stock_of};
use outside::{Clock, Link, Sink, Source};
use page_store::{Disk, PageStore};
use session_words::{WordsFault, read_words};
use std::alloc::Global;

/// The words are refused.
const WORDS_REFUSED: u8 = 2;
/// Memory ran out outside an operation.
const NO_MEMORY: u8 = 7;
/// A label without words.
const NO_WORDS: &[u8] = b"";

/// Runs the script that the source gives as `nfs_client::run` does, with its statuses. The session begins with the pages of the store, if the store's label
/// names its root or there is no label. If each line had its answer, the pages that are kept at the end are stored. A store without a label then gets one,
/// which names the root. The first fault of the store ends its use, and changes no answer and no status.
pub fn run_kept<S: Source, L: Link, C: Clock, K: Sink, D: Disk + Drop>(
    alloc: Global,
    words: &[String],
    script: &mut S,
    link: &mut L,
    clock: &mut C,
    out: &mut K,
    store: &mut PageStore<D>,
) -> u8
    ensures statuses { result ≤ 8 }
    ensures words { result ≡ 2 → (s : SettingsOf) → IsCommand (map string_bytes words.now) s → ⊥ }
    ensures no_words { ((s : SettingsOf) → IsCommand (map string_bytes words.now) s → ⊥) → (result ≡ 2) ⊎ (result ≡ 7) }
    ensures script { IfSome (S.left script.old) (λ left. result ≡ 3 → IsScript (take script_limit left) → ⊥) }
    ensures unspelled { IfSome (S.left script.old) (λ left. (IsScript (take script_limit left) → ⊥) → Refuses result) }
    ensures unread { (result ≡ 2) ⊎ (result ≡ 4) → Says (K.written out.old) (K.written out.new) (λ text. text ≡ []) }
    ensures refused { result ≡ 3 → Says (K.written out.old) (K.written out.new) (RefusalIs (S.left script.old)) }
    ensures source { result ≡ 4 → Rose (S.faults script.old) (S.faults script.new) }
    ensures sink { result ≡ 5 → Rose (K.faults out.old) (K.faults out.new) }
    ensures stays { (first : L) → L.stays first link.old → L.stays first link.new }
    ensures honest { L.honest link.old → L.honest link.new }

    // What a session promises, but that kept pages aren't asked for again. What it promises of an honest server asks for true pages in the store.
    ensures headline { Says (K.written out.old) (K.written out.new) (λ text.
        Reads (C.readings clock.old) (C.readings clock.new) (λ given.
        Relates (L.told link.old) (L.told link.new) (λ before h.
        KeptWords (BeganTrue D.tells D.may_leave store.old.pages store.old.disk)
        given (map string_bytes words.now) (S.left script.old) (since before before) (since before h) result text))) }

    // If the pages were true and the server is honest, a crash at any moment of the call leaves true pages.
    ensures any_moment { D.tells store.old.disk → (n : ℕ) → length store.old.pages < n → IsSound n (D.may_leave store.old.disk) →
        Relates (L.told link.old) (L.told link.new) (λ before h. (t : History) → t.entries ≡ since before h → Lawful t → Fresh t
        → BeganTrue D.tells D.may_leave store.old.pages store.old.disk t
        → LeavesOnly D.moment D.left_since store.old.disk store.new.disk (Stored (length store.old.pages) t (length t.entries))) }

    // The next session can begin with the store.
    ensures safe { D.tells store.old.disk → (n : ℕ) → length store.old.pages < n → IsSound n (D.may_leave store.old.disk) → IsSound n (D.may_leave store.new.disk) }
    ensures stands { D.tells store.old.disk → (n : ℕ) → length store.old.pages < n → IsSound n (D.may_leave store.old.disk)
        → Stands (D.may_leave store.old.disk) store.old.pages → Stands (D.may_leave store.new.disk) store.new.pages }
    ensures goes_on { D.tells store.old.disk → D.tells store.new.disk }
    ensures count { length store.new.pages ≡ length store.old.pages }
{
    run_labelled(alloc, words, NO_WORDS, script, link, clock, out, store)
}

/// The same, if a store without a label gets one with these words, of at most 4,096 bytes.
pub fn run_labelled<S: Source, L: Link, C: Clock, K: Sink, D: Disk + Drop>(
    alloc: Global,
    words: &[String],
    label: &[u8],
    script: &mut S,
    link: &mut L,
    clock: &mut C,
    out: &mut K,
    store: &mut PageStore<D>,
) -> u8
    requires { length label.now ≤ 4096 }
    ensures statuses { result ≤ 8 }
    ensures words { result ≡ 2 → (s : SettingsOf) → IsCommand (map string_bytes words.now) s → ⊥ }
    ensures no_words { ((s : SettingsOf) → IsCommand (map string_bytes words.now) s → ⊥) → (result ≡ 2) ⊎ (result ≡ 7) }
    ensures script { IfSome (S.left script.old) (λ left. result ≡ 3 → IsScript (take script_limit left) → ⊥) }
    ensures unspelled { IfSome (S.left script.old) (λ left. (IsScript (take script_limit left) → ⊥) → Refuses result) }
    ensures unread { (result ≡ 2) ⊎ (result ≡ 4) → Says (K.written out.old) (K.written out.new) (λ text. text ≡ []) }
    ensures refused { result ≡ 3 → Says (K.written out.old) (K.written out.new) (RefusalIs (S.left script.old)) }
    ensures source { result ≡ 4 → Rose (S.faults script.old) (S.faults script.new) }
    ensures sink { result ≡ 5 → Rose (K.faults out.old) (K.faults out.new) }
    ensures stays { (first : L) → L.stays first link.old → L.stays first link.new }
    ensures honest { L.honest link.old → L.honest link.new }
    ensures headline { Says (K.written out.old) (K.written out.new) (λ text.
        Reads (C.readings clock.old) (C.readings clock.new) (λ given.
        Relates (L.told link.old) (L.told link.new) (λ before h.
        KeptWords (BeganTrue D.tells D.may_leave store.old.pages store.old.disk)
        given (map string_bytes words.now) (S.left script.old) (since before before) (since before h) result text))) }
    ensures any_moment { D.tells store.old.disk → (n : ℕ) → length store.old.pages < n → IsSound n (D.may_leave store.old.disk) →
        Relates (L.told link.old) (L.told link.new) (λ before h. (t : History) → t.entries ≡ since before h → Lawful t → Fresh t
        → BeganTrue D.tells D.may_leave store.old.pages store.old.disk t
        → LeavesOnly D.moment D.left_since store.old.disk store.new.disk (Stored (length store.old.pages) t (length t.entries))) }
    ensures safe { D.tells store.old.disk → (n : ℕ) → length store.old.pages < n → IsSound n (D.may_leave store.old.disk) → IsSound n (D.may_leave store.new.disk) }
    ensures stands { D.tells store.old.disk → (n : ℕ) → length store.old.pages < n → IsSound n (D.may_leave store.old.disk)
        → Stands (D.may_leave store.old.disk) store.old.pages → Stands (D.may_leave store.new.disk) store.new.pages }
    ensures goes_on { D.tells store.old.disk → D.tells store.new.disk }
    ensures count { length store.new.pages ≡ length store.old.pages }
{
    let settings = match read_words(alloc, words) {
        Ok(settings) => settings,
        Err(WordsFault::Refused) => return WORDS_REFUSED,
        Err(WordsFault::Memory) => return NO_MEMORY,
    };
    let Ok(stock) = stock_of(alloc, store) else {
        return NO_MEMORY;
    };
    stock.pages.is_sound();
    let (status, back) = run_anew(alloc, &settings, stock, script, link, clock, out);
    keep_all(alloc, back, label, store);
    status
}
