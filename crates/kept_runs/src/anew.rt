//! A session over a link that others may have used before.

ghost use Rattle.std.specs.Prelude.{◌≡◌, ◌≢◌, ◌≤◌, ◌<◌, ◌^◌, [], take, IfSome};
ghost use Rattle.world_model.specs.Told.{Relates};
ghost use Rattle.outside.specs.Causes.{Rose};
ghost use Rattle.anew_link.specs.Anew.{since};
ghost use Rattle.session_setup.specs.Outcomes.{IsOptions};
ghost use Rattle.core_answers.specs.pages.True.{GivenTrue};
ghost use Rattle.script_runs.specs.Streams.{script_limit};
ghost use Rattle.script_runs.specs.Readings.{Reads};
ghost use Rattle.script_runs.specs.Run.{IsXidOption, IsScript, Refuses, RefusalIs, Says};
ghost use Rattle.nfs_client.specs.KeptHeadline.{KeptRun};
ghost use Rattle.nfs_client.specs.KeptPages.{TrueBack};

use anew_link::Anew;
use nfs_client::{Stock, run_stocked};
use outside::{Clock, Link, Sink, Source};
use session_words::Settings;
use std::alloc::Global;

/// Runs the script as `nfs_client::run_stocked` does, over a link that may have a history. To this session what the client did before is another client's.
pub(crate) fn run_anew<S: Source, L: Link, C: Clock, K: Sink>(
    alloc: Global,
    settings: &Settings,
    stock: Stock,
    script: &mut S,
    link: &mut L,
    clock: &mut C,
    out: &mut K,
) -> (u8, Option<Stock>)
    requires options { IsOptions settings.now }
    requires most { settings.now.calls < 2 ^ 31 }
    requires xid { IsXidOption settings.now.xid }
    ensures statuses { result.0 ≤ 8 }
    ensures taken { result.0 ≢ 2 }
    ensures script { IfSome (S.left script.old) (λ left. result.0 ≡ 3 → IsScript (take script_limit left) → ⊥) }
    ensures unspelled { IfSome (S.left script.old) (λ left. (IsScript (take script_limit left) → ⊥) → Refuses result.0) }
    ensures unread { result.0 ≡ 4 → Says (K.written out.old) (K.written out.new) (λ text. text ≡ []) }
    ensures refused { result.0 ≡ 3 → Says (K.written out.old) (K.written out.new) (RefusalIs (S.left script.old)) }
    ensures source { result.0 ≡ 4 → Rose (S.faults script.old) (S.faults script.new) }
    ensures sink { result.0 ≡ 5 → Rose (K.faults out.old) (K.faults out.new) }
    ensures stays { (first : L) → L.stays first link.old → L.stays first link.new }
    ensures honest { L.honest link.old → L.honest link.new }
    ensures headline { Says (K.written out.old) (K.written out.new) (λ text.
        Reads (C.readings clock.old) (C.readings clock.new) (λ given.
        Relates (L.told link.old) (L.told link.new) (λ before h.
        KeptRun (λ t. GivenTrue stock.pages t) given settings.now (S.left script.old) (since before before) (since before h) result.0 text))) }
    ensures pages { Relates (L.told link.old) (L.told link.new) (λ before h. IfSome result.1 (λ back. TrueBack stock back (since before h))) }
{
    let mut anew = Anew { link, own: 0 };
    run_lent(alloc, settings, stock, script, &mut anew, clock, out)
}

/// The same over such a link as it is lent.
fn run_lent<S: Source, L: Link, C: Clock, K: Sink>(
    alloc: Global,
    settings: &Settings,
    stock: Stock,
    script: &mut S,
    anew: &mut Anew<'_, L>,
    clock: &mut C,
    out: &mut K,
) -> (u8, Option<Stock>)
    requires options { IsOptions settings.now }
    requires most { settings.now.calls < 2 ^ 31 }
    requires xid { IsXidOption settings.now.xid }
    requires own { anew.old.own ≡ 0 }
    ensures statuses { result.0 ≤ 8 }
    ensures taken { result.0 ≢ 2 }
    ensures script { IfSome (S.left script.old) (λ left. result.0 ≡ 3 → IsScript (take script_limit left) → ⊥) }
    ensures unspelled { IfSome (S.left script.old) (λ left. (IsScript (take script_limit left) → ⊥) → Refuses result.0) }
    ensures unread { result.0 ≡ 4 → Says (K.written out.old) (K.written out.new) (λ text. text ≡ []) }
    ensures refused { result.0 ≡ 3 → Says (K.written out.old) (K.written out.new) (RefusalIs (S.left script.old)) }
    ensures source { result.0 ≡ 4 → Rose (S.faults script.old) (S.faults script.new) }
    ensures sink { result.0 ≡ 5 → Rose (K.faults out.old) (K.faults out.new) }
    ensures same_reference { anew.new.link.ghost_name ≡ anew.old.link.ghost_name }
    ensures stays { (first : L) → L.stays first anew.old.link.now → L.stays first anew.new.link.now }
    ensures honest { L.honest anew.old.link.now → L.honest anew.new.link.now }
    ensures headline { Says (K.written out.old) (K.written out.new) (λ text.
        Reads (C.readings clock.old) (C.readings clock.new) (λ given.
        Relates (L.told anew.old.link.now) (L.told anew.new.link.now) (λ before h.
        KeptRun (λ t. GivenTrue stock.pages t) given settings.now (S.left script.old) (since before before) (since before h) result.0 text))) }
    ensures pages { Relates (L.told anew.old.link.now) (L.told anew.new.link.now) (λ before h. IfSome result.1 (λ back. TrueBack stock back (since before h))) }
{
    run_stocked(alloc, settings, stock, script, anew, clock, out)
}
