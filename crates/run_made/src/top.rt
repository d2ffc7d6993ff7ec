//! The top call.

ghost use Rattle.std.specs.Prelude.{◌≡◌, ◌≢◌, ◌≤◌, ◌⊎◌, Some, [], take, map, IfOk};
ghost use Rattle.std.specs.String.{string_bytes};
ghost use Rattle.world_model.specs.Told.{Relates};
ghost use Rattle.outside.specs.Causes.{Rose};
ghost use Rattle.made_script.specs.Made.{IsSize, made_text};
ghost use Rattle.made_script.specs.Summaries.{summary_text};
ghost use Rattle.session_words.specs.declared.settings.Settings.{Settings as SettingsOf};
ghost use Rattle.session_words.specs.Words.{IsCommand};
ghost use Rattle.script_runs.specs.Streams.{script_limit};
ghost use Rattle.script_runs.specs.Readings.{Reads};
ghost use Rattle.script_runs.specs.Run.{IsCutOff, IsScript, Refuses, RefusalIs, Says};
ghost use Rattle.nfs_client.specs.Headline.{Headline};
ghost use Rattle.run_made.specs.MadeRuns.{said_of, Tells, MadeRunOf, MadeRunIs};

use crate::output::write_all;
use crate::status;
use made_script::{made, summary};
use nfs_client::run;
use outside::{Clock, Link, LinkFault, MemSink, MemSource, Sink};
use std::alloc::Global;
use xdr_codec::{Blob, Memory, Writer};

/// Runs the script that is made of this size, as `nfs_client::run` does, and writes one line on its answers: how many lines they
/// have, in how many the operation succeeded, and how many bytes these show. If no session was run to its end, what `run`
/// writes is written instead. The status is that of `run`, or 5 if the sink failed, or 7 for lack of memory.
pub fn run_made<L: Link, C: Clock, K: Sink>(
    alloc: Global,
    n: u32,
    words: &[String],
    link: &mut L,
    clock: &mut C,
    out: &mut K,
) -> u8
    requires { IsSize n }
    ensures statuses { result ≤ 8 }

    // Its script isn't read from anywhere, so no source fails.
    ensures sourceless { result ≢ 4 }

    // 2 comes only if the words aren't of their form, and if they aren't, only out of memory comes in its place.
    ensures words { result ≡ 2 → (s : SettingsOf) → IsCommand (map string_bytes words.now) s → ⊥ }
    ensures no_words { ((s : SettingsOf) → IsCommand (map string_bytes words.now) s → ⊥) → (result ≡ 2) ⊎ (result ≡ 7) }

    // 3 comes only if what is made spells no script.
    ensures script { result ≡ 3 → IsScript (take script_limit (made_text n)) → ⊥ }
    ensures unspelled { (IsScript (take script_limit (made_text n)) → ⊥) → Refuses result }

    // At 2 nothing is written, and at 3 the line that says why the script is refused.
    ensures unread { result ≡ 2 → Says (K.written out.old) (K.written out.new) (λ text. text ≡ []) }
    ensures refused { result ≡ 3 → Says (K.written out.old) (K.written out.new) (RefusalIs (Some (made_text n))) }

    // 5 comes only if the sink failed.
    ensures sink { result ≡ 5 → Rose (K.faults out.old) (K.faults out.new) }

    // What the link's own calls keep stays, and a link that is honest stays so: what it tells is lawful.
    ensures stays { (first : L) → L.stays first link.old → L.stays first link.new }
    ensures honest { L.honest link.old → L.honest link.new }

    // What a session of that script promises, in the words of the model alone: `Headline` of nfs_client/specs/Headline. Of what it writes this tells.
    ensures headline { Says (K.written out.old) (K.written out.new) (λ said.
        Reads (C.readings clock.old) (C.readings clock.new) (λ given.
        Relates (L.told link.old) (L.told link.new) (λ before h. before ≡ [] →
        MadeRunOf Headline given (map string_bytes words.now) n h result said))) }

    // What was written is the summary of what the history says, and the clock gave these readings; and what else the core shows.
    ensures shown { Says (K.written out.old) (K.written out.new) (λ said.
        Reads (C.readings clock.old) (C.readings clock.new) (λ given.
        Relates (L.told link.old) (L.told link.new) (λ before h. before ≡ [] →
        MadeRunIs given (map string_bytes words.now) n h result said))) }
{
    let Ok(text) = made(alloc, n) else {
        return status::NO_MEMORY;
    };
    let Ok(mut script) = MemSource::new(alloc, text.bytes(), &[]) else {
        return status::NO_MEMORY;
    };
    let Ok(mut answers) = MemSink::new(alloc, &[]) else {
        return status::NO_MEMORY;
    };
    let ran = run(alloc, words, &mut script, link, clock, &mut answers);
    tell(alloc, ran, answers.bytes(), out)
}

/// Writes what is to be told of a run that ended so, with this text.
fn tell<K: Sink>(alloc: Global, ran: u8, text: &[u8], out: &mut K) -> u8
    requires most { ran ≤ 8 }
    requires unread { ran ≡ 2 → text.now ≡ [] }
    ensures statuses { result ≤ 8 }
    ensures sourceless { result ≢ 4 }
    ensures same { (result ≡ ran) ⊎ IsCutOff result }
    ensures words { ran ≡ 2 → result ≡ 2 }
    ensures sink { result ≡ 5 → Rose (K.faults out.old) (K.faults out.new) }
    ensures said { Says (K.written out.old) (K.written out.new) (Tells (said_of ran text.now) ran result) }
{
    if ran == status::WORDS_REFUSED {
        return ran;
    }
    if ran == status::READ_FAULT || ran == status::WRITE_FAULT || ran == status::NO_MEMORY {
        return status::NO_MEMORY;
    }
    if ran == status::WELL || ran == status::REFUSED || ran == status::LINK_LOST {
        let Ok(line) = summed(alloc, text) else {
            return status::NO_MEMORY;
        };
        return finish(ran, line.bytes(), out);
    }
    finish(ran, text, out)
}

/// The summary of the answers.
fn summed(alloc: Global, text: &[u8]) -> Result<Blob, Memory>
    ensures { IfOk result (λ line. line ≡ summary_text text.now) }
{
    let mut line = Writer::new(alloc);
    summary(text, &mut line)?;
    Ok(line.finish())
}

/// Writes the text, and ends in the status unless that fails.
fn finish<K: Sink>(ran: u8, text: &[u8], out: &mut K) -> u8
    requires { IsCutOff ran → ⊥ }
    ensures same { (result ≡ ran) ⊎ IsCutOff result }
    ensures sink { result ≡ 5 → Rose (K.faults out.old) (K.faults out.new) }
    ensures said { Says (K.written out.old) (K.written out.new) (Tells text.now ran result) }
{
    match write_all(out, text) {
        Ok(()) => ran,
        Err(LinkFault::Failed) => status::WRITE_FAULT,
        Err(LinkFault::Memory) => status::NO_MEMORY,
    }
}
