//! What is printed of a trace is read again.
#![tactic(auto)]

ghost use Rattle.std.specs.Prelude.{◌≡◌, ℕ, ◌<◌, List, Some, Ok, All, length};
ghost use Rattle.trace_text.specs.Shapes.{AnswerShape};
ghost use Rattle.trace_text.specs.Reading.{text_told};
ghost use Rattle.trace_text.specs.Texts.{IsSpelled, entry_text, printed};
ghost use Rattle.trace_text.specs.Told.{Says, Told, added, begun};
ghost use Rattle.trace_prints.specs.HasText.{AreWritten, HasText, IsEntry};
ghost use Rattle.trace_prints.specs.Rounds.{Reads, ShowsLast};
ghost use Rattle.trace_prints.specs.Shown.{IsReadAgain, shown_entry};

use trace_data::Trace;
use world_model::Entry;

/// The line of an entry is read as what it shows of the entry. A fact for proofs: it does nothing.
pub fn entry_read_again(entry: &Entry)
    ensures { (told : Told) (shape : ℕ → ℕ → AnswerShape) → ShowsLast told shape → IsEntry shape entry.now → length told.history.entries < 4096
        → Reads told (entry_text entry.now) (begun (added (shown_entry entry.now) told)) }
{
    let _entry = entry;
}

/// The text that `print` gives is read as the trace, if each mark of the trace has a text. Attributes of a stat's answer
/// that aren't shown are left out. A fact for proofs: it does nothing.
pub fn trace_read_again(trace: &Trace)
    ensures again { HasText trace.now → (text : List ℕ) → printed trace.now ≡ Some text → IsReadAgain trace.now (text_told text) }
    ensures spelled { HasText trace.now → All IsSpelled trace.now.entries.items }
{
    let _trace = trace;
}

/// A trace that is read from a text has a text, if the records of its calls and replies, as they are written, are read as
/// they are. A fact for proofs: it does nothing.
pub fn read_has_text(text: &[u8], trace: &Trace)
    ensures { (told : Told) → text_told text.now ≡ Ok told → Says trace.now told
        → AreWritten trace.now.entries.items → HasText trace.now }
{
    let _text = text;
    let _trace = trace;
}
