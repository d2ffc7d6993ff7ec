//! What follows of each record that is sent. Nothing here runs: each function has an empty body, and its contract is the theorem.

ghost use Rattle.std.specs.Prelude.{List};
ghost use Rattle.world_model.specs.declared.entry.Entry.{Entry};
ghost use Rattle.outside.specs.declared.datagrams.DatagramEntry.{DatagramEntry};
ghost use Rattle.export_session.specs.Answers.{ServingView};
ghost use Rattle.export_session.specs.Talk.{Talks};
ghost use Rattle.export_session.specs.Senders as senders;
ghost use Rattle.export_session.specs.Places.{AnswersAll, AnswersAllTo};

/// Over a link each record that was sent is the answer to the one that came just before it, by what was served then.
pub fn sent_answer()
    ensures { (s t : ServingView) (es : List Entry) → Talks s es t → AnswersAll s es }
{}

/// Over datagrams the same holds, and the answer goes to the port that the record came from.
pub fn sent_answers_to()
    ensures { (s t : ServingView) (es : List DatagramEntry) → senders.Talks s es t → AnswersAllTo s es }
{}
