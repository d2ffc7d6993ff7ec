//! The law of calls. Let a server be honest, and execute no copy of a call after a reply to it was taken. Let a client number
//! its calls as `specs/Calls` says. Then each call is executed while it waits. The record that answers it tells of such an
//! execution, or refuses it by RPC, whatever was lost, repeated or came late. Nothing here runs: each function has an empty
//! body, and its contract is the theorem.
#![tactic(auto)]

ghost use Rattle.std.specs.Prelude.{◌≡◌, ◌<◌, ℕ, List};
ghost use Rattle.world_model.specs.declared.entry.Entry.{Entry};
ghost use Rattle.world_model.specs.declared.entry.Entry.TheVariants.{Executed};
ghost use Rattle.world_model.specs.declared.message.Call.{Call};
ghost use Rattle.world_model.specs.declared.message.Reply.{Reply};
ghost use Rattle.world_model.specs.Entries.{At};
ghost use Rattle.world_model.specs.History.{History};
ghost use Rattle.world_model.specs.Lawful.{Lawful};
ghost use Rattle.world_model.specs.Once.{Once};
ghost use Rattle.world_model.specs.Waiting.{Waits, Answers};
ghost use Rattle.law_calls.specs.Calls.{Numbered, Waiting, Told, Between};

/// A call that is executed waits at that moment: it was sent, as each record under its xid spells it, and no reply under its xid
/// came before (RFC 5531, section 9; RFC 1813, section 4.5).
pub fn executed_call_waits()
    ensures { (t : History) → Lawful t → Once t.entries → Numbered t.entries → (n xid : ℕ) (call : Call) (reply : Reply) → At t.entries n (Executed xid call reply) → Waiting t.entries n xid call }
{}

/// The record that answers a call tells of an execution of that very call, after it was sent and before the record came; or it
/// refuses the call at the level of RPC.
pub fn reply_tells_an_execution()
    ensures { (t : History) → Lawful t → Once t.entries → Numbered t.entries → (n xid : ℕ) (bytes : List ℕ) → Answers t.entries n xid bytes → Told t.entries n xid bytes }
{}

/// All executions of a call lie between the first record under its xid that was sent and the reply that was taken.
pub fn executions_lie_between()
    ensures { (t : History) → Lawful t → Once t.entries → (n g xid : ℕ) (call : Call) (reply : Reply) (bytes : List ℕ) → At t.entries n (Executed xid call reply) → Answers t.entries g xid bytes → Between t.entries n g xid }
{}

/// An xid is answered once, and doesn't wait again after that.
pub fn answered_once()
    ensures again { (h : List Entry) → Numbered h → (g n xid : ℕ) (a b : List ℕ) → Answers h g xid a → Answers h n xid b → g ≡ n }
    ensures idle { (h : List Entry) → Numbered h → (g n xid : ℕ) (a : List ℕ) → Answers h g xid a → g < n → Waits h xid n → ⊥ }
{}
