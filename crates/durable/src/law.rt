//! Laws of worlds that entries of a log lead to.
ghost use Rattle.std.specs.Prelude.{◌≡◌, ◌<◌, ◌++◌, List, None};
ghost use Rattle.messages.specs.Topology.{TopologyValue};
ghost use Rattle.world.specs.declared.run_event.RunEvent.{RunEvent};
ghost use Rattle.world.specs.Run.{run};
ghost use Rattle.world.specs.Journals.{IsBeginning};
ghost use Rattle.world.specs.Lookups.{first_unhandled};
ghost use Rattle.ledger.specs.declared.entry.Entry.{Entry};
ghost use Rattle.records.specs.Records.{Entry as Record};
ghost use Rattle.durable.specs.Playing.{IsLed, Outlives};
ghost use Rattle.durable.specs.Logged.{Tell};

use ledger::texts_are_of_one_entry;

/// The same entries lead one way: what entries led to is a beginning of what they and more lead to, once all is handled. Does
/// nothing; its contract is the law.
#[tactic(auto, using(crate::proofs::Playing::one_way))]
pub fn entries_lead_one_way()
    ensures { (top : TopologyValue) (before after : List RunEvent) (es more : List Entry) → IsLed top before es → IsLed top after (es ++ more) → first_unhandled (run top after) ≡ None → IsBeginning before after }
{}

/// Each reply that was given before a crash keeps its meaning in the world that comes back, where the log has all entries until
/// then: its outcome is the one that the transcript has, with all that is promised of it. Does nothing; its contract is the law.
#[tactic(auto, using(crate::proofs::Playing::outlives))]
pub fn replies_outlive_crashes()
    ensures { (top : TopologyValue) (before after : List RunEvent) (es more : List Entry) → 0 < top.shards → IsLed top before es → IsLed top after (es ++ more) → first_unhandled (run top after) ≡ None → Outlives top before after }
{}

/// The entries that the kept records tell come first among those that the records found after a crash tell, which are the kept ones
/// and some more. Does nothing; its contract is the law.
pub fn kept_entries_come_back()
    ensures { (kept : List Record) (more : List Record) (es : List Entry) (found : List Entry) → Tell es kept → Tell found (kept ++ more) → (rest : List Entry) × (found ≡ es ++ rest) }
{
    texts_are_of_one_entry();
}
