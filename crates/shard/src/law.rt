//! Laws of one shard.
ghost use Rattle.std.specs.Prelude.{ℕ, List};
ghost use Rattle.messages.specs.declared.event.ActorEvent.{ActorEvent};
ghost use Rattle.messages.specs.Topology.{TopologyValue};
ghost use Rattle.messages.specs.Honest.{IsHonest};
ghost use Rattle.shard.specs.Events.{shard_run, envelopes_handled};
ghost use Rattle.shard.specs.Right.{IsRightShard};

/// One shard is right, whatever comes to it in whatever order, as long as the envelopes that it handled are honest: each
/// answer of a first round is right for each row at every time from its earliest to its latest valid time, and each answer
/// at a time at that time, for the very read that caused it, judged against all that the shard applies, also later; a read
/// is given up only below the horizon, and parts are applied with the commit time and stamp of their decisions, each in
/// normal form and no two with one stamp. Does nothing; its contract is the law.
#[tactic(auto, using(crate::proofs::right::OneShard::shard_is_right))]
pub fn one_shard_is_right()
    ensures { (top : TopologyValue) (me : ℕ) (events : List ActorEvent) → IsHonest (shard_run top me events).state (envelopes_handled (shard_run top me events)) → IsRightShard top me (shard_run top me events) }
{}
