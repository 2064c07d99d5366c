//! The law of runs whose collections come at rest.
ghost use Rattle.std.specs.Prelude.{◌≡◌, true, List};
ghost use Rattle.messages.specs.Topology.{TopologyValue, is_topology};
ghost use Rattle.world.specs.declared.run_event.RunEvent.{RunEvent};
ghost use Rattle.world.specs.Run.{opening, run};
ghost use Rattle.present.specs.AtRest.{ComeAtRest, NoneIsGivenUp};

/// In every run in which each collection comes when all that was sent was handled, up to a time that its shard's clock
/// has reached, no read is given up: whatever is delivered when, again or never. Does nothing; its contract is the law.
pub fn collections_at_rest_give_up_no_read()
    ensures { (top : TopologyValue) (events : List RunEvent) → is_topology top.dcs top.shards top.homes ≡ true → ComeAtRest top (opening top) events → NoneIsGivenUp (run top events) }
{}
