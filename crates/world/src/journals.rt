//! Laws of journals: each actor's own events, replayed by themselves, and when they are a run.
ghost use Rattle.std.specs.Prelude.{◌≡◌, ◌<◌, ℕ, true, List};
ghost use Rattle.messages.specs.declared.event.ActorEvent.{ActorEvent};
ghost use Rattle.messages.specs.Topology.{TopologyValue, is_topology};
ghost use Rattle.world.specs.Run.{RunEvent, run};
ghost use Rattle.world.specs.Journals.{KeepsTime, ClocksRise, DoFit, DoLinksFit, IsThreadedRun, IsRunOf, IsItsJournal};
ghost use Rattle.world.specs.Threads.{IsToldByJournals, JournalsShowOneTable, ThreadsKeepPromises};

/// An actor's clock rises with each of its events. What an event sends carries the clock after it, and what it handles is
/// older. So the clocks along a journal rise strictly. Does nothing; its contract is the law.
pub fn steps_keep_time()
    ensures steps { (top : TopologyValue) (node : ℕ) → KeepsTime top node }
    ensures journals { (top : TopologyValue) (node : ℕ) → ClocksRise top node }
{}

/// In every run each actor is the replay of its own journal: that leads to its state, sends exactly what the run has from its
/// node and finishes exactly what the transcript has of it, each in order. Does nothing; its contract is the law.
pub fn actors_are_their_journals()
    ensures { (top : TopologyValue) (events : List RunEvent) (node : ℕ) → 0 < top.shards → IsItsJournal top (run top events) node }
{}

/// Journals, one for each actor, are a run if each replays without a refusal and what each handles is for it and was sent by
/// its sender's journal: then some list of events, none of them refused, has each journal as exactly that actor's events, in
/// that order. So it is where on each link the receipts are a beginning of what was sent. And the journals of every run fit
/// together, though not always link by link, since messages come in any order. Does nothing; its contract is the law.
pub fn journals_that_fit_are_a_run()
    ensures fit { (top : TopologyValue) (journals : ℕ → List ActorEvent) → DoFit top journals → IsThreadedRun top journals }
    ensures links { (top : TopologyValue) (journals : ℕ → List ActorEvent) → DoLinksFit top journals → IsThreadedRun top journals }
    ensures only { (top : TopologyValue) (journals : ℕ → List ActorEvent) (events : List RunEvent) → 0 < top.shards → IsRunOf top journals events → DoFit top journals }
{}

/// What a run has of each actor, its histories and its submitted operations are what its journals tell: so any two runs of
/// the same journals agree on them. Does nothing; its contract is the law.
pub fn journals_tell_what_happened()
    ensures { (top : TopologyValue) (journals : ℕ → List ActorEvent) (events : List RunEvent) → 0 < top.shards → IsRunOf top journals events → IsToldByJournals top journals (run top events) }
{}

/// The headline, whatever the threads did. Where journals fit together, the answer of each read that they answered is the
/// meaning of its request on the history that they give for its home, at its effective time; and in each run that has them
/// reads show one table with their past, and are fresh. Does nothing; its contract is the law.
pub fn threads_keep_the_promises()
    ensures table { (top : TopologyValue) (journals : ℕ → List ActorEvent) → is_topology top.dcs top.shards top.homes ≡ true → DoFit top journals → JournalsShowOneTable top journals }
    ensures runs { (top : TopologyValue) (journals : ℕ → List ActorEvent) → 0 < top.shards → DoFit top journals → ThreadsKeepPromises top journals }
{}
