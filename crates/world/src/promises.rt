//! The promises of every run, as laws of the protocol's definitions: over all lists of events, all numbers of data centres,
//! shards and sessions, with messages repeated, reordered and lost, and with collections.
ghost use Rattle.std.specs.Prelude.{◌≡◌, ◌<◌, ℕ, true, List};
ghost use Rattle.column_family.specs.History.{History};
ghost use Rattle.messages.specs.declared.event.ActorEvent.{ActorEvent};
ghost use Rattle.messages.specs.Topology.{TopologyValue, is_topology};
ghost use Rattle.world.specs.Run.{Run, RunEvent, run};
ghost use Rattle.world.specs.Histories.{IsHistory};
ghost use Rattle.world.specs.Fresh.{FirstRoundsAreWhole};
ghost use Rattle.world.specs.Quiet.{IsQuiet};
ghost use Rattle.world.specs.Settled.{Settled};
ghost use Rattle.world.specs.Journals.{IsRunOf};
ghost use Rattle.world.specs.Local.{IsLocallyQuiet, AreHandledHere, IsServed, AllAnswered, AnswersLocally};
ghost use Rattle.world.specs.Drains.{ClocksCountEvents, DeliveriesComeNearer, DecisionsAreCapped, DeliveriesAreAllowed, DeliveriesLeaveFewer, DrainsEnd};
ghost use Rattle.world.specs.Lookups.{FindsUnhandled, HistoriesAreAsked, MessagesAreForActors, ShardsTellUnfinished};
ghost use Rattle.world.specs.Named.{StampsAreNamed};
ghost use Rattle.world.specs.Causes.{PastsAreDecided};
ghost use Rattle.world.specs.Collected.{CollectedIsBelowHorizon, HorizonsAreOfCollections};
ghost use Rattle.world.specs.Each.{EachShardIsRight};
ghost use Rattle.world.specs.Entries.{TellsDecided, AreNamedOnce, CoordinatorsDecide, StampsAgree, WritesAreTold};
ghost use Rattle.world.specs.Promises.{EntriesAreOfSubmissions, LaterCommitsAreAbove, OutcomesAreListed, RunsGrow, ReadsShowOneTable, AnswersStay, ReadsShowTheirPast, MovesBringTheirPast, ReadsAreFresh, StampsFollowCauses, TimesNeverFall, HomesAreOfMoves, OperationsEndOnce, HistoriesGrow, HandledIsHonest};

/// In every run each completed read is answered with the meaning of its request on one table: the history of its home at
/// its effective time, as far as the run has come and however the history is ordered; and so it is at any later moment, of
/// the history as it is then. Does nothing; its contract is the law.
pub fn reads_show_one_table()
    ensures now { (top : TopologyValue) (events : List RunEvent) → 0 < top.shards → ReadsShowOneTable top (run top events) }
    ensures later { (top : TopologyValue) (before after : List RunEvent) → 0 < top.shards → AnswersStay top before after }
{}

/// In every run each write before a completed read, by sessions and by reads, is committed in the read's home, with a
/// commit time not above its effective time: so it stands in the table that the read shows. Does nothing; its contract is
/// the law.
pub fn reads_show_their_past()
    ensures { (top : TopologyValue) (events : List RunEvent) → 0 < top.shards → ReadsShowTheirPast top (run top events) }
{}

/// In every run a session that moved brings its past: each write before the move, by sessions and by reads, is committed in
/// the new home, with a commit time not above the floor that the move told. Does nothing; its contract is the law.
pub fn moves_bring_their_past()
    ensures { (top : TopologyValue) (events : List RunEvent) → 0 < top.shards → MovesBringTheirPast top (run top events) }
{}

/// In every run each completed read shows, at each asked location, nothing older than what the asked shard had applied
/// there before it sent the answer that the session kept; and of each shard that the read asked, its session kept one answer
/// of the first round, and no other. Does nothing; its contract is the law.
#[tactic(auto, using(crate::proofs::promised::Laws::reads_are_fresh, crate::proofs::fresh::FirstRounds::first_rounds_are_whole))]
pub fn reads_are_fresh()
    ensures fresh { (top : TopologyValue) (events : List RunEvent) → 0 < top.shards → ReadsAreFresh top (run top events) }
    ensures kept { (top : TopologyValue) (events : List RunEvent) → 0 < top.shards → FirstRoundsAreWhole top (run top events) }
{}

/// In every run a read ends with Collected only where its effective time lay below the horizon of a shard that it asked, at
/// the moment that this shard said so; and the horizon of a shard is the greatest time of its collections so far. Does
/// nothing; its contract is the law.
#[tactic(auto, using(crate::proofs::fresh::GivenUp::collected_in_runs, crate::proofs::fresh::Horizons::horizons_are_of_collections))]
pub fn reads_are_given_up_below_horizons()
    ensures collected { (top : TopologyValue) (events : List RunEvent) → 0 < top.shards → CollectedIsBelowHorizon top (run top events) }
    ensures horizons { (top : TopologyValue) (events : List RunEvent) → HorizonsAreOfCollections (run top events) }
{}

/// In every run the history of a data centre has one entry for each transaction that was decided there, with its batch as
/// submitted, its stamp and its commit time there; only a batch's coordinator decides it, once; and an operation is
/// submitted once under its number. Does nothing; its contract is the law.
pub fn histories_tell_what_is_decided()
    ensures entries { (top : TopologyValue) (events : List RunEvent) (dc : ℕ) (h : History) → 0 < top.shards → IsHistory top (run top events) dc h → TellsDecided top (run top events) dc h }
    ensures submissions { (top : TopologyValue) (events : List RunEvent) → 0 < top.shards → AreNamedOnce (run top events) }
    ensures coordinators { (top : TopologyValue) (events : List RunEvent) → 0 < top.shards → CoordinatorsDecide top (run top events) }
{}

/// Histories only grow: what further events add changes no entry. Does nothing; its contract is the law.
pub fn histories_only_grow()
    ensures { (top : TopologyValue) (before after : List RunEvent) → 0 < top.shards → HistoriesGrow top before after }
{}

/// Runs only grow: what was sent, submitted and completed stays, in order, whatever events follow. Does nothing; its
/// contract is the law.
pub fn runs_only_grow()
    ensures { (top : TopologyValue) (before after : List RunEvent) → RunsGrow top before after }
{}

/// What is committed in the home of a completed read after it was answered, and touches a row that it asked for, has a commit
/// time above its effective time: so the table that it showed stays as it was. Does nothing; its contract is the law.
pub fn later_commits_are_above_reads()
    ensures { (top : TopologyValue) (before after : List RunEvent) → 0 < top.shards → LaterCommitsAreAbove top before after }
{}

/// In every run a transaction has one stamp in all data centres, and no other has it; where it was submitted, its time is
/// the commit time and its node the coordinator; and each stamp that a message names, of a decision that it tells or of a part
/// that it replicates, is that of a decision. Does nothing; its contract is the law.
#[tactic(auto, using(crate::proofs::promised::Laws::stamps_in_runs, crate::proofs::histories::NamedStamps::stamps_are_named))]
pub fn stamps_agree_everywhere()
    ensures decisions { (top : TopologyValue) (events : List RunEvent) → 0 < top.shards → StampsAgree top (run top events) }
    ensures messages { (top : TopologyValue) (events : List RunEvent) → 0 < top.shards → StampsAreNamed (run top events) }
{}

/// In every run the stamp of a write is less than the stamp of each write that it is before; and in whatever data centre a
/// write is decided, each write before it is decided there as well, with a smaller commit time and a smaller stamp. Does
/// nothing; its contract is the law.
pub fn stamps_follow_causal_order()
    ensures stamps { (top : TopologyValue) (events : List RunEvent) → 0 < top.shards → StampsFollowCauses top (run top events) }
    ensures there { (top : TopologyValue) (events : List RunEvent) → 0 < top.shards → PastsAreDecided top (run top events) }
{}

/// In every run each completed write stands in the history of the data centre where it was submitted, with the commit time and
/// the stamp that the session was told. Does nothing; its contract is the law.
#[tactic(auto, using(crate::proofs::promised::Laws::writes_in_runs))]
pub fn completed_writes_are_in_the_history()
    ensures { (top : TopologyValue) (events : List RunEvent) → 0 < top.shards → WritesAreTold top (run top events) }
{}

/// In every run each entry of the transcript is of an operation that its session submitted, with an outcome that fits it:
/// a write is committed, a read is answered or given up, and a move is to where it was asked; and the entries of a session are
/// exactly what it finished, in that order. Does nothing; its contract is the law.
pub fn transcript_tells_what_ended()
    ensures entries { (top : TopologyValue) (events : List RunEvent) → 0 < top.shards → EntriesAreOfSubmissions (run top events) }
    ensures outcomes { (top : TopologyValue) (events : List RunEvent) → 0 < top.shards → OutcomesAreListed top (run top events) }
{}

/// In every run the commit and effective times of a session never fall while it stays in one home, its homes are those of its
/// moves, and each of its operations ends once. Does nothing; its contract is the law.
pub fn times_of_a_session_never_fall()
    ensures times { (top : TopologyValue) (events : List RunEvent) → 0 < top.shards → TimesNeverFall (run top events) }
    ensures homes { (top : TopologyValue) (events : List RunEvent) → 0 < top.shards → HomesAreOfMoves top (run top events) }
    ensures once { (top : TopologyValue) (events : List RunEvent) → 0 < top.shards → OperationsEndOnce (run top events) }
{}

/// In every run the envelopes that a shard handled are honest, which is the condition under which one shard is right. Does
/// nothing; its contract is the law.
#[tactic(auto, using(crate::proofs::promised::Laws::handled_is_honest))]
pub fn handled_envelopes_are_honest()
    ensures { (top : TopologyValue) (events : List RunEvent) → 0 < top.shards → HandledIsHonest top (run top events) }
{}

/// In every run each shard is what its own events make of a shard, and it is right: its answers are right at all times for
/// which they say so, by all that it ever applied, and a read is given up only below its horizon. Does nothing; its contract
/// is the law.
pub fn each_shard_of_a_run_is_right()
    ensures { (top : TopologyValue) (events : List RunEvent) → 0 < top.shards → EachShardIsRight top (run top events) }
{}

/// In every run each message is for an actor that there is; the first message that was not handled is found, and there is
/// none exactly in a quiet run; the history of a data centre is what one gets by asking, for each submitted batch, its
/// coordinator there; and what is unfinished on a shard are the parts that it holds and hasn't applied, in order of
/// transaction number, each once: nothing where the shard keeps nothing waiting. Does nothing; its contract is the law.
pub fn runs_can_be_looked_up()
    ensures messages { (top : TopologyValue) (events : List RunEvent) → is_topology top.dcs top.shards top.homes ≡ true → MessagesAreForActors top (run top events) }
    ensures unhandled { (w : Run) → FindsUnhandled w }
    ensures histories { (top : TopologyValue) (events : List RunEvent) → 0 < top.shards → HistoriesAreAsked top (run top events) }
    ensures unfinished { (top : TopologyValue) (events : List RunEvent) → 0 < top.shards → ShardsTellUnfinished top (run top events) }
{}

/// Quiet means done: in every run in which each sent message has been handled at least once, every submitted operation has
/// its outcome, every submitted batch is committed in every data centre, no mark, prepared part, ballot or waiting check is
/// left, and the tables of all data centres are equal at every time not below all commit times. Does nothing; its contract
/// is the law.
pub fn quiet_means_done()
    ensures { (top : TopologyValue) (events : List RunEvent) → is_topology top.dcs top.shards top.homes ≡ true → IsQuiet (run top events) → Settled top (run top events) }
{}

/// Answers are local: in every run in which all messages between the actors of one data centre were handled, whatever became of those
/// between data centres, no read waits on its shards, and no session that was opened there and is at home there has a batch or a read
/// open: each that it submitted has its outcome (`local`). So it is of a session by itself, wherever it was opened, where all messages
/// between it and the shards of its present home, and between these, were handled (`served`). And journals that handled all that the
/// actors of the data centre sent each other are of runs in which it was handled (`journals`). Does nothing; its contract is the law.
pub fn answers_are_local()
    ensures local { (top : TopologyValue) (events : List RunEvent) (dc : ℕ) → is_topology top.dcs top.shards top.homes ≡ true → dc < top.dcs → IsLocallyQuiet top dc (run top events) → AnswersLocally top (run top events) dc }
    ensures served { (top : TopologyValue) (events : List RunEvent) (session : ℕ) → is_topology top.dcs top.shards top.homes ≡ true → IsServed top (run top events) session → AllAnswered (run top events) session }
    ensures journals { (top : TopologyValue) (journals : ℕ → List ActorEvent) (events : List RunEvent) (dc : ℕ) → is_topology top.dcs top.shards top.homes ≡ true → IsRunOf top journals events → AreHandledHere top dc journals → IsLocallyQuiet top dc (run top events) }
{}

/// In every run no clock and no time of a message is above the number of events. So no clock is spent before there were 2^48
/// events. Does nothing; its contract is the law.
#[tactic(auto, using(crate::proofs::drains::EventCounts::clocks_count_events))]
pub fn clocks_count_events()
    ensures { (top : TopologyValue) (events : List RunEvent) → ClocksCountEvents (run top events) }
{}

/// In every run each message that was sent, when it is delivered, is handled or meets a spent clock. Where it is handled, one
/// shard has one decision more, or none has another and all that is sent is of a lower rank than the message; and of each
/// submitted batch there is one decision in each data centre at most. So nothing goes round: no message leads to others for
/// ever. Does nothing; its contract is the law.
pub fn deliveries_come_nearer()
    ensures nearer { (top : TopologyValue) (events : List RunEvent) → is_topology top.dcs top.shards top.homes ≡ true → DeliveriesComeNearer top (run top events) }
    ensures decisions { (top : TopologyValue) (events : List RunEvent) → 0 < top.shards → DecisionsAreCapped top (run top events) }
{}

/// A drain ends: from every run, delivering again and again the first message that wasn't handled makes the run quiet, so
/// that all is done, by no more deliveries than `deliveries_left` counts, as long as the clocks have room for them. Until then
/// a delivery of any message that wasn't handled isn't refused, and leaves fewer: so no order of them goes on for ever. Does
/// nothing; its contract is the law.
pub fn drains_end()
    ensures ends { (top : TopologyValue) (events : List RunEvent) → is_topology top.dcs top.shards top.homes ≡ true → DrainsEnd top (run top events) }
    ensures allowed { (top : TopologyValue) (events : List RunEvent) → is_topology top.dcs top.shards top.homes ≡ true → DeliveriesAreAllowed top (run top events) }
    ensures fewer { (top : TopologyValue) (events : List RunEvent) → is_topology top.dcs top.shards top.homes ≡ true → DeliveriesLeaveFewer top (run top events) }
{}
