//! Laws of sites whose stories meet.
ghost use Rattle.std.specs.Prelude.{◌≡◌, ◌<◌, ℕ, true, List, Some, map, Contains, IsPermutation};
ghost use Rattle.column_family.specs.History.{History};
ghost use Rattle.slice.specs.declared.read.Read.{Read};
ghost use Rattle.slice.specs.declared.read.AnsweredRow.{AnsweredRow};
ghost use Rattle.table.specs.Meaning.{meaning};
ghost use Rattle.messages.specs.declared.op.Op.{Op};
ghost use Rattle.messages.specs.declared.op.Op.TheVariants as op;
ghost use Rattle.messages.specs.declared.outcome.Outcome.{Outcome};
ghost use Rattle.messages.specs.declared.outcome.Outcome.TheVariants as outcome;
ghost use Rattle.messages.specs.Topology.{TopologyValue, is_topology, is_session, node_count};
ghost use Rattle.messages.specs.Actors.{outcomes_by};
ghost use Rattle.world.specs.Journals.{DoFit, IsThreadedRun};
ghost use Rattle.world.specs.Threads.{op_numbered, history_by, home_by};
ghost use Rattle.threaded.specs.Machines.{as_finished};
ghost use Rattle.messages.specs.declared.event.ActorEvent.{ActorEvent};
ghost use Rattle.world.specs.declared.run_event.RunEvent.{RunEvent};
ghost use Rattle.world.specs.Run.{run};
ghost use Rattle.world.specs.Journals.{IsRunOf, ended_at};
ghost use Rattle.world.specs.Local.{IsLocal, AnswersLocally};
ghost use Rattle.site.specs.Story.{Story, is_here, journal, outcomes};
ghost use Rattle.site.specs.Ends.{op_at, HasEnded};
ghost use Rattle.sites.specs.Answers.{AnswersAreMeant};
ghost use Rattle.sites.specs.Idle.{IsIdle};
ghost use Rattle.sites.specs.Again.{HasComeBack, StayApart, GoesOnFrom, HaveComeBack, DoMeetSince};
ghost use Rattle.sites.specs.Sites.{IsSiteStory, HasStory, DoLive, DoMeet, journals_of, outcomes_of};

/// Where what came to each site was sent by an actor of its sender's site, the journals of all sites fit together, and are those of a
/// run: whatever was repeated, reordered or lost between them. Does nothing; its contract is the law.
pub fn sites_are_a_run()
    ensures fit { (top : TopologyValue) (stories : ℕ → Story) → is_topology top.dcs top.shards top.homes ≡ true → DoLive top stories → DoMeet top stories → DoFit top (journals_of top stories) }
    ensures run { (top : TopologyValue) (stories : ℕ → Story) → is_topology top.dcs top.shards top.homes ≡ true → DoLive top stories → DoMeet top stories → IsThreadedRun top (journals_of top stories) }
{}

/// There the outcomes that each actor gave are those of the protocol, by its journal. Does nothing; its contract is the law.
pub fn outcomes_are_told()
    ensures { (top : TopologyValue) (stories : ℕ → Story) (node : ℕ) → is_topology top.dcs top.shards top.homes ≡ true → DoLive top stories → DoMeet top stories → node < node_count top
        → outcomes_by top node (journals_of top stories node) ≡ map as_finished (outcomes_of top stories node) }
{}

/// There each read that any site answered is answered with the meaning of its request on the history that the journals give for
/// the data centre where it was submitted, at its effective time. Does nothing; its contract is the law.
pub fn answers_are_meant()
    ensures { (top : TopologyValue) (stories : ℕ → Story) (node number : ℕ) (read : Read) (time : ℕ) (answer : List AnsweredRow) (h : History)
        → is_topology top.dcs top.shards top.homes ≡ true → DoLive top stories → DoMeet top stories → is_session top node ≡ true
        → op_numbered (journals_of top stories node) number ≡ Some (op.Read read) → Contains (outcomes_of top stories node) (number, outcome.Read time answer)
        → IsPermutation h (history_by top (journals_of top stories) (home_by top (journals_of top stories) node number))
        → answer ≡ meaning read h time }
{}

/// One site by itself: whatever journals the actors of the others have, where these and the site's own fit together, there is a run
/// that has them; in each such run the outcomes that the site's sessions gave are their entries, in order; and each read that it
/// answered is answered with the meaning of its request on the history that all journals give for the data centre where it was
/// submitted, at its effective time. Does nothing; its contract is the law.
pub fn one_site_is_right()
    ensures run { (top : TopologyValue) (journals : ℕ → List ActorEvent) → DoFit top journals → IsThreadedRun top journals }
    ensures entries { (top : TopologyValue) (dc node : ℕ) (s : Story) (journals : ℕ → List ActorEvent) (events : List RunEvent)
        → IsSiteStory top dc s → HasStory top dc s journals → is_here top dc node ≡ true → IsRunOf top journals events
        → ended_at (run top events) node ≡ map as_finished (outcomes s node) }
    ensures reads { (top : TopologyValue) (dc node number : ℕ) (s : Story) (journals : ℕ → List ActorEvent) (read : Read) (time : ℕ) (answer : List AnsweredRow) (h : History)
        → IsSiteStory top dc s → HasStory top dc s journals → is_here top dc node ≡ true → is_session top node ≡ true → DoFit top journals
        → op_numbered (journal s node) number ≡ Some (op.Read read) → Contains (outcomes s node) (number, outcome.Read time answer)
        → IsPermutation h (history_by top journals (home_by top journals node number))
        → answer ≡ meaning read h time }
{}

/// What a site answered is meant: each operation of its sessions that ended is an entry of each run that has its journals, and means
/// its request there (`alone`). Where what came to each site was sent by an actor of its sender's site, the journals of all sites are those
/// of a run (`together`). Does nothing; its contract is the law.
pub fn answers_of_sites()
    ensures alone { (top : TopologyValue) (dc : ℕ) (s : Story) → IsSiteStory top dc s → AnswersAreMeant top dc s }
    ensures together { (top : TopologyValue) (stories : ℕ → Story) → is_topology top.dcs top.shards top.homes ≡ true → DoLive top stories → DoMeet top stories
        → (dc : ℕ) → dc < top.dcs → HasStory top dc (stories dc) (journals_of top stories) × IsThreadedRun top (journals_of top stories) }
{}

/// A site that does its steps again comes to the same story, but for what it gives to the ways to other sites: where the stamps of the
/// first story stay apart. So it is once all are done, and whatever it did then (`back`), and on the way there (`way`). Does nothing; its
/// contract is the law.
pub fn same_steps_same_story()
    ensures back { (top : TopologyValue) (dc : ℕ) (s t : Story) → IsSiteStory top dc s → IsSiteStory top dc t → StayApart top dc s → HasComeBack s t → GoesOnFrom top dc s t }
    ensures way { (top : TopologyValue) (dc : ℕ) (s t : Story) → IsSiteStory top dc s → IsSiteStory top dc t → StayApart top dc s → HasComeBack t s → GoesOnFrom top dc t s }
{}

/// One site by itself: where its journals are of some journals that fit, as in each run, it goes on from where it was once it has come
/// back; and on the way there its story is one of which the first goes on. Does nothing; its contract is the law.
pub fn one_site_comes_back()
    ensures back { (top : TopologyValue) (dc : ℕ) (s t : Story) (journals : ℕ → List ActorEvent) → IsSiteStory top dc s → HasStory top dc s journals → DoFit top journals
        → IsSiteStory top dc t → HasComeBack s t → GoesOnFrom top dc s t }
    ensures way { (top : TopologyValue) (dc : ℕ) (s t : Story) (journals : ℕ → List ActorEvent) → IsSiteStory top dc s → HasStory top dc s journals → DoFit top journals
        → IsSiteStory top dc t → HasComeBack t s → GoesOnFrom top dc t s }
{}

/// All sites: where they met, any number of them came back, and what came later was sent by an actor of its sender's site, they meet
/// (`meet`). So all that is promised of sites that meet is promised of them; and each goes on from where it was (`on`). Does nothing; its
/// contract is the law.
pub fn sites_come_back()
    ensures on { (top : TopologyValue) (before after : ℕ → Story) → is_topology top.dcs top.shards top.homes ≡ true → DoLive top before → DoMeet top before
        → DoLive top after → HaveComeBack top before after → (dc : ℕ) → dc < top.dcs → GoesOnFrom top dc (before dc) (after dc) }
    ensures meet { (top : TopologyValue) (before after : ℕ → Story) → is_topology top.dcs top.shards top.homes ≡ true → DoLive top before → DoMeet top before
        → DoLive top after → HaveComeBack top before after → DoMeetSince top before after → DoMeet top after }
{}

/// A site at which nothing waits has answered all that it can answer by itself, whoever can be reached: where all that came for its actors
/// was handled, in each run whose journals have those of the site no read waits on its shards, and no session of it that is at home has
/// a batch or a read open (`runs`). So each batch and each read that such a session submitted has ended there (`ended`). Does nothing; its
/// contract is the law.
pub fn idle_sites_have_answered()
    ensures runs { (top : TopologyValue) (dc : ℕ) (s : Story) (journals : ℕ → List ActorEvent) (events : List RunEvent)
        → IsSiteStory top dc s → IsIdle top dc s → HasStory top dc s journals → IsRunOf top journals events
        → AnswersLocally top (run top events) dc }
    ensures ended { (top : TopologyValue) (dc : ℕ) (s : Story) (journals : ℕ → List ActorEvent) (events : List RunEvent)
        (node number : ℕ) (o : Op)
        → IsSiteStory top dc s → IsIdle top dc s → HasStory top dc s journals → IsRunOf top journals events
        → is_session top node ≡ true → is_here top dc node ≡ true → ((run top events).sessions node).home ≡ dc
        → op_at s node number ≡ Some o → IsLocal o → (r : Outcome) × HasEnded s node number o r }
{}
