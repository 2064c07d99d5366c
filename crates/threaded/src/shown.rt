//! Laws of what seats show: whether their journals are a run is told by a comparison of what is shown.
ghost use Rattle.std.specs.Prelude.{◌<◌, ◌↔◌, ℕ};
ghost use Rattle.messages.specs.Topology.{TopologyValue, node_count};
ghost use Rattle.world.specs.Journals.{DoFit};
ghost use Rattle.threaded.specs.OneRun.{DoLinksMatch};
ghost use Rattle.actors.specs.Shown.{Shown, AreTimed};
ghost use Rattle.threaded.specs.Shown.{DidCome, HaveSenders, DoShownMatch, IsTold};

/// Journals fit together, and so are a run, if each envelope that is shown carries the clock of the event that sent it, and on
/// each link the receipts are a beginning of what the sender shows. So it is where they are a beginning of what the sender's
/// journal sent. Does nothing; its contract is the law.
pub fn shown_journals_are_a_run()
    ensures fit { (top : TopologyValue) (shown : ℕ → Shown) → 0 < top.shards → ((node : ℕ) → node < node_count top → DidCome top node (shown node)) → HaveSenders top shown → ((node : ℕ) → node < node_count top → AreTimed (shown node)) → DoShownMatch top shown → DoFit top (λ n. (shown n).journal) }
    ensures links { (top : TopologyValue) (shown : ℕ → Shown) → 0 < top.shards → ((node : ℕ) → node < node_count top → DidCome top node (shown node)) → HaveSenders top shown → DoLinksMatch top (λ n. (shown n).journal) → DoFit top (λ n. (shown n).journal) }
{}

/// Where journals fit together, stamps stay apart along each, its replay sends what is shown, each envelope carries the clock of
/// the event that sent it, and on the links it is the same to look at what is shown and at what the journals send. Does nothing;
/// its contract is the law.
pub fn runs_are_as_shown()
    ensures told { (top : TopologyValue) (shown : ℕ → Shown) → 0 < top.shards → ((node : ℕ) → node < node_count top → DidCome top node (shown node)) → DoFit top (λ n. (shown n).journal) → (node : ℕ) → node < node_count top → IsTold top node (shown node) }
    ensures timed { (top : TopologyValue) (shown : ℕ → Shown) → 0 < top.shards → ((node : ℕ) → node < node_count top → DidCome top node (shown node)) → DoFit top (λ n. (shown n).journal) → (node : ℕ) → node < node_count top → AreTimed (shown node) }
    ensures alike { (top : TopologyValue) (shown : ℕ → Shown) → 0 < top.shards → ((node : ℕ) → node < node_count top → DidCome top node (shown node)) → DoFit top (λ n. (shown n).journal) → DoShownMatch top shown ↔ DoLinksMatch top (λ n. (shown n).journal) }
{}

/// So a comparison of what is shown tells exactly whether the links match. Does nothing; its contract is the law.
pub fn comparison_tells_links()
    ensures { (top : TopologyValue) (shown : ℕ → Shown) → 0 < top.shards → ((node : ℕ) → node < node_count top → DidCome top node (shown node)) → HaveSenders top shown → (((node : ℕ) → node < node_count top → AreTimed (shown node)) × DoShownMatch top shown) ↔ DoLinksMatch top (λ n. (shown n).journal) }
{}
