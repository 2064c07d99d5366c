//! The sessions of a site, each for the connection at a place.
ghost use Rattle.std.specs.Prelude.{◌≡◌, ◌⊎◌, ◌<◌, ◌++◌, ◌∷◌, [], ℕ, List, All, true, false, Some, None, Ok, IfOk, OnOk, IfErr, OnErr, IfSome, length, slice_get};
ghost use Rattle.messages.specs.Topology.{is_topology};
ghost use Rattle.site.specs.Story.{Happening, Heard, may_come};
ghost use Rattle.site.specs.Turns.{goes_on, HasGiven};
ghost use Rattle.site_ledger.specs.declared.entry.Entry.TheVariants.{Met};
ghost use Rattle.durable_site.specs.Logged.{NotesToo};
ghost use Rattle.site_port.specs.Ends.{GoesOnWith, HasTurns, HasStopped};
ghost use Rattle.site_port.specs.Collecting.{clocks_of, HasCollected, HasBrokenOff};
ghost use Rattle.site_port.specs.Port.{sessions_of, port_of, kept_of, is_batch as writes, AreLeft, Asks, IsItsEnd, IsDoing};

use crate::asking::{Begun, ask};
use crate::collecting::{clocks_here, collect_all};
use crate::leaving::leave_all;
use crate::recalling::take_end;
use crate::turns::take_turns;
use crate::waiting::{Late, Waiting};
use actors::Machine;
use disk::Disk;
use durable_site::DurableSite;
use logical_time::{Fault, Node, Time};
use messages::{Envelope, Op, Outcome, Topology};
use readiness::SharedPort;
use std::alloc::Global;
use std::marker::Model;

/// The site of a data centre, whose sessions answer the connections at places: that at a place asks as the session of its index
/// among those that are here. The next connection at a place goes on with what that session did before. It must be closed.
pub struct SiteSessions<M: Machine, D: Disk> {
    alloc: Global,
    site: DurableSite<M, D>,
    sessions: Vec<Node>,
    waiting: Vec<Option<Waiting>>,
    late: Vec<Late>,
    behind: bool,
}

impl<M: Machine, D: Disk> Model for SiteSessions<M, D> {
    ghost use Rattle.site_port.specs.Port.{SessionsValue, Holds};

    ghost Value = { SessionsValue D };

    ghost view = { λ p. record { site = p.site; waiting = p.waiting.items; late = p.late.items; behind = p.behind } };

    ghost invariant = { λ p. Holds p.site.site p.sessions.items p.waiting.items p.late.items };
}

// Whether it writes.
fn is_batch(op: &Op) -> bool
    ensures { result ≡ writes op.now }
{
    matches!(op, Op::Batch(_))
}

// The sessions that are here, in the order of their nodes.
fn sessions_here<M: Machine, D: Disk>(
    alloc: Global,
    site: &DurableSite<M, D>,
) -> Result<Vec<Node>, Fault>
    ensures made { IfOk result (λ list. list.items ≡ sessions_of site.now.site.top site.now.site.dc) }
    ensures memory { IfErr result (λ e. e ≡ Fault.Memory) }
{
    let topology = site.topology();
    let mut here = Vec::new(alloc);
    for index in 0..topology.homes().len() {
        let node = topology.session_node(index as u16);
        if site.has_session(node) {
            here.push(node)?;
        }
    }
    Ok(here)
}

// So many places where nothing is open.
fn free_places(alloc: Global, count: usize) -> Result<Vec<Option<Waiting>>, Fault>
    ensures made { IfOk result (λ waiting. (length waiting.items ≡ count) × All (λ w. w ≡ None) waiting.items) }
    ensures memory { IfErr result (λ e. e ≡ Fault.Memory) }
{
    let mut waiting = Vec::new(alloc);
    for _place in 0..count {
        waiting.push(None)?;
    }
    Ok(waiting)
}

impl<M: Machine, D: Disk + Drop> SiteSessions<M, D> {
    /// The port of this site. What a session of it submitted before and hasn't ended yet isn't awaited any more. Refused with `Memory`; then
    /// the site is closed.
    pub fn new(alloc: Global, site: DurableSite<M, D>) -> Result<SiteSessions<M, D>, Fault>
        ensures made { IfOk result (λ p. (p.site ≡ site) × (p.late ≡ []) × (p.behind ≡ false) × All (λ w. w ≡ None) p.waiting) }
        ensures places { IfOk result (λ p. length p.waiting ≡ length (sessions_of site.site.top site.site.dc)) }
        ensures memory { IfErr result (λ e. e ≡ Fault.Memory) }
    {
        let sessions = match sessions_here(alloc, &site) {
            Ok(sessions) => sessions,
            Err(fault) => {
                site.close();
                return Err(fault);
            }
        };
        match free_places(alloc, sessions.len()) {
            Ok(waiting) => Ok(SiteSessions {
                alloc,
                site,
                sessions,
                waiting,
                late: Vec::new(alloc),
                behind: false,
            }),
            Err(fault) => {
                site.close();
                Err(fault)
            }
        }
    }
}

impl<M: Machine, D: Disk> SiteSessions<M, D> {
    /// How many places there are: one for each session that is here.
    pub fn places(&self) -> usize
        ensures { result ≡ length self.now.waiting }
    {
        self.waiting.len()
    }

    /// From now on batches are refused with `Behind`, or no longer.
    pub fn refuse_batches(&mut self, behind: bool)
        ensures { self.new ≡ record self.old { behind = behind } }
    {
        self.behind = behind;
    }

    /// Whether something that the session at a place submitted has not been answered; not so past the last place.
    pub fn is_open(&self, place: usize) -> bool
        ensures yes { result ≡ true → (w : Waiting) × (slice_get self.now.waiting place ≡ Some (Some w)) }
        ensures no { result ≡ false → (w : Waiting) → slice_get self.now.waiting place ≡ Some (Some w) → ⊥ }
    {
        matches!(self.waiting.get(place), Some(Some(_)))
    }

    /// Who stood at these places is gone. Who comes there is told nothing of what was asked before: what is open there ends unheard, and is
    /// answered with Busy until then, also where the same is asked for. A place past the last one is left out. Linear in these.
    pub fn leave(&mut self, places: &[usize])
        ensures left { AreLeft places.now self.old.waiting self.new.waiting }
        ensures stays { self.new ≡ record self.old { waiting = self.new.waiting } }
    {
        leave_all(&mut self.waiting, places);
    }

    /// Takes so many turns of the site at most, until nothing waits. Costs what they do. Refused as a turn is.
    pub fn turn(&mut self, most: u64) -> Result<(), Fault>
        ensures took { OnOk result (HasTurns None most self.old.site.site self.old.late None self.new.site.site self.new.late) }
        ensures sound { OnOk result (self.old.site.site.sound ≡ true → self.new.site.site.sound ≡ true) }
        ensures stopped { IfErr result (λ e. HasStopped M.refuses None self.old.site.site self.old.late e self.new.site.site self.new.late) }
        ensures stays { (self.new.waiting ≡ self.old.waiting) × (self.new.behind ≡ self.old.behind) }
        ensures kept { kept_of self.new ≡ kept_of self.old }
    {
        let _none = take_turns(self.alloc, &mut self.site, &mut self.late, &None, most)?;
        Ok(())
    }

    /// The clocks of the shards that are here, in the order of their nodes; where one is spent, the last time that there is. Refused
    /// with `Memory` alone.
    pub fn clocks(&self) -> Result<Vec<Time>, Fault>
        ensures clocks { IfOk result (λ list. list.items ≡ clocks_of self.now.site.site) }
        ensures memory { IfErr result (λ e. e ≡ Fault.Memory) }
    {
        clocks_here(self.alloc, &self.site)
    }

    /// Each shard that is here, in the order of their nodes, collects up to the time at its index among these. One stays as it is
    /// where it has none, where memory is refused, and where its machine refuses it. What a collection ended, which is nothing in each
    /// run, is kept. Costs what the collections do. Refused with `StrangerEnd` where the site isn't sound, or is no longer; then the
    /// rest stay as they are.
    pub fn collect(&mut self, times: &[Time]) -> Result<(), Fault>
        ensures collected { OnOk result (HasCollected times.now self.old.site.site self.old.late self.new.site.site self.new.late) }
        ensures sound { OnOk result (self.old.site.site.sound ≡ true → self.new.site.site.sound ≡ true) }
        ensures broken { OnErr result (HasBrokenOff times.now self.old.site.site self.old.late self.new.site.site self.new.late) }
        ensures stranger { IfErr result (λ e. e ≡ Fault.StrangerEnd) }
        ensures stays { (self.new.waiting ≡ self.old.waiting) × (self.new.behind ≡ self.old.behind) }
        ensures kept { kept_of self.new ≡ kept_of self.old }
    {
        collect_all(self.alloc, &mut self.site, &mut self.late, times)
    }

    /// An envelope comes from the site of another data centre, as `Site::hear` says.
    pub fn hear(&mut self, from: u16, envelope: Envelope) -> Result<(), (Fault, Envelope)>
        ensures heard { OnOk result (port_of self.new ≡ record (port_of self.old) { site = goes_on self.old.site.site (Heard from envelope) }) }
        ensures allowed { OnOk result ((self.old.site.site.sound ≡ true) × (may_come self.old.site.site.top self.old.site.site.dc from envelope ≡ true)) }
        ensures same { OnErr result (port_of self.new ≡ port_of self.old) }
        ensures fault { IfErr result (λ e. (e.0 ≡ Fault.Memory) ⊎ ((e.0 ≡ Fault.StrangerEnd) × ((self.old.site.site.sound ≡ false) ⊎ (may_come self.old.site.site.top self.old.site.site.dc from envelope ≡ false)))) }
        ensures back { IfErr result (λ e. e.1 ≡ envelope) }
        ensures kept { kept_of self.new ≡ kept_of self.old }
    {
        self.site.hear(self.alloc, from, envelope)
    }

    /// The next envelope that is to go to another site, as `Site::give` says.
    pub fn give(&mut self) -> Result<Option<Envelope>, Fault>
        ensures given { IfOk result (λ e. HasGiven self.old.site.site e self.new.site.site) }
        ensures sound { OnOk result (self.old.site.site.sound ≡ true) }
        ensures stays { self.new ≡ record self.old { site = record self.old.site { site = self.new.site.site } } }
        ensures same { OnErr result (self.new ≡ self.old) }
        ensures fault { IfErr result (λ e. (e ≡ Fault.Memory) ⊎ ((e ≡ Fault.StrangerEnd) × (self.old.site.site.sound ≡ false))) }
    {
        self.site.give(self.alloc)
    }

    /// The site of another data centre was met, and is this process: that is noted, as `DurableSite::note_met` says.
    pub fn note_met(&mut self, dc: u16, incarnation: &[u8; 16]) -> Result<(), Fault>
        ensures same { port_of self.new ≡ port_of self.old }
        ensures noted { OnOk result (NotesToo D.seen D.may_leave self.old.site.log (Met dc incarnation.now) self.new.site.log) }
        ensures memory { IfErr result (λ e. e ≡ Fault.Memory) }
        ensures kept { kept_of self.new ≡ kept_of self.old }
    {
        self.site.note_met(self.alloc, dc, incarnation)
    }

    // A request of the session at a place where nothing is open.
    fn ask_anew(&mut self, place: usize, node: Node, op: Op) -> Result<Outcome, Fault>
        requires session { slice_get (sessions_of self.old.site.site.top self.old.site.site.dc) place ≡ Some node }
        requires free { slice_get self.old.waiting place ≡ Some None }
        ensures asks { Asks M.refuses place node (port_of self.old) op result (port_of self.new) }
        ensures ends { IsItsEnd place (port_of self.new) op result }
        ensures on { (happened : List Happening) × All IsDoing happened × GoesOnWith self.old.site.site happened self.new.site.site }
        ensures kept { kept_of self.new ≡ kept_of self.old }
    {
        if self.behind && is_batch(&op) {
            return Err(Fault::Behind);
        }
        let Begun { told, waiting } = ask(self.alloc, &mut self.site, &mut self.late, node, op)?;
        let fault = match told {
            Ok(Some(outcome)) => return Ok(outcome),
            Ok(None) => Fault::Busy,
            Err(fault) => fault,
        };
        self.waiting[place] = Some(waiting);
        Err(fault)
    }

    /// The site.
    pub fn site(&self) -> &DurableSite<M, D>
        ensures { result.now ≡ self.now.site }
    {
        &self.site
    }
}

impl<M: Machine, D: Disk + Drop> SiteSessions<M, D> {
    /// Ends the site, and gives up what isn't finished.
    pub fn close(self) {
        let SiteSessions {
            alloc: _,
            site,
            sessions: _,
            waiting: _,
            late: _,
            behind: _,
        } = self;
        site.close();
    }
}

impl<M: Machine, D: Disk> SharedPort for SiteSessions<M, D> {
    ghost use Rattle.std.specs.Prelude.{ℕ, Option};
    ghost use Rattle.durable_site.specs.declared.identity.Identity.{Identity};
    ghost use Rattle.site_port.specs.Port.{PortValue, Settles, port_of, kept_of, IsStep};

    ghost State = { PortValue };

    ghost seen = { port_of };

    ghost steps = { IsStep M.refuses };

    ghost Kept = { Option (ℕ × D) × Identity };

    ghost kept = { kept_of };

    ghost settles = { Settles D.seen D.may_leave D.failed D.moment D.left_since };

    fn ask(&mut self, place: usize, op: Op) -> Result<Outcome, Fault> {
        if place >= self.sessions.len() {
            return Err(Fault::Busy);
        }
        if !self.site.is_sound() {
            return Err(Fault::StrangerEnd);
        }
        let node = self.sessions[place];
        let Some(waiting) = self.waiting[place].take() else {
            return self.ask_anew(place, node, op);
        };
        let Some(outcome) = take_end(&mut self.late, node, waiting.number) else {
            self.waiting[place] = Some(waiting);
            return Err(Fault::Busy);
        };
        if waiting.is_for(&op) {
            return Ok(outcome);
        }
        self.ask_anew(place, node, op)
    }

    /// All that happened at the site is on the disk for good, where it keeps a log.
    fn settle(&mut self) -> Result<(), Fault> {
        self.site.settle(self.alloc)
    }
}
