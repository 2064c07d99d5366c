//! The site of another data centre, as it is known here.
ghost use Rattle.std.specs.Prelude.{◌≡◌, ◌+◌, ◌≤◌, ◌<◌, IfOk, IfSome, IfNone, OnOk, OnErr, None, true, [], is_some};
ghost use Rattle.peers.specs.Ends.{bytes_of, next_of, put, acknowledged};
ghost use Rattle.meeting.specs.Peers.{is_one_behind, KeepsEnds, HasTaken, HasDropped};

use crate::call::Call;
use hello::{Expected, Secret};
use linking::{Heard, Said, Trouble};
use logical_time::Fault;
use messages::Envelope;
use parcels::read_parcel;
use peers::{Inbound, Outbound};
use std::alloc::Global;
use std::net::SocketAddr;

/// How many bytes are put before a socket at once, at most.
const AHEAD: usize = 262_144;

/// How long after a call failed the next one is made, in milliseconds: at first, and at most.
const PAUSE: u64 = 1_000;

const LONGEST: u64 = 30_000;

/// Another site that is to be met.
#[derive(Drop)]
pub struct Other {
    /// Its data centre.
    pub dc: u16,
    /// Where it listens for others.
    pub address: SocketAddr,
    /// How many of its parcels were taken before, by the process whose log this one goes on with.
    pub taken: u64,
}

/// The site of another data centre.
#[derive(Drop)]
pub struct Peer {
    pub(crate) dc: u16,
    pub(crate) address: SocketAddr,
    outbound: Outbound,
    // The connection that this site made, on which its parcels go.
    pub(crate) calling: Option<Call>,
    // The number of the parcel that goes next on it, once the other end said from where it goes on.
    next: Option<u64>,
    // When it is called again, and how long after that.
    pub(crate) call_at: u64,
    pause: u64,
    inbound: Inbound,
    // The connection that the other site made, on which its parcels come.
    pub(crate) answering: Option<Call>,
    // Below which number all is kept here for good, so that it may be told so.
    confirmed: u64,
    // What it was told last was taken.
    told: u64,
    refused: bool,
}

impl Peer {
    /// A site that wasn't met yet.
    pub(crate) fn new(alloc: Global, other: &Other) -> Peer
        ensures dc { result.dc ≡ other.now.dc }
        ensures outbound { result.outbound ≡ record { first = 0; kept = [] } }
        ensures inbound { result.inbound ≡ other.now.taken }
    {
        Peer {
            dc: other.dc,
            address: other.address,
            outbound: Outbound::new(alloc),
            calling: None,
            next: None,
            call_at: 0,
            pause: PAUSE,
            inbound: Inbound::after(other.taken),
            answering: None,
            confirmed: other.taken,
            told: 0,
            refused: false,
        }
    }

    /// Its data centre.
    pub fn dc(&self) -> u16
        ensures { result ≡ self.now.dc }
    {
        self.dc
    }

    /// How many bytes of parcels wait for it.
    pub fn behind(&self) -> u64
        ensures { result ≡ bytes_of self.now.outbound.kept }
    {
        self.outbound.bytes()
    }

    /// Whether parcels go to it now.
    pub fn is_called(&self) -> bool
        ensures { result ≡ is_some self.now.next }
    {
        self.next.is_some()
    }

    /// Whether parcels come from it now.
    pub fn is_heard(&self) -> bool {
        match &self.answering {
            Some(call) => call.is_met() && !call.is_over(),
            None => false,
        }
    }

    /// Keeps a parcel for it.
    pub(crate) fn put(&mut self, parcel: Vec<u8>) -> Result<(), Fault>
        ensures kept { OnOk result ((self.new.outbound ≡ put parcel.items self.old.outbound) × (self.new.inbound ≡ self.old.inbound)) }
        ensures stays { OnErr result (self.new ≡ self.old) }
    {
        let _number = self.outbound.put(parcel)?;
        Ok(())
    }

    /// Nothing more is taken from it.
    pub(crate) fn refuse(&mut self)
        ensures refused { self.new.refused ≡ true }
        ensures unheard { self.new.answering ≡ None }
        ensures ends { KeepsEnds self.old self.new }
    {
        self.refused = true;
        self.answering = None;
    }

    /// It made this connection, and proved who it is: its parcels come on that.
    pub(crate) fn answer(&mut self, call: Call) -> Result<(), Fault>
        ensures ends { KeepsEnds self.old self.new }
    {
        if self.refused {
            return Ok(());
        }
        // it is there, so it is called at once
        self.call_at = 0;
        self.pause = PAUSE;
        let mut call = call;
        self.told = self.confirmed;
        call.say_taken(self.told)?;
        self.answering = Some(call);
        Ok(())
    }

    /// All that was taken from it is kept here for good: it may be told so.
    pub(crate) fn confirm(&mut self)
        ensures ends { KeepsEnds self.old self.new }
    {
        self.confirmed = self.inbound.next();
    }

    /// Whether it should be called now.
    pub(crate) fn is_due(&self, time: u64) -> bool {
        self.calling.is_none() && time >= self.call_at
    }

    // The call that was made is over: the next one is made later, and later each time.
    fn hang_up(&mut self, time: u64)
        ensures ends { KeepsEnds self.old self.new }
    {
        self.calling = None;
        self.next = None;
        self.call_at = time.saturating_add(self.pause);
        self.pause = self.pause.saturating_mul(2).min(LONGEST);
    }

    // It said that all below this number were taken.
    #[tactic(auto, using(crate::proofs::Drops::drops_told))]
    fn acknowledge(&mut self, below: u64)
        ensures heard { below ≤ next_of self.old.outbound → self.new.outbound ≡ acknowledged below self.old.outbound }
        ensures stranger { next_of self.old.outbound < below → self.new.outbound ≡ self.old.outbound }
        ensures dropped { HasDropped self.old.outbound self.new.outbound }
        ensures other { self.new.inbound ≡ self.old.inbound }
    {
        if self.outbound.acknowledge(below).is_err() {
            if let Some(call) = &mut self.calling {
                call.end();
            }
            return;
        }
        if self.next.is_none() {
            self.next = Some(below);
            self.pause = PAUSE;
        }
    }

    // What is heard on the call that this site made, one thing.
    fn listen_once(&mut self, own: &Expected, secret: &Secret) -> Result<Option<Heard>, Trouble>
        ensures ends { KeepsEnds self.old self.new }
    {
        match &mut self.calling {
            Some(call) => call.next(own, secret),
            None => Ok(None),
        }
    }

    /// What is heard on the call that this site made. Gives the process that was met there, if one was now.
    #[tactic(auto, using(crate::proofs::Drops::drops_none, crate::proofs::Drops::drops_more))]
    pub(crate) fn listen(
        &mut self,
        own: &Expected,
        secret: &Secret,
    ) -> Result<Option<[u8; 16]>, Trouble>
        ensures dropped { HasDropped self.old.outbound self.new.outbound }
        ensures other { self.new.inbound ≡ self.old.inbound }
    {
        let mut met = None;
        for _heard in 0..AHEAD {
            match self.listen_once(own, secret)? {
                Some(Heard::Met { incarnation, .. }) => met = Some(incarnation),
                Some(Heard::Said(Said::Taken(below))) => self.acknowledge(below),
                Some(Heard::Said(_) | Heard::Greeted { .. }) => {}
                None => return Ok(met),
            }
        }
        Ok(met)
    }

    // Puts the next parcel behind what is to be written, if there is one and there is room.
    fn fill_once(&mut self) -> Result<bool, Fault>
        ensures ends { KeepsEnds self.old self.new }
    {
        let (Some(call), Some(number)) = (&mut self.calling, self.next) else {
            return Ok(false);
        };
        if call.is_over() || call.waiting() >= AHEAD {
            return Ok(false);
        }
        match self.outbound.parcel(number) {
            Some(parcel) => {
                call.say_parcel(number, parcel)?;
                self.next = number.checked_add(1);
                Ok(true)
            }
            None => Ok(false),
        }
    }

    /// Writes what waits for it, as far as its connections take it, and makes up its mind about those that are over.
    pub(crate) fn write(&mut self, time: u64) -> Result<(), Fault>
        ensures ends { KeepsEnds self.old self.new }
    {
        for _parcel in 0..AHEAD {
            if !self.fill_once()? {
                break;
            }
        }
        if let Some(call) = &mut self.calling {
            call.keep(time)?;
            call.write(time);
            if call.is_over() {
                self.hang_up(time);
            }
        }
        if let Some(call) = &mut self.answering {
            if self.confirmed > self.told {
                call.say_taken(self.confirmed)?;
                self.told = self.confirmed;
            }
            call.keep(time)?;
            call.write(time);
            if call.is_over() {
                self.answering = None;
            }
        }
        Ok(())
    }

    /// Reads what came on its connections.
    pub(crate) fn read(&mut self, buffer: &mut [u8], time: u64) -> Result<(), Fault>
        ensures ends { KeepsEnds self.old self.new }
    {
        if let Some(call) = &mut self.calling {
            call.read(buffer, time)?;
        }
        if let Some(call) = &mut self.answering {
            call.read(buffer, time)?;
        }
        Ok(())
    }

    // The next parcel that came from it, whether it came before or not.
    fn hear_once(&mut self, own: &Expected, secret: &Secret) -> Result<Option<Said>, Fault>
        ensures ends { KeepsEnds self.old self.new }
    {
        let Some(call) = &mut self.answering else {
            return Ok(None);
        };
        match call.next(own, secret) {
            Ok(Some(Heard::Said(said))) => Ok(Some(said)),
            Ok(Some(Heard::Met { .. } | Heard::Greeted { .. })) | Ok(None) => Ok(None),
            Err(Trouble::Refused(fault)) => Err(fault),
            Err(_) => Ok(None),
        }
    }

    // Takes a parcel that came: none where it came before, or where one before it is missing, or it is no envelope. What is taken has
    // the number that is wanted next, and is counted.
    fn take(&mut self, alloc: Global, number: u64, bytes: &[u8]) -> Result<Option<Envelope>, Fault>
        ensures taken { IfOk result (λ e. IfSome e (λ _. (number ≡ self.old.inbound) × HasTaken self.old self.new)) }
        ensures not_taken { IfOk result (λ e. IfNone e (KeepsEnds self.old self.new)) }
        ensures stays { OnErr result (self.new ≡ self.old) }
    {
        if number < self.inbound.next() {
            return Ok(None);
        }
        let envelope = match read_parcel(alloc, bytes) {
            Ok(envelope) => envelope,
            Err(Fault::Memory) => return Err(Fault::Memory),
            Err(_) => {
                self.refuse();
                return Ok(None);
            }
        };
        match self.inbound.take(number) {
            Ok(true) => Ok(Some(envelope)),
            Ok(false) => Ok(None),
            Err(_) => {
                self.refuse();
                Ok(None)
            }
        }
    }

    /// The next envelope that came from it.
    pub(crate) fn next(
        &mut self,
        alloc: Global,
        own: &Expected,
        secret: &Secret,
    ) -> Result<Option<Envelope>, Fault>
        ensures taken { IfOk result (λ e. IfSome e (λ _. HasTaken self.old self.new)) }
        ensures not_taken { IfOk result (λ e. IfNone e (KeepsEnds self.old self.new)) }
        ensures refused { OnErr result (KeepsEnds self.old self.new) }
    {
        for _said in 0..AHEAD {
            let Some(said) = self.hear_once(own, secret)? else {
                return Ok(None);
            };
            if let Said::Parcel { number, bytes } = said {
                if let Some(envelope) = self.take(alloc, number, bytes.as_slice())? {
                    return Ok(Some(envelope));
                }
            }
        }
        Ok(None)
    }
}

/// Whether more bytes than these wait for one of the sites.
pub(crate) fn is_behind(peers: &[Peer], most: u64) -> bool
    ensures { result ≡ is_one_behind peers.now most }
{
    peers.iter().any(|peer| peer.behind() > most)
}
