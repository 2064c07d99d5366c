//! All other sites, and those who call here and weren't met yet.
ghost use Rattle.std.specs.Prelude.{◌≡◌};
ghost use Rattle.meeting.specs.Peers.{is_one_behind};

use crate::call::Call;
use crate::peer::{Other, Peer, is_behind};
use crate::watcher::{News, Watcher};
use hello::{Expected, Secret};
use linking::{Channel, Heard, Trouble};
use logical_time::Fault;
use messages::Envelope;
use mio::net::{TcpListener, TcpStream};
use mio::{Interest, Registry, Token};
use parcels::write_parcel;
use std::alloc::Global;
use std::net::{Net, SocketAddr};
use std::random::RandomSource;
use ways::Ways;

/// What sockets of other sites are known by where a wait tells which are ready: there is no such place.
const TOKEN: usize = usize::MAX - 1;

/// How many who call here may be unknown at once.
const NEWCOMERS: usize = 8;

/// For how many milliseconds one who calls here may be unknown.
const PATIENCE: u64 = 5_000;

/// After how many milliseconds a site that couldn't be called is called again.
const LATER: u64 = 1_000;

/// How often it is told what waits for whom, in milliseconds.
const COUNTED: u64 = 10_000;

/// How many bytes are read at once, at most.
const PIECE: usize = 65_536;

/// What a site is to those that it meets.
#[derive(Drop)]
pub struct Own {
    /// What it compares hellos with.
    pub expected: Expected,
    /// What it shares with the others.
    pub secret: Secret,
    /// How many bytes may wait for a site before batches are refused.
    pub behind: u64,
}

/// The sockets by which this site meets others.
#[derive(Drop)]
pub struct Meeting<'a, R: Net + RandomSource, N: Watcher + Drop> {
    rt: &'a R,
    alloc: Global,
    registry: Registry,
    listener: TcpListener,
    own: Own,
    peers: Vec<Peer>,
    newcomers: Vec<(Call, u64)>,
    // Whose parcels are looked for next.
    hand: usize,
    buffer: Vec<u8>,
    watcher: N,
    // When it was told last what waits for whom, in milliseconds.
    counted: u64,
}

impl<'a, R: Net + RandomSource, N: Watcher + Drop> Meeting<'a, R, N> {
    /// Listens at an address for other sites, and knows these. Nobody is called yet. Refused with `ReadFailed` where it can't listen,
    /// and with `Memory`.
    pub fn open(
        rt: &'a R,
        alloc: Global,
        registry: Registry,
        address: SocketAddr,
        own: Own,
        others: &[Other],
        watcher: N,
    ) -> Result<Meeting<'a, R, N>, Fault> {
        let Ok(mut listener) = TcpListener::bind(rt, address) else {
            return Err(Fault::ReadFailed);
        };
        if registry
            .register(&mut listener, Token(TOKEN), Interest::READABLE)
            .is_err()
        {
            return Err(Fault::ReadFailed);
        }
        let mut peers = Vec::new(alloc);
        for other in others {
            peers.push(Peer::new(alloc, other))?;
        }
        let mut buffer = Vec::new(alloc);
        buffer.resize(PIECE, 0)?;
        Ok(Meeting {
            rt,
            alloc,
            registry,
            listener,
            own,
            peers,
            newcomers: Vec::new(alloc),
            hand: 0,
            buffer,
            watcher,
            counted: 0,
        })
    }

    /// The other sites.
    pub fn peers(&self) -> &[Peer]
        ensures { result.now ≡ self.now.peers.items }
    {
        &self.peers
    }

    /// Whether each other site was met once, by what it called or by being called.
    pub fn have_met(&self) -> bool {
        self.peers.iter().all(|peer| self.was_met(peer.dc))
    }

    /// The process of the site of each data centre, by its number, that was met; none where none was.
    pub fn met(&self) -> &[Option<[u8; 16]>]
        ensures { result.now ≡ self.now.own.expected.met.items }
    {
        &self.own.expected.met
    }

    fn was_met(&self, dc: u16) -> bool {
        matches!(self.own.expected.met.get(usize::from(dc)), Some(Some(_)))
    }

    // What is drawn for one connection. Refused with `ReadFailed` where nothing is drawn.
    fn nonce(&self) -> Result<[u8; 32], Fault> {
        let mut nonce = [0; 32];
        match self.rt.fill_bytes(&mut nonce) {
            Ok(()) => Ok(nonce),
            Err(_) => Err(Fault::ReadFailed),
        }
    }

    // Watches a connection. Gives whether that can be.
    fn watch(&self, stream: &mut TcpStream) -> bool {
        let interest = Interest::READABLE | Interest::WRITABLE;
        self.registry
            .register(stream, Token(TOKEN), interest)
            .is_ok()
    }

    // Takes one who calls here. Gives whether there may be more.
    fn accept_once(&mut self, time: u64) -> Result<bool, Fault> {
        let Ok((mut stream, _)) = self.listener.accept() else {
            return Ok(false);
        };
        if self.newcomers.len() >= NEWCOMERS || !self.watch(&mut stream) {
            return Ok(true);
        }
        let nonce = self.nonce()?;
        let channel = Channel::accepting(self.alloc, nonce);
        self.newcomers
            .push((Call::new(stream, channel, time), time))?;
        Ok(true)
    }

    // Calls a site that is to be called now.
    fn call(&mut self, index: usize, time: u64) -> Result<(), Fault> {
        if index >= self.peers.len() || !self.peers[index].is_due(time) {
            return Ok(());
        }
        let nonce = self.nonce()?;
        let (dc, address) = (self.peers[index].dc, self.peers[index].address);
        let channel = Channel::connecting(self.alloc, &self.own.expected, dc, nonce)?;
        if let Ok(mut stream) = TcpStream::connect(self.rt, address)
            && self.watch(&mut stream)
        {
            self.peers[index].calling = Some(Call::new(stream, channel, time));
            return Ok(());
        }
        self.peers[index].call_at = time.saturating_add(LATER);
        Ok(())
    }

    // Remembers which process the site of a data centre is.
    fn remember(&mut self, dc: u16, incarnation: [u8; 16]) {
        if !self.was_met(dc) {
            self.watcher.came(News::Met(dc));
        }
        if let Some(met) = self.own.expected.met.get_mut(usize::from(dc)) {
            *met = Some(incarnation);
        }
    }

    // Tells what waits for whom, each so often.
    fn count(&mut self, time: u64) {
        if time.saturating_sub(self.counted) < COUNTED {
            return;
        }
        self.counted = time;
        for peer in &self.peers {
            if peer.behind() > 0 {
                self.watcher.came(News::Behind(peer.dc, peer.behind()));
            }
        }
    }

    // Hears one who calls here and is unknown. Gives whether it is still.
    fn greet(&mut self, mut call: Call, since: u64, time: u64) -> Result<(), Fault> {
        call.read(&mut self.buffer, time)?;
        let heard = call.hear(&self.own.expected, &self.own.secret);
        call.write(time);
        match heard {
            Ok(Some(Heard::Met { dc, incarnation })) => {
                self.remember(dc, incarnation);
                for peer in &mut self.peers {
                    if peer.dc == dc {
                        return peer.answer(call);
                    }
                }
                Ok(())
            }
            Err(Trouble::Refused(fault)) => Err(fault),
            Err(trouble) => {
                self.watcher.came(News::Trouble(trouble));
                Ok(())
            }
            _ if call.is_over() || time.saturating_sub(since) > PATIENCE => Ok(()),
            _ => Ok(self.newcomers.push((call, since))?),
        }
    }

    // Hears all who call here and are unknown.
    fn greet_all(&mut self, time: u64) -> Result<(), Fault> {
        let newcomers = std::mem::replace(&mut self.newcomers, Vec::new(self.alloc));
        for (call, since) in newcomers {
            self.greet(call, since, time)?;
        }
        Ok(())
    }

    // Reads what came from a site, hears what it says of what was sent there, and writes what waits for it.
    fn attend(&mut self, index: usize, time: u64) -> Result<(), Fault> {
        let Some(peer) = self.peers.get_mut(index) else {
            return Ok(());
        };
        peer.read(&mut self.buffer, time)?;
        let heard = peer.listen(&self.own.expected, &self.own.secret);
        peer.write(time)?;
        let dc = peer.dc;
        match heard {
            Ok(Some(incarnation)) => {
                self.remember(dc, incarnation);
                Ok(())
            }
            Ok(None) => Ok(()),
            Err(Trouble::Refused(fault)) => Err(fault),
            Err(trouble) => {
                self.watcher.came(News::Trouble(trouble));
                Ok(())
            }
        }
    }

    // The next envelope that came from the site whose turn it is. Where none came, it is the turn of the one behind it.
    fn next_of_one(&mut self) -> Result<Option<(u16, Envelope)>, Fault> {
        if self.hand >= self.peers.len() {
            self.hand = 0;
        }
        let Some(peer) = self.peers.get_mut(self.hand) else {
            return Ok(None);
        };
        let dc = peer.dc;
        if let Some(envelope) = peer.next(self.alloc, &self.own.expected, &self.own.secret)? {
            return Ok(Some((dc, envelope)));
        }
        self.hand += 1;
        Ok(None)
    }
}

impl<R: Net + RandomSource, N: Watcher + Drop> Ways for Meeting<'_, R, N> {
    ghost steps = { λ w c v. Unit {0} };

    ghost behind = { λ w. is_one_behind w.peers.items w.own.behind };

    fn send(&mut self, to: u16, envelope: &Envelope) -> Result<(), Fault> {
        let parcel = write_parcel(self.alloc, envelope)?;
        for peer in &mut self.peers {
            if peer.dc == to {
                return peer.put(parcel);
            }
        }
        Err(Fault::StrangerEnd)
    }

    fn next(&mut self) -> Result<Option<(u16, Envelope)>, Fault> {
        for _peer in 0..self.peers.len() {
            if let Some(came) = self.next_of_one()? {
                return Ok(Some(came));
            }
        }
        Ok(None)
    }

    fn refuse(&mut self, from: u16) {
        self.watcher.came(News::Refused(from));
        for peer in &mut self.peers {
            if peer.dc == from {
                peer.refuse();
            }
        }
    }

    fn confirm(&mut self) {
        for peer in &mut self.peers {
            peer.confirm();
        }
    }

    fn is_behind(&self) -> bool {
        is_behind(&self.peers, self.own.behind)
    }

    fn exchange(&mut self, time: u64) -> Result<(), Fault> {
        for _caller in 0..NEWCOMERS {
            if !self.accept_once(time)? {
                break;
            }
        }
        self.greet_all(time)?;
        for index in 0..self.peers.len() {
            self.call(index, time)?;
            self.attend(index, time)?;
        }
        self.count(time);
        Ok(())
    }

    fn flush(&mut self, time: u64) -> Result<(), Fault> {
        for peer in &mut self.peers {
            peer.write(time)?;
        }
        Ok(())
    }
}
