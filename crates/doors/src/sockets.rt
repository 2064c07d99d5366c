//! A port of this machine, as a door.
ghost use Rattle.std.specs.Prelude.{◌≡◌, ◌++◌, ℕ, List, OnOk};

use crate::doorway::{Accepted, Doorway};
use crate::socket::ReadySocket;
use logical_time::Fault;
use mio::net::TcpListener;
use mio::{Events, Interest, Poll, Registry, Token};
use std::alloc::{AllocError, Global};
use std::io::ErrorKind;
use std::net::{Ipv4Addr, Net, SocketAddr};
use std::time::Duration;

// How many events a wait tells, at most.
const EVENTS: usize = 64;

// What the listener is known by; places are below.
const LISTENER: usize = usize::MAX;

/// A port that is listened on, and the system's word of which sockets are ready. Of what the system tells nothing is known.
#[derive(Drop)]
pub struct Sockets {
    poll: Poll,
    events: Events,
    listener: TcpListener,
}

// Notes that a place is ready, or that somebody came.
fn note(place: usize, ready: &mut Vec<usize>, came: &mut bool) -> Result<(), AllocError>
    ensures { OnOk result ((told : List ℕ) × (ready.new.items ≡ ready.old.items ++ told)) }
{
    if place == LISTENER {
        *came = true;
        return Ok(());
    }
    ready.push(place)?;
    Ok(())
}

impl Sockets {
    /// Listens on this port of 127.0.0.1, or on some free port for 0. Refused with `ReadFailed` where it can't, and with `Memory`.
    pub fn open<R: Net>(rt: &R, alloc: Global, port: u16) -> Result<Sockets, Fault> {
        Sockets::open_at(rt, alloc, SocketAddr::from((Ipv4Addr::LOCALHOST, port)))
    }

    /// Listens at this address. Refused as `open` is.
    pub fn open_at<R: Net>(rt: &R, alloc: Global, address: SocketAddr) -> Result<Sockets, Fault> {
        let (Ok(poll), Ok(mut listener)) = (Poll::new(rt), TcpListener::bind(rt, address)) else {
            return Err(Fault::ReadFailed);
        };
        let registered = poll
            .registry()
            .register(&mut listener, Token(LISTENER), Interest::READABLE);
        if registered.is_err() {
            return Err(Fault::ReadFailed);
        }
        Ok(Sockets {
            poll,
            events: Events::with_capacity(alloc, EVENTS)?,
            listener,
        })
    }

    /// The system's list of what is watched, for sockets that aren't of clients: a wait ends where one of them is ready, which is
    /// told as a place that there isn't. Refused with `ReadFailed` where the system gives none.
    pub fn registry(&self) -> Result<Registry, Fault> {
        match self.poll.registry().try_clone() {
            Ok(registry) => Ok(registry),
            Err(_) => Err(Fault::ReadFailed),
        }
    }

    /// The port that it listens on; none where the system doesn't say.
    pub fn port(&self) -> Option<u16> {
        match self.listener.local_addr() {
            Ok(address) => Some(address.port()),
            Err(_) => None,
        }
    }
}

impl Doorway<ReadySocket> for Sockets {
    ghost steps = { λ d line e. Unit {0} };

    ghost tells = { λ d told. Unit {0} };

    ghost announces = { λ d. Unit {0} };

    ghost nobody = { λ d. Unit {0} };

    ghost refuses = { λ d. Unit {0} };

    fn wait(&mut self, patience: Option<Duration>, ready: &mut Vec<usize>) -> Result<bool, Fault> {
        if self.poll.poll(&mut self.events, patience).is_err() {
            return Err(Fault::ReadFailed);
        }
        let mut came = false;
        for event in &self.events {
            let Token(place) = event.token();
            note(place, ready, &mut came)?;
        }
        Ok(came)
    }

    /// A socket is registered once, for reading and writing, edge-triggered. One that is closed is no longer watched.
    fn accept(&mut self, place: usize) -> Accepted<ReadySocket> {
        match self.listener.accept() {
            Ok((mut stream, _)) => {
                let interest = Interest::READABLE | Interest::WRITABLE;
                let registered = self
                    .poll
                    .registry()
                    .register(&mut stream, Token(place), interest);
                match registered {
                    Ok(()) => Accepted::Line(ReadySocket::new(stream)),
                    Err(_) => Accepted::Lost,
                }
            }
            Err(error) if error.kind() == ErrorKind::WouldBlock => Accepted::Nobody,
            // no descriptor is left, or whoever came has gone
            Err(_) => Accepted::Failed,
        }
    }

    fn failed(&self, line: &ReadySocket) -> Option<Fault> {
        line.failed()
    }
}
