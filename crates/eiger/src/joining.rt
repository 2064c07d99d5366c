//! The node of one data centre.
ghost use Rattle.std.specs.Prelude.{◌<◌, IfOk};
ghost use Rattle.eiger.specs.Answering.{HasStopped};

use crate::answering::opened;
use crate::keeping::{millis_since, tell_of};
use crate::refusing::{tell_homeless, tell_own_fault, tell_why, told_deaf, told_wrong};
use crate::serving::tell_port;
use crate::together::tell_all;
use crate::watching::Watch;
use command_line::Joining;
use doors::{Doorway, Sockets};
use durable_site::{DurableSite, Identity, Others};
use hello::{Expected, Secret};
use hosting::{Node, send_all};
use ledger::write_head;
use logical_time::Fault;
use meeting::{Meeting, Other, Own};
use messages::Topology;
use mio::Registry;
use program::{Buffered, Output, tell};
use readiness::SharedPort;
use sha2::{Digest, Sha256};
use site::Site;
use site_folder::{FileDisk, open_site};
use site_port::SiteSessions;
use sites_file::{SitesFile, read_sites};
use std::alloc::Global;
use std::net::SocketAddr;
use std::random::RandomSource;
use std::str;
use std::sync::Wait;
use std::time::{Duration, Instant};
use threaded::Actor;
use ways::Ways;

/// How long a round of a node waits at most, in milliseconds.
const LONGEST: u64 = 500;

/// How soon other sites are looked for again, in milliseconds.
const LOOK: u64 = 200;

// The whole file of this name. Refused with `ReadFailed`, of which it is told why, and with `Memory`.
fn bytes_of<E: Buffered>(
    rt: &HostRuntime,
    name: &str,
    errors: &mut Output<E>,
) -> Result<Vec<u8>, Fault> {
    let alloc = rt.alloc();
    let mut input = opened(rt, String::from_str(alloc, name)?);
    let bytes = input.read_all(alloc);
    if let Some(error) = &input.failure {
        tell_why(alloc, name, format!(in alloc; "{error}"), errors);
    }
    bytes
}

// Which process this is. Refused with `ReadFailed` where the system gives no chance, and that is told.
fn incarnation<E: Buffered>(rt: &HostRuntime, errors: &mut Output<E>) -> Result<[u8; 16], Fault> {
    let alloc = rt.alloc();
    let mut drawn = [0; 16];
    match rt.fill_bytes(&mut drawn) {
        Ok(()) => Ok(drawn),
        Err(error) => {
            tell_why(
                alloc,
                "the system's chance",
                format!(in alloc; "{error}"),
                errors,
            );
            Err(Fault::ReadFailed)
        }
    }
}

// The secret that the sites share. Refused with `Script` where it is shorter than 32 bytes, and that is told.
fn secret_of<E: Buffered>(
    rt: &HostRuntime,
    name: &str,
    errors: &mut Output<E>,
) -> Result<Secret, Fault> {
    match Secret::new(bytes_of(rt, name, errors)?) {
        Some(secret) => Ok(secret),
        None => Err(told_wrong(
            rt.alloc(),
            name,
            "it has fewer than 32 bytes",
            Fault::Script,
            errors,
        )),
    }
}

// What a node is asked for, as its files tell.
#[derive(Drop)]
struct Asked {
    sites: SitesFile,
    // That of the file of sites.
    digest: [u8; 32],
    secret: Secret,
}

// The sites that these bytes spell. Refused with `Script` where they spell none, and with `Memory`.
fn sites_in(alloc: Global, bytes: &[u8]) -> Result<SitesFile, Fault> {
    match str::from_utf8(bytes) {
        Ok(text) => read_sites(alloc, text),
        Err(_) => Err(Fault::Script),
    }
}

// The files that are named. Refused with `Script` where one isn't what it should be, and that is told.
fn asked_of<E: Buffered>(
    rt: &HostRuntime,
    joining: &Joining,
    errors: &mut Output<E>,
) -> Result<Asked, Fault> {
    let name = joining.name.as_str();
    let bytes = bytes_of(rt, name, errors)?;
    let sites = match sites_in(rt.alloc(), bytes.as_slice()) {
        Ok(sites) => sites,
        Err(fault) => {
            return Err(told_wrong(rt.alloc(), name, "it is no file of sites", fault, errors));
        }
    };
    Ok(Asked {
        sites,
        digest: Sha256::digest(bytes.as_slice()),
        secret: secret_of(rt, joining.secret.as_str(), errors)?,
    })
}

// The address that a text is. Refused with `Script` where it is none, and that is told.
fn address_of<E: Buffered>(
    rt: &HostRuntime,
    text: &str,
    errors: &mut Output<E>,
) -> Result<SocketAddr, Fault> {
    match text.parse::<SocketAddr>() {
        Ok(address) => Ok(address),
        Err(_) => Err(told_wrong(
            rt.alloc(),
            text,
            "it is no number and port",
            Fault::Script,
            errors,
        )),
    }
}

// The processes that were met before; of each data centre none, where no log tells of one.
fn met_before(
    rt: &HostRuntime,
    sites: &SitesFile,
    met: Vec<Option<[u8; 16]>>,
) -> Result<Vec<Option<[u8; 16]>>, Fault> {
    if !met.is_empty() {
        return Ok(met);
    }
    let mut none = Vec::new(rt.alloc());
    for _site in &sites.sites {
        none.push(None)?;
    }
    Ok(none)
}

// The other sites, each with how many of its parcels were taken before.
fn others<E: Buffered>(
    rt: &HostRuntime,
    sites: &SitesFile,
    here: u16,
    taken: &[u64],
    errors: &mut Output<E>,
) -> Result<Vec<Other>, Fault> {
    let mut others = Vec::new(rt.alloc());
    let mut dc: u16 = 0;
    for site in &sites.sites {
        if dc != here {
            others.push(Other {
                dc,
                address: address_of(rt, site.peers.as_str(), errors)?,
                taken: taken.get(usize::from(dc)).copied().unwrap_or(0),
            })?;
        }
        dc = dc.saturating_add(1);
    }
    Ok(others)
}

// Exchanges words with the other sites until each was met once.
fn meet_all<T: Wait>(
    rt: &HostRuntime,
    threads: &T,
    began: Option<Instant>,
    door: &mut Sockets,
    meeting: &mut Meeting<'_, HostRuntime, Watch<'_>>,
) -> Result<(), Fault> {
    let mut ready = Vec::new(rt.alloc());
    for _ in threads.forever() {
        meeting.exchange(millis_since(rt, began))?;
        if meeting.have_met() {
            return Ok(());
        }
        let _came = door.wait(Some(Duration::from_millis(LOOK)), &mut ready)?;
        ready.clear();
    }
    unreachable!()
}

// Serves one round after the other, until one fails.
fn serve_all<T: Wait, E: Buffered>(
    rt: &HostRuntime,
    threads: &T,
    began: Option<Instant>,
    node: &mut Node<Meeting<'_, HostRuntime, Watch<'_>>, FileDisk>,
    errors: &mut Output<E>,
) -> Fault {
    for _ in threads.forever() {
        let went = node.round(millis_since(rt, began));
        tell_all(rt.alloc(), node.ended(), errors);
        if let Err(fault) = went {
            return fault;
        }
    }
    unreachable!()
}

// The process that this is, unless its log says which it was. A log is that of a store, whatever addresses its nodes have. Refused with
// `UnknownHome` where the file has no such site.
fn identity<E: Buffered>(
    rt: &HostRuntime,
    topology: &Topology,
    dc: u16,
    errors: &mut Output<E>,
) -> Result<Identity, Fault>
    ensures { IfOk result (λ i. i.dc < topology.now.dcs) }
{
    if dc >= topology.dcs() {
        return Err(Fault::UnknownHome);
    }
    let store = write_head(rt.alloc(), 0, topology)?;
    Ok(Identity {
        dc,
        incarnation: incarnation(rt, errors)?,
        digest: Sha256::digest(store.as_slice()),
    })
}

// The site of this process, which keeps no log, or that of its folder's log, with what that tells of other sites. Tells why none comes
// back.
fn site_asked<E: Buffered>(
    rt: &HostRuntime,
    joining: &Joining,
    topology: &Topology,
    errors: &mut Output<E>,
) -> Result<(DurableSite<Actor, FileDisk>, Others), Fault> {
    let identity = identity(rt, topology, joining.dc, errors)?;
    let Some(folder) = &joining.data else {
        let site = Site::new(rt.alloc(), topology, identity.dc)?;
        let others = Others {
            heard: Vec::new(rt.alloc()),
            met: Vec::new(rt.alloc()),
        };
        return Ok((DurableSite::without_log(site, identity), others));
    };
    match open_site(rt, topology, folder.as_str(), identity) {
        Ok(found) => Ok(found),
        Err(why) => {
            tell_of(rt.alloc(), folder.as_str(), why.reason(rt.alloc()), errors);
            Err(why.fault())
        }
    }
}

// What a node is made of, before it has met the others.
struct Home<'a> {
    door: Sockets,
    port: SiteSessions<Actor, FileDisk>,
    meeting: Meeting<'a, HostRuntime, Watch<'a>>,
    // The port for clients.
    clients: u16,
    began: Option<Instant>,
}

// It is noted which processes were met, for good.
fn note_met(
    port: &mut SiteSessions<Actor, FileDisk>,
    met: &[Option<[u8; 16]>],
) -> Result<(), Fault> {
    let mut dc: u16 = 0;
    for process in met {
        if let Some(incarnation) = process {
            port.note_met(dc, incarnation)?;
        }
        dc = dc.saturating_add(1);
    }
    port.settle()
}

// Gives all that goes to other sites, and meets these, unless each was met before it ended. Refused as that is.
fn settle_in<T: Wait>(rt: &HostRuntime, threads: &T, home: &mut Home<'_>) -> Result<(), Fault> {
    send_all(&mut home.port, &mut home.meeting, u64::MAX)?;
    if home.meeting.have_met() {
        return Ok(());
    }
    meet_all(rt, threads, home.began, &mut home.door, &mut home.meeting)?;
    note_met(&mut home.port, home.meeting.met())
}

// The same node, which bears those who send nothing for as long as is asked for, for 0 for ever.
fn bearing<'a>(
    node: Node<Meeting<'a, HostRuntime, Watch<'a>>, FileDisk>,
    idle: u32,
) -> Node<Meeting<'a, HostRuntime, Watch<'a>>, FileDisk> {
    match idle {
        0 => node,
        seconds => node.with_idle(u64::from(seconds) * 1000),
    }
}

// A node that has met the others. Refused where that is; then the site is closed.
fn settled_in<'a, T: Wait>(
    rt: &'a HostRuntime,
    threads: &T,
    mut home: Home<'a>,
) -> Result<Node<Meeting<'a, HostRuntime, Watch<'a>>, FileDisk>, Fault> {
    let met = settle_in(rt, threads, &mut home);
    let Home {
        door,
        port,
        meeting,
        clients: _,
        began: _,
    } = home;
    match met {
        Ok(()) => Node::new(rt.alloc(), door, port, meeting, LONGEST),
        Err(fault) => {
            port.close();
            Err(fault)
        }
    }
}

// What this site is to those that it meets: the process that it is, and which of theirs it met before.
fn own(
    rt: &HostRuntime,
    joining: &Joining,
    asked: Asked,
    whose: Identity,
    met: Vec<Option<[u8; 16]>>,
) -> Result<Own, Fault> {
    let Asked {
        sites,
        digest,
        secret,
    } = asked;
    Ok(Own {
        expected: Expected {
            dc: whose.dc,
            incarnation: whose.incarnation,
            digest,
            met: met_before(rt, &sites, met)?,
        },
        secret,
        behind: joining.behind,
    })
}

// The sockets of other sites, which aren't called yet, by the process that this is and what its log tells of them. Tells at which address
// they can't be listened to.
fn meeting<'a, E: Buffered>(
    rt: &'a HostRuntime,
    joining: &Joining,
    asked: Asked,
    whose: Identity,
    told: Others,
    registry: Registry,
    errors: &mut Output<E>,
) -> Result<Meeting<'a, HostRuntime, Watch<'a>>, Fault> {
    let Others { heard, met } = told;
    let others = others(rt, &asked.sites, joining.dc, &heard, errors)?;
    let Some(here) = asked.sites.sites.get(usize::from(joining.dc)) else {
        return Err(Fault::UnknownHome);
    };
    let name = String::from_str(rt.alloc(), here.peers.as_str())?;
    let peers = address_of(rt, name.as_str(), errors)?;
    let own = own(rt, joining, asked, whose, met)?;
    match Meeting::open(
        rt,
        rt.alloc(),
        registry,
        peers,
        own,
        others.as_slice(),
        Watch::new(rt),
    ) {
        Ok(meeting) => Ok(meeting),
        Err(fault) => Err(told_deaf(rt.alloc(), name.as_str(), "other sites", fault, errors)),
    }
}

// The door at the address for clients, and its port. Tells where nobody can be listened to there.
fn door_at<E: Buffered>(
    rt: &HostRuntime,
    address: &str,
    errors: &mut Output<E>,
) -> Result<(Sockets, u16), Fault> {
    let at = address_of(rt, address, errors)?;
    match Sockets::open_at(rt, rt.alloc(), at) {
        Ok(door) => Ok((door, at.port())),
        Err(fault) => Err(told_deaf(rt.alloc(), address, "clients", fault, errors)),
    }
}

// The site that is asked for, which comes back from its log where it keeps one, and the sockets by which it is reached.
fn home_of<'a, E: Buffered>(
    rt: &'a HostRuntime,
    joining: &Joining,
    errors: &mut Output<E>,
) -> Result<Home<'a>, Fault> {
    let asked = asked_of(rt, joining, errors)?;
    let Some(here) = asked.sites.sites.get(usize::from(joining.dc)) else {
        let (name, sites) = (joining.name.as_str(), asked.sites.sites.len());
        tell_homeless(rt.alloc(), name, sites, joining.dc, errors);
        return Err(Fault::UnknownHome);
    };
    let began = Instant::now(rt).ok();
    let (door, clients) = door_at(rt, here.clients.as_str(), errors)?;
    let registry = door.registry()?;
    let (site, told) = site_asked(rt, joining, &asked.sites.topology, errors)?;
    let port = SiteSessions::new(rt.alloc(), site)?;
    let whose = port.site().identity();
    match meeting(rt, joining, asked, whose, told, registry, errors) {
        Ok(meeting) => Ok(Home {
            door,
            port,
            meeting,
            clients,
            began,
        }),
        Err(fault) => {
            port.close();
            Err(fault)
        }
    }
}

// Comes back from its log, where it keeps one, meets the others, says that it listens, and serves. Gives why that ended.
fn serve_site<T: Wait, W: Buffered, E: Buffered>(
    rt: &HostRuntime,
    threads: &T,
    joining: &Joining,
    output: &mut Output<W>,
    errors: &mut Output<E>,
) -> Result<Fault, Fault> {
    let home = home_of(rt, joining, errors)?;
    let (clients, began) = (home.clients, home.began);
    let mut node = bearing(settled_in(rt, threads, home)?, joining.idle);
    let fault = match tell_port(rt.alloc(), clients, output) {
        Ok(()) => serve_all(rt, threads, began, &mut node, errors),
        Err(fault) => fault,
    };
    node.close();
    Ok(fault)
}

/// Serves the sessions of one data centre, once each other site was met, ever, and exchanges writes with these, until it is stopped. Where it
/// keeps a log, it comes back from that first, and nothing leaves it before what it tells of is on the disk. Tells of each connection
/// that ends with a fault, and of other sites, and why it can't begin. Gives the exit status, 1, after the fault that ended it was told: `Script` where the file
/// of sites or the secret isn't one, `UnknownHome` where that has no such site, `ReadFailed` where a file can't be read, it can't listen
/// or wait, or its log leads to no site, `WriteFailed` where it can't say that it listens, or its disk fails, `ClockSpent` where its log
/// tells so, `StrangerEnd` where an actor sent what isn't its own, `Memory`.
pub(crate) fn join<T: Wait, W: Buffered, E: Buffered>(
    rt: &HostRuntime,
    threads: &T,
    joining: &Joining,
    output: &mut Output<W>,
    errors: &mut Output<E>,
) -> u8
    ensures { HasStopped E.contents result errors.old errors.new }
{
    let fault = match serve_site(rt, threads, joining, output, errors) {
        Ok(fault) | Err(fault) => fault,
    };
    tell_own_fault(fault, errors);
    tell(errors, fault, None)
}
