//! The sites of three data centres, and the mail between them.
ghost use Rattle.std.specs.Prelude.{◌<◌};

use crate::building;
use crate::mail::{How, Mail};
use disk::Memory;
use durable_site::{DurableSite, Identity};
use logical_time::{Fault, Node};
use messages::{Op, Outcome, Topology};
use parcels::{read_parcel, write_parcel};
use readiness::SharedPort;
use site::Site;
use site_port::SiteSessions;
use std::alloc::Global;
use threaded::Actor;

// More turns than any schedule takes.
const MANY: u64 = 10_000;

/// Three sites. They must be closed.
pub(crate) struct Stores {
    topology: Topology,
    sites: Vec<SiteSessions<Actor, Memory>>,
    mail: Mail,
}

// Ends the sites.
fn close_all(mut sites: Vec<SiteSessions<Actor, Memory>>) {
    while let Some(site) = sites.pop() {
        site.close();
    }
    sites.destroy_empty();
}

// The site of a data centre that there is, to which nothing happened yet.
fn open_site(
    alloc: Global,
    topology: &Topology,
    dc: u16,
) -> Result<SiteSessions<Actor, Memory>, Fault>
    requires { dc < topology.now.dcs }
{
    let identity = Identity {
        dc,
        incarnation: [0; 16],
        digest: [0; 32],
    };
    let site = Site::new(alloc, topology, dc)?;
    SiteSessions::new(alloc, DurableSite::without_log(site, identity))
}

fn open_all(alloc: Global, topology: &Topology) -> Result<Vec<SiteSessions<Actor, Memory>>, Fault> {
    let count = topology.dcs();
    let mut sites = Vec::with_capacity(alloc, usize::from(count))?;
    for dc in 0..count {
        match open_site(alloc, topology, dc) {
            Ok(site) => sites.push_reserved(site),
            Err(fault) => {
                close_all(sites);
                return Err(fault);
            }
        }
    }
    Ok(sites)
}

// The data centre whose site keeps the actor.
fn site_of(topology: &Topology, node: Node) -> u16 {
    if topology.is_shard(node) {
        topology.dc_of(node)
    } else {
        topology.home_of(node).unwrap_or(0)
    }
}

// Turns until nothing waits; then all that is to go is posted.
fn settle(
    alloc: Global,
    topology: &Topology,
    site: &mut SiteSessions<Actor, Memory>,
    mail: &mut Mail,
) -> Result<(), Fault> {
    site.turn(MANY)?;
    for _ in 0..MANY {
        let Some(envelope) = site.give()? else {
            break;
        };
        let bytes = write_parcel(alloc, &envelope)?;
        mail.post(site.site().dc(), site_of(topology, envelope.to), bytes)?;
    }
    Ok(())
}

// A parcel comes to a site.
fn hear(
    alloc: Global,
    site: &mut SiteSessions<Actor, Memory>,
    from: u16,
    bytes: &[u8],
) -> Result<(), Fault> {
    let envelope = read_parcel(alloc, bytes)?;
    match site.hear(from, envelope) {
        Ok(()) => Ok(()),
        Err((fault, _)) => Err(fault),
    }
}

impl Stores {
    /// The three sites, to which nothing happened yet.
    pub(crate) fn open(alloc: Global) -> Result<Stores, Fault> {
        let topology = building::topology(alloc)?;
        let sites = open_all(alloc, &topology)?;
        Ok(Stores {
            topology,
            sites,
            mail: Mail::new(alloc),
        })
    }

    /// The session at home in a data centre asks there.
    pub(crate) fn ask(&mut self, alloc: Global, dc: u16, op: Op) -> Result<Outcome, Fault> {
        let Some(site) = self.sites.get_mut(usize::from(dc)) else {
            return Err(Fault::UnknownHome);
        };
        let answer = site.ask(0, op);
        settle(alloc, &self.topology, site, &mut self.mail)?;
        answer
    }

    /// Who asked by the session at home in a data centre is gone.
    pub(crate) fn leave(&mut self, dc: u16) {
        if let Some(site) = self.sites.get_mut(usize::from(dc)) {
            site.leave(&[0]);
        }
    }

    /// What the site of one data centre sent to that of another comes there so.
    pub(crate) fn carry(
        &mut self,
        alloc: Global,
        from: u16,
        to: u16,
        how: How,
    ) -> Result<(), Fault> {
        let parcels = self.mail.take(alloc, from, to)?;
        let Some(site) = self.sites.get_mut(usize::from(to)) else {
            return Err(Fault::UnknownHome);
        };
        if matches!(how, How::Forward | How::Twice) {
            for bytes in &parcels {
                hear(alloc, site, from, bytes.as_slice())?;
            }
        }
        if matches!(how, How::Backward | How::Twice) {
            for bytes in parcels.iter().rev() {
                hear(alloc, site, from, bytes.as_slice())?;
            }
        }
        settle(alloc, &self.topology, site, &mut self.mail)
    }

    /// What comes of these bytes, where they come from the site of one data centre to that of another.
    pub(crate) fn hear(
        &mut self,
        alloc: Global,
        from: u16,
        to: u16,
        bytes: &[u8],
    ) -> Result<(), Fault> {
        match self.sites.get_mut(usize::from(to)) {
            Some(site) => hear(alloc, site, from, bytes),
            None => Err(Fault::UnknownHome),
        }
    }

    /// Takes out what one sent to another.
    pub(crate) fn posted(
        &mut self,
        alloc: Global,
        from: u16,
        to: u16,
    ) -> Result<Vec<Vec<u8>>, Fault> {
        self.mail.take(alloc, from, to)
    }

    /// Ends the sites.
    pub(crate) fn close(self) {
        let Stores {
            topology: _,
            sites,
            mail: _,
        } = self;
        close_all(sites);
    }
}
