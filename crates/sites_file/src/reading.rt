//! Files of sites, read.
ghost use Rattle.std.specs.Prelude.{◌≡◌, ◌++◌, ◌<◌, ◌^◌, map, replicate, length, OnOk, IfOk, IfErr, option_and_then, string_bytes};
ghost use Rattle.serde_json.specs.Find.{as_str};
ghost use Rattle.serde_json.specs.View.{view};
ghost use Rattle.serde_json.specs.Read.{read};
ghost use Rattle.workload.specs.Gives.{Gives, GivesSeen};
ghost use Rattle.workload.specs.Shape.{member_by, all_by, list_by};
ghost use Rattle.sites_file.specs.Sites as form;
ghost use Rattle.sites_file.specs.Sites.{site_seen, sites_seen, homes_from};

use column_family::Schema;
use logical_time::Fault;
use messages::Topology;
use serde_json::Value as Json;
use std::alloc::Global;
use workload::{has_members, list, member, member_as};

/// How many data centres a store has at most.
const MOST_SITES: usize = 4;

/// The site of a data centre, in a file of sites.
#[derive(Drop)]
pub struct SiteAt {
    /// The address at which it listens for clients.
    pub clients: String,
    /// The address at which it listens for other sites.
    pub peers: String,
    /// How many sessions are at home there.
    pub sessions: u16,
}

/// The sites of all data centres.
#[derive(Drop)]
pub struct SitesFile {
    /// Which actors there are: the sessions of the first site come first, then those of the next.
    pub topology: Topology,
    /// The sites, in the order of their data centres.
    pub sites: Vec<SiteAt>,
}

// The text of the member of this name.
fn text(alloc: Global, json: &Json, name: &str) -> Result<String, Fault>
    ensures { GivesSeen (λ s. string_bytes s) result (member_by as_str name.now (view json.now)) }
{
    let text = member(json, name)?.as_str().ok_or(Fault::Script)?;
    Ok(String::from_str(alloc, text)?)
}

// The site that the value stands for.
#[tactic(auto, unfolding(crate::specs::Sites::site_of))]
fn site(alloc: Global, json: &Json) -> Result<SiteAt, Fault>
    ensures { GivesSeen site_seen result (form.site_of (view json.now)) }
{
    if !has_members(json, 3) {
        return Err(Fault::Script);
    }
    let clients = text(alloc, json, "clients")?;
    let peers = text(alloc, json, "peers")?;
    let sessions = member_as(alloc, json, "sessions")?;
    Ok(SiteAt {
        clients,
        peers,
        sessions,
    })
}

// The sites that the items of a list stand for.
fn each(alloc: Global, items: &Vec<Json>) -> Result<Vec<SiteAt>, Fault>
    ensures { GivesSeen (λ v. map site_seen v.items) result (all_by form.site_of (map view items.now.items)) }
{
    let mut all = Vec::new(alloc);
    for item in items {
        all.push(site(alloc, item)?)?;
    }
    Ok(all)
}

// The sites that the list stands for.
fn sites(alloc: Global, json: &Json) -> Result<Vec<SiteAt>, Fault>
    ensures { GivesSeen (λ v. map site_seen v.items) result (list_by form.site_of (view json.now)) }
{
    each(alloc, list(json)?)
}

// Puts a session that is at home in a data centre behind others, so many times.
fn put_home(homes: &mut Vec<u16>, dc: u16, count: u16) -> Result<(), Fault>
    ensures put { OnOk result (homes.new.items ≡ homes.old.items ++ replicate count dc) }
    ensures memory { IfErr result (λ e. e ≡ Fault.Memory) }
{
    for _session in 0..count {
        homes.push(dc)?;
    }
    Ok(())
}

// The homes of the sessions of these sites, of which there are fewer than 65,536.
fn homes_of(alloc: Global, sites: &[SiteAt]) -> Result<Vec<u16>, Fault>
    requires { length sites.now < 2 ^ 16 }
    ensures homes { IfOk result (λ homes. homes.items ≡ homes_from 0 (map site_seen sites.now)) }
    ensures memory { IfErr result (λ e. e ≡ Fault.Memory) }
{
    let mut homes = Vec::new(alloc);
    for dc in 0..sites.len() {
        put_home(&mut homes, dc as u16, sites[dc].sessions)?;
    }
    Ok(homes)
}

// The sites that the value stands for.
#[tactic(auto, unfolding(crate::specs::Sites::sites_of))]
fn sites_in(alloc: Global, json: &Json) -> Result<SitesFile, Fault>
    ensures { GivesSeen sites_seen result (form.sites_of (view json.now)) }
{
    if !has_members(json, 3) {
        return Err(Fault::Script);
    }
    let shards: u16 = member_as(alloc, json, "shards")?;
    let schema: Schema = member_as(alloc, json, "families")?;
    let sites = sites(alloc, member(json, "sites")?)?;
    if sites.len() > MOST_SITES {
        return Err(Fault::Script);
    }
    let homes = homes_of(alloc, sites.as_slice())?;
    let topology = Topology::of_server(sites.len() as u16, shards, schema, homes)?;
    Ok(SitesFile { topology, sites })
}

/// The sites that the value of a JSON text stands for, as `serde_json` reads it: of a member that is written twice, the last one
/// counts. Refused with `Script` exactly where the text is no JSON that it reads, or where its value stands for no sites; or with
/// `Memory`. Linear in the text and in the sessions. Whether an address is one is for whoever listens there.
pub fn read_sites(alloc: Global, text: &str) -> Result<SitesFile, Fault>
    ensures { GivesSeen sites_seen result (option_and_then form.sites_of (read text.now)) }
{
    match Json::from_str(alloc, text) {
        Ok(json) => sites_in(alloc, &json),
        Err(error) if error.is_memory() => Err(Fault::Memory),
        Err(_) => Err(Fault::Script),
    }
}
