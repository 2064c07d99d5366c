//! Which hellos may be answered.
ghost use Rattle.std.specs.Prelude.{◌≡◌, Some, None, MatchResult};
ghost use Rattle.hello.specs.Welcome.{is_for as is_for_own, is_known as is_known_own, is_met as is_met_own, welcome};

use crate::hello::Hello;

/// What a process compares a hello with.
#[derive(Drop)]
pub struct Expected {
    /// The data centre that it is of.
    pub dc: u16,
    /// Which process it is.
    pub incarnation: [u8; 16],
    /// The digest of its file of sites.
    pub digest: [u8; 32],
    /// For each data centre of the store, in order, which process was met there, if one was.
    pub met: Vec<Option<[u8; 16]>>,
}

/// Why a hello may not be answered.
#[derive(Clone, Copy, Debug, PartialEq, Eq)]
pub enum Unwelcome {
    /// It speaks another version.
    Version,
    /// It isn't for this data centre, or isn't from another one of the store.
    Stranger,
    /// It has another file of sites.
    OtherSites,
    /// It knows another process of this data centre.
    KnowsAnother,
    /// Another process of its data centre was met before.
    OtherProcess,
}

// Whether it is for this data centre, and from another one of the store.
fn is_for(own: &Expected, other: &Hello) -> bool
    ensures { result ≡ is_for_own own.now other.now }
{
    other.to == own.dc && other.from != own.dc && (other.from as usize) < own.met.len()
}

// Whether it knows no process of this data centre, or this one.
fn is_known(own: &Expected, other: &Hello) -> bool
    ensures { result ≡ is_known_own own.now other.now }
{
    let none = [0u8; 16];
    other.known.as_slice() == none.as_slice()
        || other.known.as_slice() == own.incarnation.as_slice()
}

// Whether it is the process that was met at its data centre, if one was.
fn is_met(own: &Expected, other: &Hello) -> bool
    ensures { result ≡ is_met_own own.now other.now }
{
    match own.met.get(other.from as usize) {
        Some(Some(met)) => met.as_slice() == other.incarnation.as_slice(),
        _ => true,
    }
}

/// Whether a hello may be answered, and if not why: the first reason in the order of `Unwelcome`. Anybody can write a
/// hello that may be: who sent it says its proof. Who connected looks besides whether it is from the data centre that
/// was called.
#[tactic(auto, unfolding(crate::specs::Welcome::welcome))]
pub fn check(own: &Expected, other: &Hello) -> Result<(), Unwelcome>
    ensures { MatchResult result (λ _. welcome own.now other.now ≡ None) (λ e. welcome own.now other.now ≡ Some e) }
{
    if other.version != 1 {
        return Err(Unwelcome::Version);
    }
    if !is_for(own, other) {
        return Err(Unwelcome::Stranger);
    }
    if other.digest.as_slice() != own.digest.as_slice() {
        return Err(Unwelcome::OtherSites);
    }
    if !is_known(own, other) {
        return Err(Unwelcome::KnowsAnother);
    }
    if !is_met(own, other) {
        return Err(Unwelcome::OtherProcess);
    }
    Ok(())
}
