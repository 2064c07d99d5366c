//! The head of a log: which store it is of.
ghost use Rattle.std.specs.Prelude.{◌≡◌, ◌⊎◌, ◌++◌, ◌∷◌, [], ◌<◌, ℕ, true, false, List, All, Some, drop, length, IfOk, IfErr, OnOk};
ghost use Rattle.byteorder.specs.Endian.{big_bytes};
ghost use Rattle.messages.specs.Topology.{TopologyValue};
ghost use Rattle.records.specs.Records.{spelling};
ghost use Rattle.ledger.specs.Heads.{titled, head_of, topology_text, homes_text, families_text, IsStore, IsAsTold, IsNoHead};
ghost use Rattle.ledger.specs.declared.head.HeadError.TheVariants as error;

use bytes::BufMut;
use column_family::{Family, Schema};
use messages::Topology;
use records::{front, write_record};
use std::alloc::{AllocError, AllocFailed, Global};

/// With what a log begins.
const NAME: [u8; 5] = *b"eiger";

/// The version of its format.
const VERSION: u8 = 1;

/// Which store a log is of.
#[derive(Drop)]
pub struct Head {
    /// The store's data centres, shards, families and sessions.
    pub topology: Topology,
    /// What the sums of its records are made with.
    pub secret: u64,
    /// How many bytes the head takes.
    pub length: usize,
}

impl Head {
    /// Whether it is that of a store of this topology.
    #[tactic(auto, using(crate::proofs::Heads::top_same))]
    pub fn is_of(&self, topology: &Topology) -> bool
        ensures yes { result ≡ true → self.now.topology ≡ topology.now }
        ensures no { result ≡ false → self.now.topology ≡ topology.now → ⊥ }
    {
        let here = &self.topology;
        if here.dcs() != topology.dcs() {
            return false;
        }
        if here.shards().get() != topology.shards().get() {
            return false;
        }
        if here.homes() != topology.homes() {
            return false;
        }
        here.schema().families() == topology.schema().families()
    }
}

/// Why a file doesn't begin with the head of a log.
#[derive(Clone, Copy, Debug, PartialEq, Eq)]
pub enum HeadError {
    /// It is no log.
    NoLog,
    /// It is a log of another version.
    Version(u8),
    /// Its head is damaged.
    Damaged,
    /// There is no memory.
    Memory,
}

impl From<AllocError> for HeadError {
    ghost from_gives = { λ _ e. e ≡ error.Memory };

    fn from(_: AllocError) -> Self {
        HeadError::Memory
    }
}

impl<T: Drop> From<AllocFailed<T>> for HeadError {
    ghost from_gives = { λ _ e. e ≡ error.Memory };

    fn from(_: AllocFailed<T>) -> Self {
        HeadError::Memory
    }
}

// Puts the homes behind others.
fn put_homes(text: &mut Vec<u8>, homes: &[u16]) -> Result<(), AllocError>
    ensures { OnOk result (text.new.items ≡ text.old.items ++ homes_text homes.now) }
{
    let mut rest = homes;
    while let [home, others @ ..] = rest {
        text.put_u16(*home)?;
        rest = others;
    }
    Ok(())
}

// Puts the names of families behind others.
fn put_families(text: &mut Vec<u8>, families: &[Family]) -> Result<(), AllocError>
    ensures { OnOk result (text.new.items ≡ text.old.items ++ families_text families.now) }
{
    let mut rest = families;
    while let [family, others @ ..] = rest {
        let name = family.as_slice();
        // no family's name is longer
        let Ok(length) = u16::try_from(name.len()) else {
            return Err(AllocError);
        };
        text.put_u16(length)?;
        text.put_slice(name)?;
        rest = others;
    }
    Ok(())
}

// The text of a topology.
fn text_of(alloc: Global, topology: &Topology) -> Result<Vec<u8>, AllocError>
    ensures { IfOk result (λ text. text.items ≡ topology_text topology.now) }
{
    let mut text = Vec::new(alloc);
    text.put_u16(topology.dcs())?;
    text.put_u16(topology.shards().get())?;
    text.put_u16(topology.homes().len() as u16)?;
    put_homes(&mut text, topology.homes())?;
    put_families(&mut text, topology.schema().families())?;
    Ok(text)
}

/// The head of the log of a store of this topology, the sums of whose records are made with this secret. Refused with `Memory`
/// alone. Linear in the sessions.
pub fn write_head(alloc: Global, secret: u64, topology: &Topology) -> Result<Vec<u8>, AllocError>
    ensures { IfOk result (λ head. head.items ≡ head_of secret topology.now) }
{
    let text = text_of(alloc, topology)?;
    if text.len() > u32::MAX as usize {
        return Err(AllocError);
    }
    let mut head = Vec::new(alloc);
    head.extend_from_slice(&NAME)?;
    head.push(VERSION)?;
    head.extend_from_slice(&secret.to_be_bytes())?;
    write_record(&mut head, secret, 0, true, &text)?;
    Ok(head)
}

// The number that these bytes spell, the highest first.
fn number(high: u8, low: u8) -> u16
    ensures { (n : ℕ) → n < 65536 → high ∷ low ∷ [] ≡ big_bytes 2 n → result ≡ n }
{
    u16::from_be_bytes([high, low])
}

// The homes that bytes spell.
fn homes_of(alloc: Global, bytes: &[u8]) -> Result<Vec<u16>, AllocError>
    ensures { IfOk result (λ read. (homes : List ℕ) → All (λ home. home < 65536) homes → bytes.now ≡ homes_text homes → read.items ≡ homes) }
{
    let mut homes = Vec::with_capacity(alloc, bytes.len() / 2)?;
    let mut rest = bytes;
    while let [high, low, others @ ..] = rest {
        homes.push(number(*high, *low))?;
        rest = others;
    }
    Ok(homes)
}

// The families whose names bytes spell, as far as they do.
fn families_of(alloc: Global, bytes: &[u8]) -> Result<Vec<Family>, AllocError>
    ensures { IfOk result (λ read. (names : List (List ℕ)) → All (λ name. length name < 65536) names → bytes.now ≡ families_text names → read.items ≡ names) }
{
    let mut families = Vec::new(alloc);
    let mut rest = bytes;
    while let [high, low, others @ ..] = rest {
        let length = usize::from(number(*high, *low)).min(others.len());
        let (name, more) = others.split_at(length);
        families.push(Family::from_slice(alloc, name)?)?;
        rest = more;
    }
    Ok(families)
}

// The topology that a text tells, if it tells one.
fn topology_of(alloc: Global, text: &[u8]) -> Result<Option<Topology>, AllocError>
    ensures { IfOk result (λ read. (top : TopologyValue) → IsStore top → text.now ≡ topology_text top → read ≡ Some top) }
{
    let [
        dcs_high,
        dcs_low,
        shards_high,
        shards_low,
        high,
        low,
        rest @ ..,
    ] = text
    else {
        return Ok(None);
    };
    let sessions = usize::from(number(*high, *low)) * 2;
    let (homes, families) = rest.split_at(sessions.min(rest.len()));
    let homes = homes_of(alloc, homes)?;
    let Some(schema) = Schema::new(families_of(alloc, families)?) else {
        return Ok(None);
    };
    let dcs = number(*dcs_high, *dcs_low);
    let shards = number(*shards_high, *shards_low);
    match Topology::of_server(dcs, shards, schema, homes) {
        Ok(topology) => Ok(Some(topology)),
        Err(_) => Ok(None),
    }
}

// The topology that a head with this secret tells, as far as it is understood.
fn told_by(alloc: Global, secret: u64, rest: &[u8]) -> Result<Topology, HeadError>
    ensures refused { IfErr result (λ e. (e ≡ error.Damaged) ⊎ (e ≡ error.Memory)) }
    ensures whole { (top : TopologyValue) (more : List ℕ) → IsStore top → rest.now ≡ spelling secret 0 (record { first = true; body = topology_text top }) ++ more → IsAsTold top result }
{
    let Some((_, text)) = front(secret, 0, rest) else {
        return Err(HeadError::Damaged);
    };
    match topology_of(alloc, text)? {
        Some(topology) => Ok(topology),
        None => Err(HeadError::Damaged),
    }
}

// Whether bytes begin with these.
fn begin_with(bytes: &[u8], head: &[u8]) -> bool
    ensures yes { result ≡ true → bytes.now ≡ head.now ++ drop (length head.now) bytes.now }
    ensures no { result ≡ false → (rest : List ℕ) → bytes.now ≡ head.now ++ rest → ⊥ }
{
    bytes.len() >= head.len() && &bytes[..head.len()] == head
}

// What stands behind the name and the version of a log. Refused with `NoLog` and `Version`.
fn behind_title(bytes: &[u8]) -> Result<&[u8], HeadError>
    ensures ok { IfOk result (λ rest. bytes.now ≡ titled 1 ++ rest.now) }
    ensures refused { IfErr result (IsNoHead bytes.now) }
{
    let [e, i, g, e2, r, version, rest @ ..] = bytes else {
        return Err(HeadError::NoLog);
    };
    if [*e, *i, *g, *e2, *r] != NAME {
        return Err(HeadError::NoLog);
    }
    if *version != VERSION {
        return Err(HeadError::Version(*version));
    }
    Ok(rest)
}

/// The head with which a log begins: its bytes are just those that `write_head` makes of what it tells. Refused with `NoLog`,
/// `Version`, `Damaged` and `Memory`. Linear in the sessions.
pub fn read_head(alloc: Global, bytes: &[u8]) -> Result<Head, HeadError>
    ensures begins { IfOk result (λ head. bytes.now ≡ head_of head.secret head.topology ++ drop head.length bytes.now) }
    ensures length { IfOk result (λ head. head.length ≡ length (head_of head.secret head.topology)) }
    ensures refused { IfErr result (IsNoHead bytes.now) }
{
    let rest = behind_title(bytes)?;
    let [s0, s1, s2, s3, s4, s5, s6, s7, rest @ ..] = rest else {
        return Err(HeadError::Damaged);
    };
    let secret = u64::from_be_bytes([*s0, *s1, *s2, *s3, *s4, *s5, *s6, *s7]);
    let topology = told_by(alloc, secret, rest)?;
    let head = write_head(alloc, secret, &topology)?;
    if !begin_with(bytes, &head) {
        return Err(HeadError::Damaged);
    }
    Ok(Head {
        topology,
        secret,
        length: head.len(),
    })
}
